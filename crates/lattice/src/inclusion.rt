//! Which classes are in a set, and the order of sets by inclusion.

ghost use Rattle.std.specs.Prelude.{◌≡◌, Decides};
ghost use Rattle.lattice.specs.ClassSets.{has_class, classes_of, Included, classes_below, classes_leq, classes_operations, ClassesKind};
ghost use Rattle.lattice.specs.KindLaws.{classes_lattice, classes_decided};

use crate::class_sets::Classes;
use crate::kinds::Kind;

impl Classes {
    /// The set that has class k where bit k is 1, all of it: a set is its bits and nothing else.
    pub fn from_bits(bits: u32) -> Classes
        ensures number { result.bits ≡ bits }
        ensures whole { result ≡ classes_of bits }
    {
        Classes { bits }
    }

    /// Whether class k is in the set. There is none above 31.
    #[tactic(auto, using(crate::specs::SetBits::none_past))]
    pub fn has(self, k: u8) -> bool
        ensures { result ≡ has_class k self }
    {
        k < 32 && (self.bits >> k) % 2 == 1
    }

    /// Shows what the kind means: the sets of classes 0 to 31, ordered by inclusion, the join the union and the meet the
    /// intersection.
    pub fn meaning()
        ensures { ClassesKind classes_below classes_operations }
    {}
}

impl Kind for Classes {
    ghost below = { classes_below };

    ghost operations = { classes_operations };

    ghost leq = { classes_leq };

    ghost lattice = { classes_lattice };

    ghost decided = { classes_decided };

    fn lowest() -> Classes
        ensures { result ≡ classes_operations.lowest }
    {
        Classes::from_bits(0)
    }

    fn highest() -> Classes
        ensures { result ≡ classes_operations.highest }
    {
        Classes::from_bits(0xffff_ffff)
    }

    fn join(self, other: Classes) -> Classes
        ensures { result ≡ classes_operations.join self other }
    {
        Classes::from_bits(self.bits | other.bits)
    }

    fn meet(self, other: Classes) -> Classes
        ensures { result ≡ classes_operations.meet self other }
    {
        Classes::from_bits(self.bits & other.bits)
    }

    #[tactic(auto, using(crate::specs::KindLaws::classes_decided))]
    fn is_below(self, other: Classes) -> bool
        ensures value { result ≡ classes_leq self other }
        ensures exact { Decides result (Included self other) }
    {
        self.bits & other.bits == self.bits
    }
}
