//! Cuts: a value of a chain is read as present where the threshold is below it.

ghost use Rattle.std.specs.Prelude.{◌≡◌, ◌≢◌, ⊤};
ghost use Rattle.refusal.specs.Reports.{answer};
ghost use Rattle.lattice.specs.Levels.{level_leq, level_operations};
ghost use Rattle.lattice.specs.Morphisms.{Morphism};
ghost use Rattle.lattice.specs.Presences.{presence_leq, presence_operations};
ghost use Rattle.lattice.specs.Reversals.{reversed_leq, reversed_operations};
ghost use Rattle.lattice.specs.declared.presences.Presence.TheVariants.{Present};
ghost use Rattle.readings.specs.Cuts.{cut_at, cut_call, lowest_of, lowest_level, lowest_presence, lowest_reversed_level, map_answer};
ghost use Rattle.readings.specs.CutLaws.{cut_morphism};

use crate::readings::Reading;
use lattice::{Chain, Kind, Level, Presence, Reversed};
use refusal::Refusal;
use std::alloc::AllocError;

/// A cut of any chain, at a threshold above the lowest value.
///
/// Presences, levels and reversed levels have cuts of their own ([`crate::PresenceCut`], [`crate::LevelCut`], [`crate::ReversedLevelCut`]), whose
/// contracts speak of their values.
#[derive(Copy)]
pub struct ChainCut<C: Chain> {
    threshold: C,
    ghost raised: { threshold ≢ C.Kind.operations.lowest },
}

// By hand, since the derive is refused for a generic struct with a ghost field.
impl<C: Chain> Clone for ChainCut<C> {
    ghost is_clone = { λ x y. y ≡ x };

    ghost is_infallible = { λ _. ⊤ };

    fn clone(&self) -> Result<ChainCut<C>, AllocError> {
        Ok(*self)
    }
}

impl<C: Chain> ChainCut<C> {
    /// The cut at the threshold. Refuses the lowest value by 17.
    pub fn new(threshold: C) -> Result<ChainCut<C>, Refusal>
        ensures { map_answer (λ f. f.threshold) (answer result) ≡ cut_call (lowest_of C.Kind.leq C.Kind.operations) threshold }
    {
        if threshold.at_most(C::lowest()) {
            return Err(Refusal::NotAReading);
        }
        Ok(ChainCut { threshold })
    }

    /// The value at which it cuts.
    pub fn threshold(self) -> C
        ensures { result ≡ self.threshold }
    {
        self.threshold
    }
}

impl<C: Chain> Reading for ChainCut<C> {
    type Source = C;

    type Target = Presence;

    ghost image = { λ f. cut_at C.Kind.leq f.threshold };

    ghost morphism = { λ f. cut_morphism C.Kind.lattice C.Chain.total f.threshold f.raised };

    fn read(&self, weight: C) -> Presence
        ensures value { result ≡ cut_at C.Kind.leq self.now.threshold weight }
        ensures exact { (result ≡ Present → C.Kind.below self.now.threshold weight) × (C.Kind.below self.now.threshold weight → result ≡ Present) }
    {
        cut(self.threshold, weight)
    }
}

/// What every cut does: present for the values that the threshold is below, absent for the others.
pub fn cut<C: Chain>(threshold: C, weight: C) -> Presence
    ensures value { result ≡ cut_at C.Kind.leq threshold weight }
    ensures exact { (result ≡ Present → C.Kind.below threshold weight) × (C.Kind.below threshold weight → result ≡ Present) }
{
    Presence::from(threshold.at_most(weight))
}

/// Shows that a cut of any chain, at any threshold but the lowest value, keeps the ends, joins and meets.
pub fn cut_keeps_all<C: Chain>(threshold: C)
    ensures { (threshold ≢ C.Kind.operations.lowest) → Morphism C.Kind.operations presence_operations (cut_at C.Kind.leq threshold) }
{}

/// Shows what a chain's cut of presences is: the threshold is present, and each presence is read as itself.
pub fn presence_cut_is_same(cut: ChainCut<Presence>, weight: Presence)
    ensures threshold { cut.threshold ≡ Present }
    ensures same { cut_at presence_leq cut.threshold weight ≡ weight }
{}

/// Shows which values are the lowest of their chains, at which no cut is made: absent, level 0 and reversed level 65,535.
pub fn lowest_thresholds(presence: Presence, level: Level, reversed: Reversed<Level>)
    ensures presences { cut_call (lowest_of presence_leq presence_operations) presence ≡ cut_call lowest_presence presence }
    ensures levels { cut_call (lowest_of level_leq level_operations) level ≡ cut_call lowest_level level }
    ensures reversed_levels { cut_call (lowest_of (reversed_leq level_leq) (reversed_operations level_operations)) reversed ≡ cut_call lowest_reversed_level reversed }
{}
