//! The order of levels.

ghost use Rattle.std.specs.Prelude.{◌≡◌, ◌≤◌, Decides};
ghost use Rattle.lattice.specs.Levels.{level, level_number, level_below, level_leq, level_operations, LevelKind};
ghost use Rattle.lattice.specs.KindLaws.{level_lattice};
ghost use Rattle.std.proofs.Common.{rules};

use crate::kinds::Kind;
use crate::levels::Level;

// Presences have the same bodies: the contracts of each kind name its own definitions, and what they share is the derived order.

impl Kind for Level {
    ghost below = { level_below };

    ghost operations = { level_operations };

    ghost leq = { level_leq };

    ghost lattice = { level_lattice };

    ghost decided = { Prim.search rules };

    fn lowest() -> Level
        ensures { result ≡ level_operations.lowest }
    {
        Level::new(0)
    }

    fn highest() -> Level
        ensures { result ≡ level_operations.highest }
    {
        Level::new(65535)
    }

    fn join(self, other: Level) -> Level
        ensures { result ≡ level_operations.join self other }
    {
        self.max(other)
    }

    fn meet(self, other: Level) -> Level
        ensures { result ≡ level_operations.meet self other }
    {
        self.min(other)
    }

    fn is_below(self, other: Level) -> bool
        ensures value { result ≡ level_leq self other }
        ensures exact { Decides result (level_number self ≤ level_number other) }
    {
        self <= other
    }
}

impl Level {
    /// The level of a number, all of it: a level is its number and nothing else.
    pub fn new(value: u16) -> Level
        ensures number { result.value ≡ value }
        ensures whole { result ≡ level value }
    {
        Level { value }
    }

    /// Shows what the kind means: the numbers 0 to 65,535 in the usual order, the join the larger and the meet the smaller.
    pub fn meaning()
        ensures { LevelKind level_below level_operations }
    {}
}
