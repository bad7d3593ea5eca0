//! The kind of weights that are there or not.

ghost use Rattle.std.specs.Prelude.{◌≡◌, Some, decimal, Decides};
ghost use Rattle.lattice.specs.Presences.{presence_below, presence_leq, presence_number, presence_operations, present_if, PresenceKind};
ghost use Rattle.lattice.specs.KindLaws.{presence_lattice};
ghost use Rattle.std.proofs.Common.{rules};

use crate::kinds::Kind;
use std::fmt;

/// Whether something is there: absent is below present.
#[derive(Clone, Copy, PartialEq, Eq, PartialOrd, Ord, Debug)]
#[repr(u8)]
pub enum Presence {
    Absent,
    Present,
}

impl Presence {
    /// Shows what the kind means: absent and present, absent below present and not the other way.
    pub fn meaning()
        ensures { PresenceKind presence_below presence_operations }
    {}
}

/// Present where the test answers yes.
impl From<bool> for Presence {
    ghost from_gives = { λ test x. x ≡ present_if test };

    fn from(test: bool) -> Presence {
        if test {
            Presence::Present
        } else {
            Presence::Absent
        }
    }
}

impl Kind for Presence {
    ghost below = { presence_below };

    ghost operations = { presence_operations };

    ghost leq = { presence_leq };

    ghost lattice = { presence_lattice };

    ghost decided = { Prim.search rules };

    fn lowest() -> Presence
        ensures { result ≡ presence_operations.lowest }
    {
        Self::Absent
    }

    fn highest() -> Presence
        ensures { result ≡ presence_operations.highest }
    {
        Self::Present
    }

    fn join(self, other: Presence) -> Presence
        ensures { result ≡ presence_operations.join self other }
    {
        self.max(other)
    }

    fn meet(self, other: Presence) -> Presence
        ensures { result ≡ presence_operations.meet self other }
    {
        self.min(other)
    }

    fn is_below(self, other: Presence) -> bool
        ensures value { result ≡ presence_leq self other }
        ensures exact { Decides result (presence_below self other) }
    {
        self <= other
    }
}

/// Absent is written 0, and present 1.
impl fmt::Display for Presence {
    ghost output = { λ x. Some (decimal (presence_number x)) };

    fn fmt<W: fmt::Write>(&self, f: &mut fmt::Formatter<W>) -> fmt::Result {
        write!(f, "{}", *self as u8)
    }
}
