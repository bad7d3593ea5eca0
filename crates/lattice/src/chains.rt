//! Kinds of which any two values compare.

ghost use Rattle.std.specs.Prelude.{◌≡◌, false, Decides};
ghost use Rattle.lattice.specs.Chains.{Total};
ghost use Rattle.lattice.specs.ChainLaws.{presence_total, level_total, reversed_total};

use crate::kinds::Kind;
use crate::levels::Level;
use crate::presences::Presence;
use crate::reversal::Reversed;

/// A kind that is a chain: of any two values one is below the other.
pub trait Chain: Kind {
    /// Whether this value is below the other. Where it is not, the other is below this one.
    fn at_most(self, other: Self) -> bool
        ensures value { result ≡ Self.Kind.leq self other }
        ensures exact { Decides result (Self.Kind.below self other) }
        ensures otherwise { result ≡ false → Self.Kind.below other self }
    {
        self.is_below(other)
    }

    ghost total: { Total Self.Kind.below Self.Kind.leq };
}

impl Chain for Presence {
    ghost total = { presence_total };
}

impl Chain for Level {
    ghost total = { level_total };
}

impl<C: Chain> Chain for Reversed<C> {
    ghost total = { reversed_total C.Chain.total };
}
