//! Any kind with its order turned.

ghost use Rattle.std.specs.Prelude.{◌≡◌, Decides};
ghost use Rattle.lattice.specs.Reversals.{reversed_below, reversed_leq, reversed_operations};
ghost use Rattle.lattice.specs.LatticesLemmas.{reversed_lattice};
ghost use Rattle.std.proofs.Common.{rules};

use crate::kinds::Kind;
use std::fmt;

/// A kind with its order turned: its two ends are exchanged, and join with meet. The kind may itself be a reversal.
#[derive(Clone, Copy, PartialEq, Eq, Debug)]
#[repr(C)]
pub struct Reversed<K> {
    pub inner: K,
}

impl<K: Kind> Kind for Reversed<K> {
    ghost below = { reversed_below K.Kind.below };

    ghost operations = { reversed_operations K.Kind.operations };

    ghost leq = { reversed_leq K.Kind.leq };

    ghost lattice = { reversed_lattice K.Kind.lattice };

    ghost decided = { Prim.search rules };

    fn lowest() -> Self
        ensures { result.inner ≡ K.Kind.operations.highest }
    {
        Reversed {
            inner: K::highest(),
        }
    }

    fn highest() -> Self
        ensures { result.inner ≡ K.Kind.operations.lowest }
    {
        Reversed { inner: K::lowest() }
    }

    fn join(self, other: Self) -> Self
        ensures { result.inner ≡ K.Kind.operations.meet self.inner other.inner }
    {
        Reversed {
            inner: self.inner.meet(other.inner),
        }
    }

    fn meet(self, other: Self) -> Self
        ensures { result.inner ≡ K.Kind.operations.join self.inner other.inner }
    {
        Reversed {
            inner: self.inner.join(other.inner),
        }
    }

    fn is_below(self, other: Self) -> bool
        ensures value { result ≡ K.Kind.leq other.inner self.inner }
        ensures exact { Decides result (K.Kind.below other.inner self.inner) }
    {
        other.inner.is_below(self.inner)
    }
}

/// The value as the kind writes it.
impl<K: fmt::Display> fmt::Display for Reversed<K> {
    ghost output = { λ x. K.Display.output x.inner };

    fn fmt<W: fmt::Write>(&self, f: &mut fmt::Formatter<W>) -> fmt::Result {
        write!(f, "{}", self.inner)
    }
}
