//! Joins and meets as two cases of one thing, so that each pass is written and proved once.

ghost use Rattle.std.specs.Prelude.{◌≡◌};
ghost use Rattle.filters.specs.Passes.{Side, joins, meets};

use lattice::Kind;

/// How weights of the kind `K` are combined: by join from the lowest on, or by meet from the highest on.
pub trait Semilattice<K> {
    ghost side: { Side K };

    /// The weight that changes nothing.
    fn neutral() -> K
        ensures { result ≡ side.neutral };

    /// Two weights combined.
    fn combine(a: K, b: K) -> K
        ensures { result ≡ side.combine a b };
}

// The two instances, in four lines each, that make every pass and every filter one generic function.

/// Combines by join.
pub struct Joins;

/// Combines by meet.
pub struct Meets;

impl<K: Kind> Semilattice<K> for Joins {
    ghost side = { joins K.Kind.operations };

    fn neutral() -> K {
        K::lowest()
    }

    fn combine(a: K, b: K) -> K {
        a.join(b)
    }
}

impl<K: Kind> Semilattice<K> for Meets {
    ghost side = { meets K.Kind.operations };

    fn neutral() -> K {
        K::highest()
    }

    fn combine(a: K, b: K) -> K {
        a.meet(b)
    }
}
