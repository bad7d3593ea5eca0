//! A kind of weight is a bounded lattice.

ghost use Rattle.std.specs.Prelude.{◌≡◌, Bool, Decides};
ghost use Rattle.lattice.specs.Lattices.{Operations, Lattice};

/// A kind of weight: values in an order called below, with a lowest and a highest value, joins and meets.
///
/// Each `impl` proves `lattice`, the laws of a bounded lattice, and `decided`, that its order can be tested; generic code uses
/// nothing else.
pub trait Kind: Copy {
    /// The order.
    ghost below: { Self → Self → Type 0 };

    /// The ends of the order, and its joins and meets.
    ghost operations: { Operations Self };

    /// The order as a test.
    ghost leq: { Self → Self → Bool };

    /// The value that is below all.
    fn lowest() -> Self
        ensures { result ≡ operations.lowest };

    /// The value that is above all.
    fn highest() -> Self
        ensures { result ≡ operations.highest };

    /// The least value above both.
    fn join(self, other: Self) -> Self
        ensures { result ≡ operations.join self other };

    /// The greatest value below both.
    fn meet(self, other: Self) -> Self
        ensures { result ≡ operations.meet self other };

    /// Whether this value is below the other.
    fn is_below(self, other: Self) -> bool
        ensures value { result ≡ leq self other }
        ensures exact { Decides result (below self other) };

    ghost lattice: { Lattice below operations };

    ghost decided: { (x y : Self) → Decides (leq x y) (below x y) };
}
