//! The kind of weights that are sets of classes.

ghost use Rattle.std.specs.Prelude.{◌≡◌, ◌^◌, ◌<◌, Some, decimal};

use std::fmt;

/// A set of classes 0 to 31, ordered by inclusion. Bit k tells whether class k is in it.
#[derive(Clone, Copy, PartialEq, Eq, Debug)]
#[repr(C)]
pub struct Classes {
    pub(crate) bits: u32,
    ghost fits: { bits < 2 ^ 32 },
}

impl Classes {
    /// The set as a number: bit k is 1 where class k is in the set.
    pub fn bits(self) -> u32
        ensures { result ≡ self.bits }
    {
        self.bits
    }
}

/// The set as a number, in decimal digits.
impl fmt::Display for Classes {
    ghost output = { λ x. Some (decimal x.bits) };

    fn fmt<W: fmt::Write>(&self, f: &mut fmt::Formatter<W>) -> fmt::Result {
        write!(f, "{}", self.bits)
    }
}
