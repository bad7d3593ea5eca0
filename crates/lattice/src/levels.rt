//! The kind of weights that are numbers.

ghost use Rattle.std.specs.Prelude.{◌≡◌, ◌<◌, Some, decimal};

use std::fmt;

/// A number from 0 to 65,535, in the usual order.
#[derive(Clone, Copy, PartialEq, Eq, PartialOrd, Ord, Debug)]
#[repr(C)]
pub struct Level {
    pub(crate) value: u16,
    ghost fits: { value < 65536 },
}

impl Level {
    /// The number of this level.
    pub fn value(self) -> u16
        ensures { result ≡ self.value }
    {
        self.value
    }
}

/// The number, in decimal digits.
impl fmt::Display for Level {
    ghost output = { λ x. Some (decimal x.value) };

    fn fmt<W: fmt::Write>(&self, f: &mut fmt::Formatter<W>) -> fmt::Result {
        write!(f, "{}", self.value)
    }
}
