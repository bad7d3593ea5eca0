//! The words of a recipe.

use filters::Filter;

/// The most words that a recipe has.
pub const MAX_WORDS: usize = 96;

/// The largest size of a filter.
pub const MAX_SIZE: u32 = 200;

/// A word: what one step of a recipe does.
#[derive(Clone, Copy, PartialEq, Eq, Default)]
pub enum Word {
    /// D, E, O, C or A with a size: the filter.
    Step(Filter),
    /// H: keep a copy of the weights.
    Hold,
    /// J: the join with the held copy.
    Join,
    /// M: the meet with the held copy.
    Meet,
    /// F: let the held copy go. The default fills the places of an array past its words.
    #[default]
    Forget,
}
