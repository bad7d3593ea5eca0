//! A recipe: at most 96 words that follow one another.

ghost use Rattle.recipe.specs.Legal.{Legal};

use crate::words::{MAX_WORDS, Word};
use arrayvec::ArrayVec;

/// A recipe: at most 96 words, each size 1 to 200, at most one thing held at a time and nothing at the end.
///
/// The words stand in the recipe itself and not on the heap. Want of memory would else refuse a text that was accepted before,
/// and two answers to one text are to be the same.
#[derive(Drop)]
pub struct Recipe {
    pub(crate) words: ArrayVec<Word, MAX_WORDS>,
    ghost legal: { Legal words.items },
}
