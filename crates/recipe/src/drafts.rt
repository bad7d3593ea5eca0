//! The words read so far.

use crate::turns::Turn;
use crate::words::{MAX_WORDS, Word};
use arrayvec::ArrayVec;
use refusal::Refusal;

/// The words read so far, and the turn after them.
#[derive(Drop)]
pub(crate) struct Draft {
    pub(crate) words: ArrayVec<Word, MAX_WORDS>,
    pub(crate) turn: Turn,
}

impl Draft {
    ghost use Rattle.std.specs.Prelude.{◌≡◌};
    ghost use Rattle.recipe.specs.Judging.{start, progress, step_answer, admitted};

    /// No words yet.
    pub(crate) fn new() -> Draft
        ensures { progress result ≡ start }
    {
        Draft {
            words: ArrayVec::new(),
            turn: Turn::Free,
        }
    }

    /// One word more, which begins at a byte of the text.
    pub(crate) fn admit(&mut self, word: Word, at: usize) -> Result<(), Refusal>
        ensures { step_answer result (progress self.new) ≡ admitted at word (progress self.old) }
    {
        if self.words.is_full() {
            return Err(Refusal::TooManyWords(at));
        }
        let turn = self.turn.after(word).ok_or(Refusal::WordOutOfTurn(at))?;
        self.words.push(word);
        self.turn = turn;
        Ok(())
    }
}
