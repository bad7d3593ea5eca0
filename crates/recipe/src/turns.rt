//! At most one thing is held at a time.

ghost use Rattle.std.specs.Prelude.{◌≡◌};
ghost use Rattle.recipe.specs.Turns.{turned};

use crate::words::Word;

/// Whether something is held.
#[derive(Clone, Copy, PartialEq, Eq, Debug)]
pub enum Turn {
    /// Nothing is held.
    Free,
    /// One thing is held.
    Held,
}

impl Turn {
    // One match on the own state and the word, which is the whole machine: kept so, as the table of turns reads.
    /// The turn after a word, or none where the word is out of turn.
    pub fn after(self, word: Word) -> Option<Turn>
        ensures { result ≡ turned self word }
    {
        match (self, word) {
            (Turn::Free, Word::Step(_)) => Some(Turn::Free),
            (Turn::Free, Word::Hold) => Some(Turn::Held),
            (Turn::Free, Word::Join | Word::Meet | Word::Forget) => None,
            (Turn::Held, Word::Step(_)) => Some(Turn::Held),
            (Turn::Held, Word::Join | Word::Meet | Word::Forget) => Some(Turn::Free),
            (Turn::Held, Word::Hold) => None,
        }
    }
}
