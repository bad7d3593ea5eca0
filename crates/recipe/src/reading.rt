//! A recipe from its text.

ghost use Rattle.std.specs.Prelude.{◌≡◌, ℕ, ◌↔◌, ◌≤◌, List, [], length};
ghost use Rattle.refusal.specs.declared.Part.{Part};
ghost use Rattle.refusal.specs.Reports.{answer, accepted, refused};
ghost use Rattle.recipe.specs.declared.turns.Turn.TheVariants.{Free};
ghost use Rattle.recipe.specs.Legal.{Legal};
ghost use Rattle.recipe.specs.Grammar.{Text};
ghost use Rattle.recipe.specs.Judging.{word_run, judge, ended};
ghost use Rattle.recipe.specs.Refused.{Refused};
ghost use Rattle.recipe.specs.Contents.{recipe_words, read_answer, without_words, words_after};

use crate::drafts::Draft;
use crate::recipes::Recipe;
use crate::tokens::read_word;
use crate::turns::Turn;
use crate::words::Word;
use arrayvec::ArrayVec;
use refusal::Refusal;

/// The most bytes that a recipe text has.
pub const MAX_TEXT_LEN: usize = 4096;

/// How many bytes other than the space stand at the front.
fn word_at_front(bytes: &[u8]) -> usize
    ensures is { result ≡ word_run bytes.now }
    ensures within { result ≤ length bytes.now }
{
    bytes.iter().take_while(|b| **b != b' ').count()
}

/// The draft of a text of this length as a recipe, unless something is still held.
fn finish(draft: Draft, len: usize) -> Result<Recipe, Refusal>
    requires { draft.turn ≡ Free → Legal draft.words.items }
    ensures { read_answer result ≡ ended len draft.words.items draft.turn }
{
    let Draft { words, turn } = draft;
    match turn {
        Turn::Free => Ok(Recipe { words }),
        Turn::Held => Err(Refusal::StillHeld(len)),
    }
}

impl Recipe {
    /// The recipe of a text, or why it is refused: a text of more than 4,096 bytes (12); then word by word a wrong shape (13), a
    /// wrong size (11), a 97th word (14) or a word out of turn (15); then something still held at the end (16).
    pub fn read(text: &[u8]) -> Result<Recipe, Refusal>
        ensures is { read_answer result ≡ judge text.now }
        ensures grammar { (ws : List Word) → (read_answer result ≡ accepted ws) ↔ (Text text.now ws) }
        ensures refusals { (number place : ℕ) (p : Part) → (read_answer result ≡ refused number place p) ↔ (Refused text.now number place p) }
    {
        if text.len() > MAX_TEXT_LEN {
            return Err(Refusal::TextTooLong);
        }
        let mut draft = Draft::new();
        // By places, since each word says where it stands; a split would answer an empty part for each of many spaces, which takes
        // several times as long.
        let mut at = 0;
        while at < text.len() {
            if text[at] == b' ' {
                at += 1;
            } else {
                let end = at + word_at_front(&text[at..]);
                draft.admit(read_word(&text[at..end], at)?, at)?;
                at = end;
            }
        }
        finish(draft, text.len())
    }

    /// The recipe without words.
    pub fn empty() -> Recipe
        ensures { recipe_words result ≡ [] }
    {
        let words = ArrayVec::new();
        Recipe { words }
    }

    /// Reads a text, as `read` does, into this place. A refusal leaves the place as it was.
    pub fn read_into(&mut self, text: &[u8]) -> Result<(), Refusal>
        ensures is { answer result ≡ without_words (judge text.now) }
        ensures after { recipe_words self.new ≡ words_after (judge text.now) (recipe_words self.old) }
    {
        *self = Recipe::read(text)?;
        Ok(())
    }

    /// The words in their order: at most 96, each size 1 to 200, nothing held at the end.
    pub fn words(&self) -> &[Word]
        ensures is { result.now ≡ recipe_words self.now }
        ensures legal { Legal result.now }
    {
        self.words.as_slice()
    }
}
