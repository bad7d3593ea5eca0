//! A recipe as text.

ghost use Rattle.std.specs.Prelude.{◌≡◌, ◌+◌, ◌%◌, ◌<◌, ◌≤◌, ◌++◌, length, take, IfOk, decimal};
ghost use Rattle.arrayvec.specs.ArrayString.{array_string_len};
ghost use Rattle.refusal.specs.Reports.{answer, accepted};
ghost use Rattle.recipe.specs.Contents.{recipe_words};
ghost use Rattle.recipe.specs.Grammar.{letter, Text};
ghost use Rattle.recipe.specs.Judging.{judge};
ghost use Rattle.recipe.specs.Written.{spelling, written, write_answer, overwritten};

use crate::recipes::Recipe;
use crate::words::{MAX_WORDS, Word};
use arrayvec::ArrayString;
use filters::Family;
use refusal::Refusal;

/// The most bytes that a word of whatever size takes as text: a letter and the digits of a `u32`.
const MAX_SPELLING: usize = 11;

/// The most bytes that a recipe takes as text: a word is a letter and at most three digits, and has at most one space before it.
const MAX_WRITTEN: usize = 5 * MAX_WORDS;

/// The letter of a family.
// Kept as a function: `Family` is of another crate, and so are the traits of conversion.
pub(crate) fn letter_of(family: Family) -> char
    ensures is { result ≡ letter family }
    ensures ascii { result < 128 }
{
    match family {
        Family::Dilation => 'D',
        Family::Erosion => 'E',
        Family::Opening => 'O',
        Family::Closing => 'C',
        Family::Alternate => 'A',
    }
}

/// The last decimal digit of a number.
fn last_digit(number: u32) -> char
    ensures { result ≡ 48 + number % 10 }
{
    (b'0' + (number % 10) as u8) as char
}

/// Puts the digits of a number at the end of a text.
// By hand, since no contract of a format says when it succeeds, and each word has a text.
fn push_number(text: &mut ArrayString<MAX_SPELLING>, number: u32)
    requires { array_string_len text.old + length (decimal number) ≤ 11 }
    ensures { text.new.bytes ≡ text.old.bytes ++ decimal number }
{
    if number >= 10 {
        push_number(text, number / 10);
    }
    text.push(last_digit(number));
}

impl Word {
    /// The word as text.
    #[tactic(auto, using(std::proofs::lemmas::Str::encode_ascii))]
    pub(crate) fn spelling(self) -> ArrayString<MAX_SPELLING>
        ensures { result.bytes ≡ spelling self }
    {
        let mut text = ArrayString::new();
        match self {
            Word::Step(filter) => {
                text.push(letter_of(filter.family));
                push_number(&mut text, filter.size);
            }
            Word::Hold => text.push('H'),
            Word::Join => text.push('J'),
            Word::Meet => text.push('M'),
            Word::Forget => text.push('F'),
        }
        text
    }
}

impl Recipe {
    /// The words with one space between.
    pub(crate) fn text(&self) -> ArrayString<MAX_WRITTEN>
        ensures { result.bytes ≡ written (recipe_words self.now) }
    {
        let mut text = ArrayString::new();
        if let [first, rest @ ..] = self.words() {
            text.push_str(first.spelling().as_str());
            for word in rest {
                text.push(' ');
                text.push_str(word.spelling().as_str());
            }
        }
        text
    }

    /// How many bytes the text has that `write` writes.
    pub fn text_len(&self) -> usize
        ensures { result ≡ length (written (recipe_words self.now)) }
    {
        self.text().len()
    }

    /// Writes the words with one space between to the front of the buffer, and answers how many bytes they take. The later bytes
    /// stay as they were. A buffer that is shorter than the text is refused (18), and no byte of it changes. What is written
    /// reads back as the same words.
    pub fn write(&self, buffer: &mut [u8]) -> Result<usize, Refusal>
        ensures is { answer result ≡ write_answer (written (recipe_words self.now)) buffer.old }
        ensures after { buffer.new ≡ overwritten (written (recipe_words self.now)) buffer.old }
        ensures back { IfOk result (λ n. judge (take n buffer.new) ≡ accepted (recipe_words self.now)) }
        ensures belongs { IfOk result (λ n. Text (take n buffer.new) (recipe_words self.now)) }
    {
        let text = self.text();
        let len = text.len();
        if buffer.len() < len {
            return Err(Refusal::TextBufferTooShort);
        }
        buffer[..len].copy_from_slice(text.as_str().as_bytes());
        Ok(len)
    }
}
