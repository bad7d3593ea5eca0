//! One word of the text: its shape, then its size.

ghost use Rattle.std.specs.Prelude.{◌≡◌, ◌+◌, ◌≤◌, min, length};
ghost use Rattle.refusal.specs.Reports.{answer};
ghost use Rattle.recipe.specs.Shapes.{digit_run, number_run, numeral, parsed, token_answer, sized, shape_of, word_of};

use crate::words::{MAX_SIZE, Word};
use filters::{Family, Filter};
use refusal::Refusal;

/// A word of a right shape. Each case borrows its part of the text, a step its digits, and has the place of the word.
// Kept as cases that each borrow their part with its place, so that a word says by itself where in the text it stands.
#[derive(Clone, Copy)]
pub(crate) enum Token<'a> {
    Step(Family, &'a [u8], usize),
    Hold(&'a [u8], usize),
    Join(&'a [u8], usize),
    Meet(&'a [u8], usize),
    Forget(&'a [u8], usize),
}

/// How many digits stand at the front.
fn digits_at_front(bytes: &[u8]) -> usize
    ensures is { result ≡ digit_run bytes.now }
    ensures within { result ≤ length bytes.now }
{
    bytes.iter().take_while(|b| b.is_ascii_digit()).count()
}

/// How many bytes at the front belong to a number whose first digit is not 0.
fn number_at_front(bytes: &[u8]) -> usize
    ensures is { result ≡ number_run bytes.now }
    ensures within { result ≤ length bytes.now }
{
    match bytes {
        [b'0', ..] => 0,
        _ => digits_at_front(bytes),
    }
}

/// The number that the digits write, or `u32::MAX` where it is larger.
fn saturated_size(digits: &[u8]) -> u32
    ensures { result ≡ min (numeral 0 digits.now) 4294967295 }
{
    digits.iter().fold(0, |size: u32, digit| {
        size.saturating_mul(10)
            .saturating_add(u32::from(digit.saturating_sub(b'0')))
    })
}

impl<'a> Token<'a> {
    /// The word at a place by its shape: a letter that takes a size, or one that stands alone.
    fn read(word: &'a [u8], at: usize) -> Result<Token<'a>, Refusal>
        requires { at + length word.now ≤ 4096 }
        ensures { token_answer result ≡ shape_of at word.now }
    {
        let [first, rest @ ..] = word else {
            return Err(Refusal::WordShape(at));
        };
        let step = |family: Family| {
            let run = number_at_front(rest);
            if run == 0 || run < rest.len() {
                return Err(Refusal::WordShape(at + 1 + run));
            }
            Ok(Token::Step(family, rest, at))
        };
        let alone = |token| {
            if !rest.is_empty() {
                return Err(Refusal::WordShape(at + 1));
            }
            Ok(token)
        };
        // Kept as a match on letters, since the letters are the grammar.
        match *first as char {
            'D' => step(Family::Dilation),
            'E' => step(Family::Erosion),
            'O' => step(Family::Opening),
            'C' => step(Family::Closing),
            'A' => step(Family::Alternate),
            'H' => alone(Token::Hold(word, at)),
            'J' => alone(Token::Join(word, at)),
            'M' => alone(Token::Meet(word, at)),
            'F' => alone(Token::Forget(word, at)),
            _ => Err(Refusal::WordShape(at)),
        }
    }

    /// The word, where its size is 1 to 200.
    fn word(self) -> Result<Word, Refusal>
        ensures { answer result ≡ sized (parsed self.entry) }
    {
        match self {
            Token::Step(family, digits, at) => {
                let size = saturated_size(digits);
                if size == 0 || size > MAX_SIZE {
                    return Err(Refusal::WordSize(at));
                }
                Ok(Word::Step(Filter { family, size }))
            }
            Token::Hold(_, _) => Ok(Word::Hold),
            Token::Join(_, _) => Ok(Word::Join),
            Token::Meet(_, _) => Ok(Word::Meet),
            Token::Forget(_, _) => Ok(Word::Forget),
        }
    }
}

/// What a word at its place means.
pub(crate) fn read_word(word: &[u8], at: usize) -> Result<Word, Refusal>
    requires { at + length word.now ≤ 4096 }
    ensures { answer result ≡ word_of at word.now }
{
    Token::read(word, at)?.word()
}
