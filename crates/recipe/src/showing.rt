//! Words and recipes as a user writes them.

ghost use Rattle.std.specs.Prelude.{Some};
ghost use Rattle.recipe.specs.Contents.{recipe_words};
ghost use Rattle.recipe.specs.Written.{spelling, written};

use crate::recipes::Recipe;
use crate::words::Word;
use crate::writing::letter_of;
use std::fmt;

/// A word as in a recipe text: `O3`, `H`.
// Piece by piece, and not by the text that `write` copies: a writer with too little room keeps the pieces that it has room for.
impl fmt::Display for Word {
    ghost output = { λ w. Some (spelling w) };

    fn fmt<W: fmt::Write>(&self, f: &mut fmt::Formatter<W>) -> fmt::Result {
        match self {
            Word::Step(filter) => {
                let letter = letter_of(filter.family);
                let size = filter.size;
                write!(f, "{letter}{size}")
            }
            Word::Hold => write!(f, "H"),
            Word::Join => write!(f, "J"),
            Word::Meet => write!(f, "M"),
            Word::Forget => write!(f, "F"),
        }
    }
}

/// As `Display`.
// Kept by hand, since a derive would print the case with its fields, and not the text.
impl fmt::Debug for Word {
    fn fmt<W: fmt::Write>(&self, f: &mut fmt::Formatter<W>) -> fmt::Result {
        write!(f, "{self}")
    }
}

/// The words with one space between: `D1 H E1 M`.
impl fmt::Display for Recipe {
    ghost output = { λ r. Some (written (recipe_words r)) };

    fn fmt<W: fmt::Write>(&self, f: &mut fmt::Formatter<W>) -> fmt::Result {
        // Word by word, so that a writer with too little room keeps the words that it has room for.
        let [first, rest @ ..] = self.words() else {
            return Ok(());
        };
        write!(f, "{first}")?;
        for word in rest {
            write!(f, " {word}")?;
        }
        Ok(())
    }
}

/// As `Display`.
// Kept by hand, since a derive would print the field with the words, and not the text.
impl fmt::Debug for Recipe {
    fn fmt<W: fmt::Write>(&self, f: &mut fmt::Formatter<W>) -> fmt::Result {
        write!(f, "{self}")
    }
}
