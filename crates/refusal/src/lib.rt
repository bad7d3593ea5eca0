//! Why a call of the evaluator is refused.
//!
//! Every call of every crate answers one of these cases. A refusal says three things: a number (which rule was broken), a place
//! (which record, word or byte breaks it, counted from 0; 0 where the rule names none) and a part (what kind of input is at
//! fault). `docs/refusals.md` has the whole table.

#![tactic(auto)]

ghost use Rattle.std.specs.Prelude.{◌≡◌};
ghost use Rattle.refusal.specs.Reports.{report};

use std::fmt;

/// The part of the input that a refusal is about.
#[derive(Clone, Copy, PartialEq, Eq, Debug)]
pub enum Part {
    /// A graph file, an edge table or the number of vertices.
    Graph,
    /// The weights of a sheet, or the size of a single step.
    Sheet,
    /// One word of a recipe text.
    Word,
    /// A recipe text as a whole.
    Recipe,
    /// A cut or a class pick.
    Reading,
}

impl fmt::Display for Part {
    fn fmt<W: fmt::Write>(&self, f: &mut fmt::Formatter<W>) -> fmt::Result {
        f.write_str(match self {
            Part::Graph => "graph",
            Part::Sheet => "sheet",
            Part::Word => "word",
            Part::Recipe => "recipe",
            Part::Reading => "reading",
        })
    }
}

/// Why a call is refused. A case that is about a record, a word or a byte holds its place.
#[derive(Clone, Copy, PartialEq, Eq, Debug)]
pub enum Refusal {
    /// 1: the length of a graph file is no multiple of 8.
    PartialEdgeRecord,
    /// 2: there are more than 1,000,000 vertices or 4,000,000 edges.
    GraphTooLarge,
    /// 3: the edge table has not one row for each record.
    EdgeTableLength,
    /// 4: the first number of the record is not under the second.
    EndsNotRising(usize),
    /// 5: the second number of the record is not under the number of vertices.
    EndOutOfRange(usize),
    /// 6: the record is not above the one before it.
    RecordsNotRising(usize),
    /// 7: a weight buffer is not as long as the graph asks.
    WeightBufferLength,
    /// 8: a byte buffer is not as long as its records.
    ByteBufferLength,
    /// 9: the record stands for no value; edges are counted on from the number of vertices.
    NotAValue(usize),
    /// 10: the weight of the edge is not below the weights of both its ends.
    EdgeNotBelowEnds(usize),
    /// 11: the size of a single step is not 1 to 200.
    StepSize,
    /// 11: the size of the word that begins at this byte is not 1 to 200.
    WordSize(usize),
    /// 12: the recipe text is longer than 4,096 bytes.
    TextTooLong,
    /// 13: the word departs from every right shape at this byte.
    WordShape(usize),
    /// 14: the word that begins at this byte is the 97th.
    TooManyWords(usize),
    /// 15: the word that begins at this byte holds while something is held, or releases while nothing is.
    WordOutOfTurn(usize),
    /// 16: the text ends, at this length, while something is held.
    StillHeld(usize),
    /// 17: a cut at the lowest value, or a pick of a class above 31.
    NotAReading,
    /// 18: the byte buffer is shorter than the text to write.
    TextBufferTooShort,
}

impl Refusal {
    /// The number of the rule that was broken.
    pub fn number(self) -> u8
        ensures { result ≡ (report self).number }
    {
        match self {
            Refusal::PartialEdgeRecord => 1,
            Refusal::GraphTooLarge => 2,
            Refusal::EdgeTableLength => 3,
            Refusal::EndsNotRising(_) => 4,
            Refusal::EndOutOfRange(_) => 5,
            Refusal::RecordsNotRising(_) => 6,
            Refusal::WeightBufferLength => 7,
            Refusal::ByteBufferLength => 8,
            Refusal::NotAValue(_) => 9,
            Refusal::EdgeNotBelowEnds(_) => 10,
            Refusal::StepSize | Refusal::WordSize(_) => 11,
            Refusal::TextTooLong => 12,
            Refusal::WordShape(_) => 13,
            Refusal::TooManyWords(_) => 14,
            Refusal::WordOutOfTurn(_) => 15,
            Refusal::StillHeld(_) => 16,
            Refusal::NotAReading => 17,
            Refusal::TextBufferTooShort => 18,
        }
    }

    /// The place of what is at fault, or 0 where the rule names none.
    pub fn place(self) -> usize
        ensures { result ≡ (report self).place }
    {
        match self {
            Refusal::EndsNotRising(place)
            | Refusal::EndOutOfRange(place)
            | Refusal::RecordsNotRising(place)
            | Refusal::NotAValue(place)
            | Refusal::EdgeNotBelowEnds(place)
            | Refusal::WordSize(place)
            | Refusal::WordShape(place)
            | Refusal::TooManyWords(place)
            | Refusal::WordOutOfTurn(place)
            | Refusal::StillHeld(place) => place,
            Refusal::PartialEdgeRecord
            | Refusal::GraphTooLarge
            | Refusal::EdgeTableLength
            | Refusal::WeightBufferLength
            | Refusal::ByteBufferLength
            | Refusal::StepSize
            | Refusal::TextTooLong
            | Refusal::NotAReading
            | Refusal::TextBufferTooShort => 0,
        }
    }

    /// The part of the input that is at fault.
    pub fn part(self) -> Part
        ensures { result ≡ (report self).part }
    {
        match self {
            Refusal::PartialEdgeRecord
            | Refusal::GraphTooLarge
            | Refusal::EdgeTableLength
            | Refusal::EndsNotRising(_)
            | Refusal::EndOutOfRange(_)
            | Refusal::RecordsNotRising(_) => Part::Graph,
            Refusal::WeightBufferLength
            | Refusal::ByteBufferLength
            | Refusal::NotAValue(_)
            | Refusal::EdgeNotBelowEnds(_)
            | Refusal::StepSize => Part::Sheet,
            Refusal::WordSize(_) | Refusal::WordShape(_) => Part::Word,
            Refusal::TextTooLong
            | Refusal::TooManyWords(_)
            | Refusal::WordOutOfTurn(_)
            | Refusal::StillHeld(_)
            | Refusal::TextBufferTooShort => Part::Recipe,
            Refusal::NotAReading => Part::Reading,
        }
    }

    /// What is wrong, in words.
    fn explanation(self) -> &'static str {
        match self {
            Refusal::PartialEdgeRecord =>
                "the graph file does not end with a whole record of 8 bytes",
            Refusal::GraphTooLarge => "there are more than 1,000,000 vertices or 4,000,000 edges",
            Refusal::EdgeTableLength => "the edge table has not one row for each record",
            Refusal::EndsNotRising(_) => "the first end of the edge is not under the second",
            Refusal::EndOutOfRange(_) => "the second end of the edge is not a vertex",
            Refusal::RecordsNotRising(_) => "the edge does not come after the one before it",
            Refusal::WeightBufferLength => {
                "a weight buffer has not one place for each vertex or edge"
            }
            Refusal::ByteBufferLength => "a byte buffer has not one record for each vertex or edge",
            Refusal::NotAValue(_) => "the record is no weight of this kind",
            Refusal::EdgeNotBelowEnds(_) =>
                "the edge's weight is not below the weights of both its ends",
            Refusal::StepSize | Refusal::WordSize(_) => "the size of a filter is not 1 to 200",
            Refusal::TextTooLong => "the recipe is longer than 4,096 bytes",
            Refusal::WordShape(_) => "the word is no filter with its size and none of H, J, M, F",
            Refusal::TooManyWords(_) => "the recipe has more than 96 words",
            Refusal::WordOutOfTurn(_) => "H while something is held, or J, M or F while nothing is",
            Refusal::StillHeld(_) => "the recipe ends while something is held",
            Refusal::NotAReading => "a cut at the lowest value, or a class above 31",
            Refusal::TextBufferTooShort => "the buffer is shorter than the recipe's text",
        }
    }
}

impl fmt::Display for Refusal {
    fn fmt<W: fmt::Write>(&self, f: &mut fmt::Formatter<W>) -> fmt::Result {
        write!(
            f,
            "{}, rule {}, place {}: {}",
            self.part(),
            self.number(),
            self.place(),
            self.explanation()
        )
    }
}
