//! Weights as a program prints them.

ghost use Rattle.buffers.specs.Lines.{line};

use std::fmt;

/// Weights on one line: one after another, with one space between.
#[derive(Drop)]
pub struct Line<'a, K>(pub &'a [K]);

impl<'a, K: fmt::Display> fmt::Display for Line<'a, K> {
    ghost output = { λ l. line K.Display.output l.0.now };

    fn fmt<W: fmt::Write>(&self, f: &mut fmt::Formatter<W>) -> fmt::Result {
        let [first, rest @ ..] = self.0 else {
            return Ok(());
        };
        write!(f, "{first}")?;
        for weight in rest {
            write!(f, " {weight}")?;
        }
        Ok(())
    }
}
