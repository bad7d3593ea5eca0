//! Why the program ends with status 1.

use crate::requests::{Misuse, usage};
use evaluation::Failure;
use refusal::Refusal;
use std::alloc::AllocError;
use std::{fmt, io};

/// Why the program ends with status 1.
#[derive(Drop)]
pub enum Trouble<'a> {
    /// The arguments ask for nothing.
    Misused(Misuse<'a>),
    /// A file was not read.
    Unread {
        name: &'a str,
        error: io::Error,
    },
    /// The file for the vertex records was not written, and the one for the edge records is as it was.
    NoneWritten {
        vertices: &'a str,
        edges: &'a str,
        error: io::Error,
    },
    /// The file for the edge records was not written, but the one for the vertex records was.
    VerticesWritten {
        vertices: &'a str,
        edges: &'a str,
        error: io::Error,
    },
    /// The evaluation is refused.
    Refused(Refusal),
    /// There was no memory.
    NoMemory,
    /// Reading the arguments or the clock, or writing to standard output, failed.
    Io(io::Error),
}

impl<'a> From<Misuse<'a>> for Trouble<'a> {
    fn from(misuse: Misuse<'a>) -> Trouble<'a> {
        Trouble::Misused(misuse)
    }
}

impl<'a> From<Failure> for Trouble<'a> {
    fn from(failure: Failure) -> Trouble<'a> {
        match failure {
            Failure::Refused(refusal) => Trouble::Refused(refusal),
            Failure::NoMemory => Trouble::NoMemory,
        }
    }
}

impl<'a> From<io::Error> for Trouble<'a> {
    fn from(error: io::Error) -> Trouble<'a> {
        Trouble::Io(error)
    }
}

impl<'a> From<AllocError> for Trouble<'a> {
    fn from(_error: AllocError) -> Trouble<'a> {
        Trouble::NoMemory
    }
}

impl<'a> fmt::Display for Trouble<'a> {
    fn fmt<W: fmt::Write>(&self, f: &mut fmt::Formatter<W>) -> fmt::Result {
        match self {
            Trouble::Misused(misuse) => write!(f, "{misuse}"),
            Trouble::Unread { name, error } => write!(f, "cannot read {name}: {error}"),
            Trouble::NoneWritten {
                vertices,
                edges,
                error,
            } => write!(f, "cannot write {vertices}: {error}; {edges} is as it was"),
            Trouble::VerticesWritten {
                vertices,
                edges,
                error,
            } => write!(f, "cannot write {edges}: {error}; {vertices} was written"),
            Trouble::Refused(refusal) => write!(f, "refused: {refusal}"),
            Trouble::NoMemory => write!(f, "there is not enough memory"),
            Trouble::Io(error) => write!(f, "{error}"),
        }
    }
}

impl<'a> Trouble<'a> {
    /// Says in words on standard error what was wrong. A refusal also goes to standard output, by its number and place, and the
    /// usage follows where the arguments ask for nothing.
    pub(crate) fn say(&self, rt: &HostRuntime) -> io::Result<()> {
        if let Trouble::Refused(refusal) = self {
            let number = refusal.number();
            let place = refusal.place();
            println!(rt; "refused {number} {place}")?;
        }
        eprintln!(rt; "evaluate: {self}")?;
        if let Trouble::Misused(_) = self {
            rt.eprintln(usage())?;
        }
        Ok(())
    }
}
