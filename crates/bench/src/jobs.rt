//! What to measure, as the arguments say it.

use anyhow::anyhow;
use filters::Filter;
use measuring::{Mesh, parse_filter, parse_mesh, parse_repeat};

/// A filter to be run on a mesh so many times.
#[derive(Clone, Copy)]
pub struct Job {
    pub mesh: Mesh,
    pub filter: Filter,
    pub repeat: u64,
}

impl Job {
    /// Reads the arguments after the program's name.
    pub(crate) fn parse(words: &[String]) -> anyhow::Result<Job> {
        let (mesh, words) = parse_mesh(words)?;
        let [letter, size, repeat] = words else {
            return Err(anyhow!("the arguments end with: LETTER SIZE REPEAT"));
        };
        let filter = parse_filter(letter.as_str(), size.as_str())?;
        let repeat = parse_repeat(repeat.as_str())?;
        Ok(Job {
            mesh,
            filter,
            repeat,
        })
    }
}
