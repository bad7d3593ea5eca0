//! What to measure, as the arguments say it.

use anyhow::anyhow;
use filters::Filter;
use measuring::{Mesh, parse_filter, parse_mesh, parse_repeat};

/// The call of a sheet that is measured.
#[derive(Clone, Copy)]
pub enum Task {
    /// The weights from records, those of the edges being absent.
    Open,
    /// One filter of the weights.
    Step(Filter),
    /// The records of the weights.
    Close,
}

/// A task to be done on a mesh so many times.
#[derive(Clone, Copy)]
pub struct Job {
    pub mesh: Mesh,
    pub task: Task,
    pub repeat: u64,
}

impl Job {
    /// Reads the arguments after the program's name.
    pub(crate) fn parse(words: &[String]) -> anyhow::Result<Job> {
        let (mesh, words) = parse_mesh(words)?;
        let (task, repeat) = match words {
            [task, repeat] => (parse_end(task.as_str())?, repeat),
            [letter, size, repeat] => {
                let filter = parse_filter(letter.as_str(), size.as_str())?;
                (Task::Step(filter), repeat)
            }
            _ => return Err(anyhow!(
                "the arguments end with: open, close or LETTER SIZE, and REPEAT"
            )),
        };
        let repeat = parse_repeat(repeat.as_str())?;
        Ok(Job { mesh, task, repeat })
    }
}

/// The task at one of the ends of a sheet's life.
fn parse_end(word: &str) -> anyhow::Result<Task> {
    match word {
        "open" => Ok(Task::Open),
        "close" => Ok(Task::Close),
        _ => Err(anyhow!("a task of one word is open or close")),
    }
}
