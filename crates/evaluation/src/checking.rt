//! A graph file alone.

ghost use Rattle.std.specs.Prelude.{length};
ghost use Rattle.graph.specs.Files.{file_records};
ghost use Rattle.graph.specs.Verdicts.{file_verdict};
ghost use Rattle.evaluation.specs.Checks.{Checks};

use crate::jobs::Failure;
use crate::tables::edge_table;
use std::alloc::Global;

/// Judges a graph file with `n` vertices as [`graph::check_file`] does with an edge table of the right length (1, 2, 4, 5, 6).
///
/// Without enough memory the answer is [`Failure::NoMemory`], whatever is right or wrong with the file.
pub fn check_graph(heap: Global, n: usize, bytes: &[u8]) -> Result<(), Failure>
    ensures { Checks (file_verdict n bytes.now (length (file_records bytes.now))) result }
{
    let _table = edge_table(heap, n, bytes)?;
    Ok(())
}
