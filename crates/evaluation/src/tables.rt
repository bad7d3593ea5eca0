//! The edge table of a graph file.

ghost use Rattle.std.specs.Prelude.{◌≡◌, ℕ, ◌≤◌, length};
ghost use Rattle.graph.specs.Files.{file_records};
ghost use Rattle.graph.specs.Verdicts.{file_verdict};
ghost use Rattle.evaluation.specs.Steps.{TableOf};

use crate::jobs::Failure;
use graph::{Edge, check_file};
use std::alloc::Global;

/// How many bytes a record of a graph file has.
const RECORD: usize = 8;

/// The most records that a graph file has.
const MOST_RECORDS: usize = 4_000_000;

/// How many rows an edge table for the file has: one for each record. A file that is refused for its length gets none, so that no
/// memory is taken for it.
fn rows(bytes: &[u8]) -> usize
    ensures few { result ≤ 4000000 }
    ensures judged { (n : ℕ) → file_verdict n bytes.now result ≡ file_verdict n bytes.now (length (file_records bytes.now)) }
{
    let count = bytes.len() / RECORD;
    if bytes.len() % RECORD == 0 && count <= MOST_RECORDS {
        count
    } else {
        0
    }
}

/// The edges of a graph file with `n` vertices, or why it is refused.
pub(crate) fn edge_table(heap: Global, n: usize, bytes: &[u8]) -> Result<Vec<Edge>, Failure>
    ensures { TableOf n bytes.now result }
{
    let unset = Edge {
        first: 0,
        second: 0,
    };
    let mut table = vec![in heap; unset; rows(bytes)]?;
    check_file(n, bytes, &mut table)?;
    Ok(table)
}
