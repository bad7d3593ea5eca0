//! The work of each call, in Rust's types.

ghost use Rattle.std.specs.Prelude.{◌≡◌, length};
ghost use Rattle.graph.specs.Files.{file_records};
ghost use Rattle.graph.specs.Verdicts.{file_verdict};
ghost use Rattle.records.specs.Calls.{bytes_of_both};
ghost use Rattle.recipe.specs.Judging.{judge};
ghost use Rattle.evaluation.specs.Evaluations.{input};
ghost use Rattle.c_library.specs.Filtering.{Filters, filtered};
ghost use Rattle.c_library.specs.Problems.{result_response};
ghost use Rattle.c_library.specs.Recipes.{count_after};
ghost use Rattle.c_library.specs.Responses.{Responds, answered};

use crate::problems::Problem;
use evaluation::{Job, KindName, check_graph, evaluate_as};
use recipe::Recipe;
use refusal::Refusal;
use std::alloc::Global;

/// Judges a graph file with `n` vertices.
pub(crate) fn check(heap: Global, n: usize, graph: &[u8]) -> Result<(), Problem>
    ensures { Responds (file_verdict n graph.now (length (file_records graph.now))) (result_response result) }
{
    check_graph(heap, n, graph)?;
    Ok(())
}

/// Reads a recipe text and counts its words.
pub(crate) fn count_words(text: &[u8], words: &mut usize) -> Result<(), Problem>
    ensures response { result_response result ≡ answered (judge text.now) }
    ensures count { words.new ≡ count_after (judge text.now) words.old }
{
    let recipe = Recipe::read(text)?;
    *words = recipe.words().len();
    Ok(())
}

/// Evaluates a job for the kind with this number, and copies the records to the buffers, unless a buffer is not as long as its
/// records.
pub(crate) fn filter(
    heap: Global,
    kind: u32,
    job: Job<'_>,
    vertices_out: &mut [u8],
    edges_out: &mut [u8],
) -> Result<(), Problem>
    ensures { Filters kind (input job.entry) (bytes_of_both vertices_out.old edges_out.old) (filtered (result_response result) (bytes_of_both vertices_out.new edges_out.new)) }
{
    let kind = KindName::try_from(kind)?;
    let evaluated = evaluate_as(heap, kind, job)?;
    if vertices_out.len() != evaluated.vertex_records.len()
        || edges_out.len() != evaluated.edge_records.len()
    {
        return Err(Problem::Refused(Refusal::ByteBufferLength));
    }
    vertices_out.copy_from_slice(&evaluated.vertex_records);
    edges_out.copy_from_slice(&evaluated.edge_records);
    Ok(())
}
