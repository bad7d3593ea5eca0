//! The functions that C calls. No C caller is held to a `requires`, so that none has one.

ghost use Rattle.std.specs.Prelude.{◌≡◌, length};
ghost use Rattle.graph.specs.Files.{file_records};
ghost use Rattle.graph.specs.Verdicts.{file_verdict};
ghost use Rattle.records.specs.Calls.{bytes_of_both};
ghost use Rattle.recipe.specs.Judging.{judge};
ghost use Rattle.c_library.specs.Filtering.{Filters, filtered, input_of};
ghost use Rattle.c_library.specs.Recipes.{count_after};
ghost use Rattle.c_library.specs.Responses.{Responds, answered, response};

use crate::problems::respond;
use crate::refusal_records::RefusalRecord;
use crate::requests::{check, count_words, filter};
use evaluation::Job;
use std::alloc::Global;

/// Judges a graph file with `n` vertices (1, 2, 4, 5, 6).
#[unsafe(no_mangle)]
pub extern "C" fn evaluator_check_graph(
    heap: Global,
    n: usize,
    graph: &[u8],
    refusal: &mut RefusalRecord,
) -> u32
    ensures { Responds (file_verdict n graph.now (length (file_records graph.now))) (response result refusal.new) }
{
    respond(check(heap, n, graph), refusal)
}

/// Reads a recipe text (12; for each word 13, 11, 14, 15; 16). Accepted, `words` is the number of its words; refused, it is as it was.
#[unsafe(no_mangle)]
pub extern "C" fn evaluator_read_recipe(
    text: &[u8],
    words: &mut usize,
    refusal: &mut RefusalRecord,
) -> u32
    ensures response { response result refusal.new ≡ answered (judge text.now) }
    ensures count { words.new ≡ count_after (judge text.now) words.old }
{
    respond(count_words(text, words), refusal)
}

/// Opens a sheet from records, runs a recipe on it and closes it to records.
///
/// What is judged, in this order: the number of the kind (0 presence, 1 level, 2 classes, 3 to 5 their reversals), the graph file
/// (1, 2, 4, 5, 6), the records (8, 9, 10; `edges` is not looked at where `edges_absent`), the recipe (12, 13, 11, 14, 15, 16), and the
/// lengths of the buffers for the records that come out (8). Where anything is refused no byte of these buffers changes.
#[unsafe(no_mangle)]
pub extern "C" fn evaluator_filter<'a>(
    heap: Global,
    kind: u32,
    n: usize,
    graph: &'a [u8],
    vertices: &'a [u8],
    edges: &'a [u8],
    edges_absent: bool,
    recipe: &'a [u8],
    vertices_out: &mut [u8],
    edges_out: &mut [u8],
    refusal: &mut RefusalRecord,
) -> u32
    ensures { Filters kind (input_of n graph.now vertices.now edges.now edges_absent recipe.now) (bytes_of_both vertices_out.old edges_out.old) (filtered (response result refusal.new) (bytes_of_both vertices_out.new edges_out.new)) }
{
    // C has no `Option`, so that a flag beside the records says whether there are any.
    let job = Job {
        n,
        graph,
        vertices,
        edges: if edges_absent { None } else { Some(edges) },
        recipe,
    };
    respond(filter(heap, kind, job, vertices_out, edges_out), refusal)
}
