//! The sheet of a graph: opened, run and closed.

ghost use Rattle.std.specs.Prelude.{◌≡◌, ◌*◌, length, IfOk};
ghost use Rattle.graph.specs.Shapes.{shape_of};
ghost use Rattle.filters.specs.Weightings.{Fits, weights_before};
ghost use Rattle.records.specs.Calls.{bytes_of_both};
ghost use Rattle.evaluation.specs.Evaluations.{Gives, evaluated_on, input, stored_kind};
ghost use Rattle.evaluation.specs.Sizes.{Sized};
ghost use Rattle.evaluation.specs.Steps.{Counts, CountsInMemory};

use crate::jobs::{Evaluated, Failure, Job};
use buffers::Buffers;
use calls::Progress;
use filters::{Weights, WeightsMut};
use graph::Graph;
use lattice::Stored;
use recipe::Recipe;
use refusal::Refusal;
use sheet::Sheet;
use std::alloc::Global;

/// Opens the sheet of a graph, runs the recipe on it and closes it to the byte buffers. Answers how many words were done.
fn work<K: Stored, P: Progress>(
    graph: &Graph,
    job: Job<'_>,
    weights: WeightsMut<'_, '_, K>,
    scratch: WeightsMut<'_, '_, K>,
    held: WeightsMut<'_, '_, K>,
    vertex_records: &mut [u8],
    edge_records: &mut [u8],
    progress: &mut P,
) -> Result<usize, Refusal>
    requires weights { Fits (shape_of graph.now) (weights_before weights) }
    requires scratch { Fits (shape_of graph.now) (weights_before scratch) }
    requires held { Fits (shape_of graph.now) (weights_before held) }
    requires vertex_records { length vertex_records.old ≡ graph.now.n * K.Stored.WIDTH }
    requires edge_records { length edge_records.old ≡ length graph.now.edges.now * K.Stored.WIDTH }
    ensures { Counts (evaluated_on (stored_kind K.Kind.operations K.Kind.leq K.Stored.WIDTH K.Stored.parsed K.Stored.written) (shape_of graph.now) (input job.entry)) (shape_of graph.now) (bytes_of_both vertex_records.new edge_records.new) result }
{
    // Taken apart and made again, since a parameter that holds a `&mut` slice cannot be passed on as it came.
    let WeightsMut { vertices, edges } = scratch;
    let scratch = WeightsMut { vertices, edges };
    let WeightsMut { vertices, edges } = held;
    let held = WeightsMut { vertices, edges };
    let WeightsMut { vertices, edges } = weights;
    let sheet = Sheet::open(
        graph,
        job.vertices,
        job.edges,
        WeightsMut { vertices, edges },
    )?;
    let mut recipe = Recipe::empty();
    let weights = WeightsMut { vertices, edges };
    sheet.run_with(job.recipe, &mut recipe, weights, scratch, held, progress)?;
    let weights = Weights { vertices, edges };
    sheet.close(weights, vertex_records, edge_records)?;
    Ok(recipe.words().len())
}

/// Takes the memory for the weights, and does the work on the sheet.
fn work_in_memory<K: Stored, P: Progress>(
    heap: Global,
    graph: &Graph,
    job: Job<'_>,
    vertex_records: &mut [u8],
    edge_records: &mut [u8],
    progress: &mut P,
) -> Result<usize, Failure>
    requires vertex_records { length vertex_records.old ≡ graph.now.n * K.Stored.WIDTH }
    requires edge_records { length edge_records.old ≡ length graph.now.edges.now * K.Stored.WIDTH }
    ensures { CountsInMemory (evaluated_on (stored_kind K.Kind.operations K.Kind.leq K.Stored.WIDTH K.Stored.parsed K.Stored.written) (shape_of graph.now) (input job.entry)) (shape_of graph.now) (bytes_of_both vertex_records.new edge_records.new) result }
{
    let n = graph.order();
    let m = graph.edges().len();
    let mut weights = Buffers::<K>::lowest(heap, n, m)?;
    let mut scratch = Buffers::<K>::lowest(heap, n, m)?;
    let mut held = Buffers::<K>::lowest(heap, n, m)?;
    let words = work(
        graph,
        job,
        weights.lend(),
        scratch.lend(),
        held.lend(),
        vertex_records,
        edge_records,
        progress,
    )?;
    Ok(words)
}

/// Evaluates a job on its graph.
pub(crate) fn evaluate_on<K: Stored, P: Progress>(
    heap: Global,
    graph: &Graph,
    job: Job<'_>,
    progress: &mut P,
) -> Result<Evaluated, Failure>
    ensures records { Gives (evaluated_on (stored_kind K.Kind.operations K.Kind.leq K.Stored.WIDTH K.Stored.parsed K.Stored.written) (shape_of graph.now) (input job.entry)) result }
    ensures sizes { IfOk result (λ e. Sized K.Stored.WIDTH e) }
{
    let vertices = graph.order();
    let edges = graph.edges().len();
    let mut vertex_records = vec![in heap; 0; vertices * K::record_size()]?;
    let mut edge_records = vec![in heap; 0; edges * K::record_size()]?;
    let words = work_in_memory::<K, P>(
        heap,
        graph,
        job,
        &mut vertex_records,
        &mut edge_records,
        progress,
    )?;
    Ok(Evaluated {
        vertex_records,
        edge_records,
        vertices,
        edges,
        words,
    })
}
