//! The whole job for any kind.

ghost use Rattle.std.specs.Prelude.{IfOk};
ghost use Rattle.evaluation.specs.Evaluations.{Gives, evaluated, input, stored_kind};
ghost use Rattle.evaluation.specs.Sizes.{Sized};

// The members of the kind are written out in each contract: a name for them would be one more trait that callers have to read.

use crate::jobs::{Evaluated, Failure, Job};
use crate::tables::edge_table;
use crate::working::evaluate_on;
use calls::{Progress, Silent};
use graph::{Graph, judge};
use lattice::{Kind, Stored};
use std::alloc::Global;

/// Judges the graph file, opens a sheet of the weights on it, runs the recipe and closes the sheet to records, as [`evaluate`] does,
/// and tells after each word how many are done.
pub fn evaluate_with<K: Stored, P: Progress>(
    heap: Global,
    job: Job<'_>,
    progress: &mut P,
) -> Result<Evaluated, Failure>
    ensures records { Gives (evaluated (stored_kind K.Kind.operations K.Kind.leq K.Stored.WIDTH K.Stored.parsed K.Stored.written) (input job.entry)) result }
    ensures sizes { IfOk result (λ e. Sized K.Stored.WIDTH e) }
{
    let table = edge_table(heap, job.n, job.graph)?;
    let mut graph = Graph::empty();
    judge(&mut graph, job.n, &table)?;
    evaluate_on::<K, P>(heap, &graph, job, progress)
}

/// Judges the graph file, opens a sheet of the weights on it, runs the recipe and closes the sheet to records.
///
/// What is judged, in this order: the graph file as [`graph::check_file`] does (1, 2, 4, 5, 6; the table is made here, so that 3
/// never comes), the records as [`sheet::Sheet::open`] does (8, 9, 10), the recipe as [`recipe::Recipe::read`] does (12, then word by
/// word 13, 11, 14, 15, then 16). The first that is refused is the answer, and there are no records then.
///
/// Without enough memory the answer is [`Failure::NoMemory`], whatever is right or wrong with the bytes.
pub fn evaluate<K: Stored>(heap: Global, job: Job<'_>) -> Result<Evaluated, Failure>
    ensures records { Gives (evaluated (stored_kind K.Kind.operations K.Kind.leq K.Stored.WIDTH K.Stored.parsed K.Stored.written) (input job.entry)) result }
    ensures sizes { IfOk result (λ e. Sized K.Stored.WIDTH e) }
{
    evaluate_with::<K, Silent>(heap, job, &mut Silent)
}
