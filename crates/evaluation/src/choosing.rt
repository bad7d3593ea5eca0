//! The whole job for a kind by its name.

ghost use Rattle.std.specs.Prelude.{IfOk};
ghost use Rattle.evaluation.specs.Evaluations.{Gives, input};
ghost use Rattle.evaluation.specs.Kinds.{base_width, evaluated_as};
ghost use Rattle.evaluation.specs.Sizes.{Sized};

use crate::evaluating::evaluate_with;
use crate::jobs::{Evaluated, Failure, Job};
use crate::kinds::{BaseKind, KindName};
use calls::{Progress, Silent};
use lattice::{Classes, Level, Presence, Reversed};
use std::alloc::Global;

/// Evaluates a job as [`evaluate_as`] does, and tells after each word of the recipe how many are done.
pub fn evaluate_as_with<P: Progress>(
    heap: Global,
    kind: KindName,
    job: Job<'_>,
    progress: &mut P,
) -> Result<Evaluated, Failure>
    ensures records { Gives (evaluated_as kind.base kind.reversed (input job.entry)) result }
    ensures sizes { IfOk result (λ e. Sized (base_width kind.base) e) }
{
    // Kept as a match: each arm picks a type, which no value can stand for.
    match (kind.base, kind.reversed) {
        (BaseKind::Presence, false) => evaluate_with::<Presence, P>(heap, job, progress),
        (BaseKind::Level, false) => evaluate_with::<Level, P>(heap, job, progress),
        (BaseKind::Classes, false) => evaluate_with::<Classes, P>(heap, job, progress),
        (BaseKind::Presence, true) => evaluate_with::<Reversed<Presence>, P>(heap, job, progress),
        (BaseKind::Level, true) => evaluate_with::<Reversed<Level>, P>(heap, job, progress),
        (BaseKind::Classes, true) => evaluate_with::<Reversed<Classes>, P>(heap, job, progress),
    }
}

/// Evaluates a job as [`evaluate`](crate::evaluating::evaluate) does, for the kind of this name.
pub fn evaluate_as(heap: Global, kind: KindName, job: Job<'_>) -> Result<Evaluated, Failure>
    ensures records { Gives (evaluated_as kind.base kind.reversed (input job.entry)) result }
    ensures sizes { IfOk result (λ e. Sized (base_width kind.base) e) }
{
    evaluate_as_with(heap, kind, job, &mut Silent)
}
