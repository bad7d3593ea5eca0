//! A whole evaluation, from the bytes of files to the bytes of files.
//!
//! A [`Job`] borrows the bytes of a graph file, of vertex records, of edge records where there are any, and of a recipe text.
//! [`evaluate`] gives the records after the recipe, for any kind; [`evaluate_as`] takes the kind by its name ([`KindName`]).
//! [`evaluate_with`] and [`evaluate_as_with`] also tell how far the run is.
//! [`check_graph`] judges a graph file alone.

#![tactic(auto)]

mod checking;
mod choosing;
mod evaluating;
mod jobs;
mod kinds;
mod naming;
mod tables;
mod working;

pub use checking::check_graph;
pub use choosing::{evaluate_as, evaluate_as_with};
pub use evaluating::{evaluate, evaluate_with};
pub use jobs::{Evaluated, Failure, Job};
pub use kinds::{BaseKind, KindName, UnknownKind};
