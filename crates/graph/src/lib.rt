//! Graphs over their edge tables.
//!
//! A caller makes [`Graph::empty`], and [`judge`] puts the graph of an edge table into that place. [`check_file`] reads an edge table
//! from the bytes of a graph file.

#![tactic(auto)]

mod edges;
mod facts;
mod graphs;
mod judging;
mod records;

pub use edges::Edge;
pub use graphs::Graph;
pub use judging::{check_file, judge};
