//! Memory for the weights of a graph.

#![tactic(auto)]

mod lines;
mod memory;

pub use lines::Line;
pub use memory::Buffers;
