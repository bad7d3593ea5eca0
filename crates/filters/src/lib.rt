//! Filters of the weights of a graph.

#![tactic(auto)]

mod families;
mod filtering;
mod fitting;
mod passes;
mod rounds;
mod sides;
mod weights;

pub use families::{Family, Filter};
pub use fitting::{both_fit, fits};
pub use passes::{fill, join_to_edges, join_to_vertices, meet_to_edges, meet_to_vertices};
pub use sides::{Joins, Meets, Semilattice};
pub use weights::{Weights, WeightsMut};
