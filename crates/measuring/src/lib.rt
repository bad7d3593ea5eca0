//! What both benchmarks measure on.

#![tactic(auto)]

mod checksums;
mod generator;
mod levels;
mod meshes;
mod tables;
mod words;

pub use checksums::{checksum_levels, checksum_records};
pub use levels::starting_weights;
pub use meshes::{Grid, Mesh, Random};
pub use words::{parse_filter, parse_mesh, parse_repeat};
