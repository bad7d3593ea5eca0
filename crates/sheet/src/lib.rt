//! Sheets: the weights of a graph, worked on by calls in two states.

#![tactic(auto)]

mod holding;
mod opening;
mod reading;
mod refused;
mod running;
mod states;
mod stepping;

pub use refused::Refused;
pub use states::{Clear, Holding, Sheet};
