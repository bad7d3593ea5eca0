//! The weights of a graph as buffers of byte records, and back.

#![tactic(auto)]

mod decoding;
mod encoding;
mod judging;
mod loading;
mod storing;

pub use loading::load;
pub use storing::store;
