//! The kinds of weight: bounded lattices.
//!
//! [`Presence`], [`Level`], [`Classes`] and [`Reversed`] of any of them are kinds ([`Kind`]). Some kinds are chains
//! ([`Chain`]), and some have records of bytes ([`Stored`]).

#![tactic(auto)]

mod chains;
mod class_records;
mod class_sets;
mod inclusion;
mod kinds;
mod level_order;
mod level_records;
mod levels;
mod presence_records;
mod presences;
mod records;
mod reversal;
mod reversed_records;

pub use chains::Chain;
pub use class_sets::Classes;
pub use kinds::Kind;
pub use levels::Level;
pub use presences::Presence;
pub use records::Stored;
pub use reversal::Reversed;
