//! The C library: what C calls.
//!
//! C passes numbers, a `bool`, byte slices (a pointer and then a length) and places for a refusal and a count; no function has a
//! precondition on what is in them. `c/evaluator.h` declares the functions, and `docs/c-library.md` says how to link and call them.

#![tactic(auto)]

mod exports;
mod problems;
mod refusal_records;
mod requests;

pub use exports::{evaluator_check_graph, evaluator_filter, evaluator_read_recipe};
pub use refusal_records::RefusalRecord;
