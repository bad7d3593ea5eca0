//! What the calls of a sheet do to the weights that they are lent. A sheet adds the states.
//!
//! Each call judges the lengths of its buffers first, and a refused one changes nothing.

#![tactic(auto)]

mod holding;
mod places;
mod progress;
mod reading;
mod releases;
mod running;

pub use holding::{combine_held, forget_held, hold_weights};
pub use progress::{Progress, Silent};
pub use reading::read_weights;
pub use running::run_recipe;
