//! Readings: maps from one kind of weight to another that keep the ends, joins and meets.
//!
//! The cuts of the chains ([`PresenceCut`], [`LevelCut`] and [`ReversedLevelCut`], and [`ChainCut`] for any chain) and the class pick
//! ([`ClassPick`]) are readings ([`Reading`]) to presences.

#![tactic(auto)]

mod cuts;
mod level_cuts;
mod picks;
mod presence_cuts;
mod readings;
mod reversed_level_cuts;

pub use cuts::{ChainCut, cut, cut_keeps_all, lowest_thresholds, presence_cut_is_same};
pub use level_cuts::LevelCut;
pub use picks::ClassPick;
pub use presence_cuts::PresenceCut;
pub use readings::{Reading, read_highest, read_join, read_lowest, read_meet};
pub use reversed_level_cuts::ReversedLevelCut;
