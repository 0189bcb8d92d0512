//! Over a store that a clean build left, a run of the program is a clean build, and so is the run after one that was stopped.
#![tactic(auto)]

mod builds;
mod chains;
mod mending;

pub use builds::{builds_over_honest_stores_are_clean, honest_stores_give_clean_runs};
pub use chains::chains_of_builds_are_clean;
pub use mending::stops_are_mended;
