//! Two small families of compilers, in which trials of boards and of workers run.
#![tactic(auto)]

mod mutual;
mod sample;

pub use mutual::{Mutual, MutualMaker};
pub use sample::{SampleMaker, Sampler};
