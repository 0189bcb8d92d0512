//! A compiler of one item: a machine that runs the item's chain, and stops where it asks for pages.
#![tactic(auto)]

mod act;
mod compiling;
mod concat;
mod going;
mod joins;
mod loading;
mod machine;
mod maker;
mod making;
mod named;
mod rendering;
mod step;
mod way;
mod work;

pub use machine::Machine;
pub use maker::PlanMaker;
pub use named::{chains_are_deeds, renderings_of_pages_are_deeds};
