//! Compilers that replay stored results: what an item's run asked for and saved, as long as the answered pages are those of
//! that run, and from there on another compiler.
#![tactic(auto)]

mod fitting;
mod hashing;
mod inner;
mod kept;
mod known;
mod leaving;
mod look;
mod maker;
mod merging;
mod named;
mod numbering;
mod record;
mod renewing;
mod replay;
mod sends;
mod storing;
mod texts;
mod way;

pub use maker::ReplayMaker;
pub use named::{plans_have_items, records_are_entries};
pub use record::{Record, Records, Step};
pub use replay::{Held, Replay};
