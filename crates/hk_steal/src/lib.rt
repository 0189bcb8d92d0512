//! A deque of tasks, each lawful for the key of its ends: the owner pushes and pops, and thieves take the oldest.
#![tactic(auto)]

mod owner;
mod rule;
mod thief;
mod view;

pub use owner::{Owner, deck, deck_under};
pub use thief::Thief;
pub use view::View;
