//! Patterns that choose identifiers.
#![tactic(auto)]

mod glob;
mod pattern;
mod piece;
mod tail;
mod walk;

pub use glob::{Glob, GlobFault};
pub use pattern::Pattern;
pub use sqlite_items::{Boxed, Items};
