//! Routes, which give identifiers their targets.
#![tactic(auto)]

mod rewriting;
mod route;

pub use rewriting::without_extension;
pub use route::{Route, RouteFault, target};
