//! A bounded queue through which threads pass on values, each lawful for the key of the passes.
#![tactic(auto)]

mod pass;
mod queue;
mod rule;
mod view;

pub use pass::Pass;
pub use queue::Queue;
pub use view::View;
