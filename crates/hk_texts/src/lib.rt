//! The texts that a run prints.
#![tactic(auto)]

mod damage;
mod deps;
mod done;
mod laws;
mod pieces;
mod refusals;
mod report;
mod trace;

pub use damage::damage_line;
pub use deps::deps_text;
pub use done::{items_line, removed_line, summary};
pub use laws::printed_traces_tell_histories;
pub use refusals::{feed_line, plan_line, rules_line, tag_line};
pub use report::report_text;
pub use trace::trace_text;
