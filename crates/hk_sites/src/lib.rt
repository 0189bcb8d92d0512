//! Plans that rules make are sites of the theorem on reuse.
#![tactic(auto)]

mod building;
mod keeping;
mod leaving;
mod making;
mod rebuilding;
mod sites;
mod telling;

pub use building::runs_are_deeds;
pub use keeping::kept_items_of_plans;
pub use leaving::{builds_of_plans_leave_stores, runs_over_entries_are_lawful};
pub use making::rules_make_plans;
pub use rebuilding::{chains_of_plans_are_clean, rebuilds_of_plans_are_clean};
pub use sites::plans_are_sites;
pub use telling::fingerprints_tell;
