//! A build of a plan over stored entries, without the outside: what it runs, reports, shows and leaves, and its laws.
#![tactic(auto)]

mod build;
mod check;
mod cleaning;
mod ended;
mod keeping;
mod leaving;
mod links;
mod pages;
mod pool;
mod replays;
mod report;
mod shown;
mod site_fault;
mod site_plan;

pub use build::build_one;
pub use check::check_one;
pub use cleaning::honest_builds_are_clean;
pub use ended::Build;
pub use keeping::{early_cutoff, kept_items_leave_histories, unchanged_builds_compile_nothing};
pub use leaving::images_are_stores;
pub use links::{LinkLines, link_lines};
pub use pages::site_pages;
pub use pool::build_in_pool;
pub use report::report_lines;
pub use shown::{shown_history, shown_trace};
pub use site_fault::SiteFault;
pub use site_plan::plan_site;
