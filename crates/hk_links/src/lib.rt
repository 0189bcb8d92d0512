//! The links of a site's pages that lead nowhere inside it.
#![tactic(auto)]

mod broken;
mod laws;
mod path;
mod printed;
mod report;
mod targets;
mod value;

pub use broken::Broken;
pub use laws::relative_links_resolve;
pub use printed::links_text;
pub use report::{LinkReport, check_links};
