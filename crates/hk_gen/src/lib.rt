//! The generated site: its source folder, and the line that tells what a build of it gives.
#![tactic(auto)]

mod line;
mod posts;
mod random;
mod rules;
mod site;

pub use line::generated_line;
pub use site::generated_site;
