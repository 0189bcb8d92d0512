//! The top call: one run, from the words of the command line to the site folder and the status.
#![tactic(auto)]

mod beginning;
mod checking;
mod cleaning;
mod ended;
mod finishing;
mod folder;
mod generating;
mod linking;
mod pool;
mod reading;
mod run;
mod status;
mod taken;
mod taking;

pub use pool::site_main;
pub use run::site_main_one;
pub use status::Status;
