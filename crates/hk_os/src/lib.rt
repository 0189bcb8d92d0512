//! The folders and the output of the system.
#![tactic(auto)]

mod bytes;
mod count;
mod os_tree;
mod paths;
mod std_sink;
#[cfg(test)]
mod tests;
mod walk;

pub use os_tree::OsTree;
pub use std_sink::StdSink;
