//! The command that the words of a command line are, and the text that tells how to use the program.
#![tactic(auto)]

mod arguments;
mod commands;
mod leaf;
mod numbers;
mod usage;
mod words;

pub use commands::{BuildOptions, Command, GenerateOptions};
pub use usage::usage_text;
pub use words::command;
