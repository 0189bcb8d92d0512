//! The outside: folders of files, and what text is written to.
#![tactic(auto)]

mod call;
mod failures;
mod gate;
mod held;
mod mem_sink;
mod mem_tree;
mod sink;
mod still_sink;
mod still_tree;
mod tree;

pub use call::{CallKind, Fail};
pub use gate::{Gate, OpenGate};
pub use mem_sink::MemSink;
pub use mem_tree::MemTree;
pub use sink::Sink;
pub use still_sink::StillSink;
pub use still_tree::StillTree;
pub use tree::{Tree, TreeFault};
