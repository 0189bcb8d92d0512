//! The board of suspended compilers, and a run of all of them on one thread.
#![tactic(auto)]

mod board;
mod closing;
mod finishing;
mod keeping;
mod opening;
mod place;
mod roster;
mod run;
mod sends;
mod stacks;
mod turn;

pub use board::Board;
pub use finishing::finish;
pub use keeping::{lawful_board, lawful_polls};
pub use run::run_one;
pub use turn::{Asked, Turn};
