//! Texts, lines and the answers that every crate shares.
#![tactic(auto)]

mod identifier;
mod key;
mod line;
mod refusal;
mod shared;
mod text;

pub use identifier::{IdentFault, Identifier, is_path, is_version};
pub use key::is_key;
pub use line::{Line, next_line};
pub use refusal::{NoMemory, Refusal};
pub use shared::Shared;
pub use text::Text;
