//! What compilers speak of: numbers, pages, steps, contexts, faults, facts, and the layout of pairs.
#![tactic(auto)]

mod chain;
mod context;
mod facts;
mod fault;
mod kept;
mod layout;
mod numbers;
mod page;
mod sends;

pub use chain::{Chain, Step};
pub use context::{Context, Field, Order};
pub use facts::{Facts, Mark};
pub use fault::Fault;
pub use kept::Kept;
pub use layout::Layout;
pub use numbers::{ContextNo, ItemNo, PairNo, PatternNo};
pub use page::{Kind, Page, PageRef};
