//! The site folder: what is no page goes, and a page is written where it is absent or differs.
#![tactic(auto)]

mod page_out;
mod writer;

pub use page_out::PageOut;
pub use writer::{Counts, write_site};
