//! Atom and RSS 2.0 feeds of a plan's items: which feeds can be made, and the exact text of each.
#![tactic(auto)]

mod atom;
mod checking;
mod clashes;
mod entries;
mod feed_fault;
mod laws;
mod lines;
mod members;
mod recent;
mod rss;
mod texts;
mod title;
mod xml;

pub use checking::check_feeds;
pub use feed_fault::FeedFault;
pub use laws::{accepted_feeds_are_whole, escaping_is_undone};
pub use texts::feed_text;
