//! HTML: tags and the links in them, teasers, URLs.
#![tactic(auto)]

mod attribute;
mod found;
mod kind;
mod piece;
mod place;
mod relative;
mod root;
mod scan;
mod teasers;
mod url;

pub use relative::{links, relativize};
pub use teasers::teaser;
pub use url::url_of;
