// Pages, and pages that have several owners.
use hk_base::{Shared, Text};

/// What a page is for: text that may be loaded, a template, or a file that is passed on unread.
#[derive(Clone, Copy, Debug, PartialEq, Eq)]
pub enum Kind {
    Text,
    Template,
    File,
}

/// What an item saves.
#[derive(Debug, Drop)]
pub struct Page {
    pub kind: Kind,
    pub body: Text,
}

/// One of several owners of a page. Moving one takes no memory.
pub type PageRef = Shared<Page>;
