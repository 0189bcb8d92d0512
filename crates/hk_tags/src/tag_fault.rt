// Why tables give no pages.
use hk_base::{Identifier, Text};

/// Why the tables of rules give no pages.
#[derive(Debug, PartialEq, Eq, Drop)]
pub enum TagFault {
    /// A page's path is no identifier's.
    BadPath { path: Text },
    /// The plan, or an earlier page, has the identifier of a page.
    Taken { id: Identifier },
    /// Numbered pages are ordered by date, and this member of theirs has none.
    NoDate { id: Identifier },
    /// The plan and the pages have more than 65,535 items.
    TooManyItems,
}
