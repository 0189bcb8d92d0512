// Why feeds can't be made.
use hk_base::{Identifier, Text};

/// Why feeds can't be made. The first feed with a fault counts, and of its faults the first that holds.
#[derive(Debug, Drop)]
pub enum FeedFault {
    /// The feed's target is no identifier's path.
    BadTarget { target: Text },
    /// An item or an earlier feed has the feed's target, or one that lies above or below it.
    Taken { target: Text },
    /// A member saves no page under the feed's snapshot name: the first such member.
    NoSnapshot { id: Identifier, name: Text },
    /// A member has no date: the first such member.
    NoDate { id: Identifier },
}
