// Why there is no plan.
use hk_base::{Identifier, Text};

/// Why there is no plan. The first that holds counts.
#[derive(Debug, Drop)]
pub enum PlanFault {
    /// The path of a file is no identifier's: the first such file.
    BadName {
        path: Text,
    },
    /// More than 65,535 items.
    TooManyItems,
    /// The header of an item's file is refused, or else its companion, at this line: the first such item.
    BadHeader {
        path: Text,
        line: u64,
    },
    /// The item's route gives a bad path: the first such item.
    BadTarget {
        id: Identifier,
    },
    /// Two items have one target: the least such target, with its two least items.
    SameTarget {
        target: Text,
        first: Identifier,
        second: Identifier,
    },
    /// A target lies above another: the least outer one with its least inner one.
    NestedTarget {
        outer: Text,
        inner: Text,
        first: Identifier,
        second: Identifier,
    },
}
