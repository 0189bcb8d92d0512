// Why a compiler fails.
use hk_base::{Identifier, Text};

/// Why a compiler fails: the first fault that it met.
#[derive(Debug, Drop)]
pub enum Fault {
    /// There is no such item.
    Missing { id: Identifier },
    /// The item saves no page of this name.
    NoSnapshot { id: Identifier, name: Text },
    /// The item's page isn't of the kind that is wanted.
    WrongKind { id: Identifier },
    /// The page is no template; the byte of its body at which that shows.
    BadTemplate { place: u64 },
    /// No field of the context gives a value for the key.
    NoKey { key: Text },
    /// A list is wanted, and the key's value is none.
    NotList { key: Text },
    /// A text is wanted, and the key's value is none.
    NotText { key: Text },
    /// Templates call templates too deep.
    TooDeep,
    /// The item has no date.
    NoDate { id: Identifier },
}
