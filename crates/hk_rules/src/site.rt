// Targets with their items.
use hk_base::{Identifier, Shared, Text};

/// A target, and the item that is written there.
#[derive(Drop)]
pub struct Site {
    pub target: Text,
    pub id: Identifier,
}

/// Two sites that can't both be written.
#[derive(Drop)]
pub struct Clash {
    pub first: Shared<Site>,
    pub second: Shared<Site>,
}
