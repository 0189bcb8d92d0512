// What an item is made of.
use hk_base::{Shared, Text};

/// What a file holds, and what its companion holds.
#[derive(Drop)]
pub struct SourceFile {
    pub text: Text,
    pub companion: Option<Shared<Text>>,
}
