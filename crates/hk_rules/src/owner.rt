// Who owns an item.
use crate::source_file::SourceFile;
use hk_base::Shared;
use hk_rules_file::Rule;

/// The rule that owns an item, and the file that the item is of. A created item has no file.
#[derive(Drop)]
pub struct Owner {
    pub rule: Shared<Rule>,
    pub source: Option<Shared<SourceFile>>,
}
