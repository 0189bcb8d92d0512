// A link that leads nowhere.
use hk_base::Text;

/// A broken link: the number of its page among the targets, and its value as it stands on the page.
#[derive(Debug, Drop)]
pub struct Broken {
    pub page: u32,
    pub value: Text,
}
