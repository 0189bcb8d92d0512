// A page of the site.
use hk_base::Text;
use hk_chain::PageRef;

/// A page with the path at which it stands in the site folder.
#[derive(Drop)]
pub struct PageOut {
    pub target: Text,
    pub page: PageRef,
}
