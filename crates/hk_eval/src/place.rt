// Where a rendering stands.
ghost use Rattle.std.specs.Prelude.{◌≡◌, IfOk};

use hk_base::NoMemory;
use hk_chain::{ContextNo, ItemNo, PageRef};

/// Where a rendering stands: an item with its page, and the context that keys are looked up in.
#[derive(Drop)]
pub struct Place {
    pub item: ItemNo,
    pub page: PageRef,
    pub context: ContextNo,
}

impl Place {
    /// The same place, with a second owner of its page. A refusal counts as want of memory. Constant.
    pub fn try_clone(&self) -> Result<Place, NoMemory>
        ensures { IfOk result (λ p. p ≡ self.now) }
    {
        Ok(Place {
            item: self.item,
            page: self.page.try_clone()?,
            context: self.context,
        })
    }
}
