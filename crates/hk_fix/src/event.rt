// What happens in a run.
use hk_chain::{ItemNo, PairNo};

/// An event of a run.
#[derive(Clone, Copy, Debug, PartialEq, Eq)]
pub enum Event {
    /// An item's compiler begins.
    Begin(ItemNo),
    /// The page of a pair that isn't an item's last is saved.
    Saved(PairNo),
    /// An item's finished page is saved.
    Done(ItemNo),
    /// An item's compiler met a fault.
    Failed(ItemNo),
}
