// What a board hands out, and what it says of an ask.
use hk_chain::ItemNo;

/// What to do next.
#[derive(Drop)]
pub enum Turn<M> {
    /// Make the item's compiler.
    Fresh(ItemNo),
    /// Go on with this compiler. Each pair that it asked for was answered.
    Woken(M),
}

/// What becomes of a compiler that asked for pages.
#[derive(Drop)]
pub enum Asked<M> {
    /// Each open pair is known, and was answered with its page.
    Value(M),
    /// It waits for an open pair that isn't known.
    Parked,
    /// A page couldn't be handed on for want of memory. Some open pairs may have been answered.
    NoMemory(M),
}

/// What stands ready.
#[derive(Drop)]
pub enum Ready<M> {
    /// An item that hasn't begun.
    First(ItemNo),
    /// An item that begins anew.
    Again(ItemNo),
    /// A compiler that goes on.
    Woken(M),
}
