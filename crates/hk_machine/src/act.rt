// What the steps of a chain come to.
use hk_chain::{Fault, PageRef, PairNo};
use hk_eval::Stack;

/// What one step comes to.
#[derive(Drop)]
pub(crate) enum Act {
    /// The current page is this one now.
    Gives(PageRef),
    /// The current page is the text of this rendering now.
    Renders(Stack),
    /// The current page is saved for a pair.
    Saves(PairNo),
    /// The pages of these pairs are wanted, in order.
    Asks(Vec<PairNo>),
    Fails(Fault),
}

/// Why steps stop.
#[derive(Drop)]
pub(crate) enum Stop {
    /// The current page is saved for a pair.
    Saves(PairNo),
    /// The pages of these pairs are wanted, in order.
    Asks(Vec<PairNo>),
    /// There is no further step.
    Done,
    Fails(Fault),
}
