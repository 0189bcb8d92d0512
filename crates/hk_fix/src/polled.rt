// What a poll answers.
use hk_chain::{Facts, Fault, PageRef, PairNo};

/// What a poll answers.
#[derive(Drop)]
pub enum Polled {
    /// The next page on the way, of this pair.
    Saved(PairNo, PageRef),
    /// Pages are wanted: those of the open pairs.
    Ask,
    /// The finished page, and what was used.
    Done(PageRef, Facts),
    /// The first fault.
    Failed(Fault),
}
