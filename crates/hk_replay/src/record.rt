// What is stored of the items' runs, in the numbers of a plan.
use crate::hashing::PageDigests;
use hk_chain::{PageRef, PairNo, PatternNo};

/// A step of a recorded run: a group of pairs that were asked for at once, with the digests of their pages, or a page that
/// was saved.
#[derive(Drop)]
pub enum Step {
    Asked(Vec<PairNo>, Vec<[u8; 32]>),
    Saved(PairNo, PageRef),
}

/// A recorded run: its steps, the patterns that it used, and its finished page with that page's pair.
#[derive(Drop)]
pub struct Record {
    pub steps: Vec<Step>,
    pub patterns: Vec<PatternNo>,
    pub last: PairNo,
    pub page: PageRef,
}

/// The records of a plan's items, by item, and the digests of the pages that answers are compared by.
#[derive(Drop)]
pub struct Records {
    pub by_item: Vec<Option<Record>>,
    pub(crate) digests: PageDigests,
}
