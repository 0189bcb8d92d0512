// What came of looking up a key.
use hk_base::Text;
use hk_chain::{ContextNo, Fault, Order, PairNo, PatternNo};

/// A list that isn't made yet.
#[derive(Clone, Copy)]
pub struct Listing<'a> {
    pub pattern: PatternNo,
    pub snapshot: &'a [u8],
    pub order: Order,
    pub limit: Option<u32>,
    pub context: ContextNo,
}

/// What came of looking up a key.
#[derive(Drop)]
pub enum Look<'a> {
    Absent,
    /// A text that stands in the plan or in a page.
    Lent(&'a [u8]),
    /// A text that was made.
    Made(Text),
    Flag,
    List(Listing<'a>),
    /// The page of this pair is wanted.
    Asks(PairNo),
    Fails(Fault),
}
