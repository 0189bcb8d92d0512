// What came of looking for a template.
use crate::block::Block;
use hk_chain::{Fault, PairNo};

/// What came of looking for a template.
#[derive(Drop)]
pub enum Found {
    /// The nodes of its tree.
    Tree(Block),
    /// The page of this pair is wanted.
    Asks(PairNo),
    Fails(Fault),
}
