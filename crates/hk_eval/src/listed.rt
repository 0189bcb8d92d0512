// What came of making a list.
use crate::place::Place;
use hk_chain::{Fault, PairNo};

/// What came of making a list.
#[derive(Drop)]
pub enum Listed {
    Places(Vec<Place>),
    /// The pages of these pairs are wanted, in order.
    Asks(Vec<PairNo>),
    Fails(Fault),
}
