// What a node, a step of a stack and the steps up to a stop come to.
use crate::frame::Frame;
use hk_base::Text;
use hk_chain::{Fault, PairNo};

/// What a node comes to.
#[derive(Drop)]
pub enum Move {
    /// It was written.
    Wrote,
    /// It is what this frame has to do.
    Push(Frame),
    /// The pages of these pairs are wanted, in order.
    Asks(Vec<PairNo>),
    Fails(Fault),
}

/// What one step of a stack comes to.
#[derive(Drop)]
pub enum Act {
    Goes,
    /// The pages of these pairs are wanted, in order.
    Asks(Vec<PairNo>),
    /// No frame is left.
    Done,
    Fails(Fault),
}

/// Why the steps of a stack stop.
#[derive(Drop)]
pub enum Stop {
    /// The pages of these pairs are wanted, in order.
    Asks(Vec<PairNo>),
    /// The text is whole.
    Text(Text),
    Fails(Fault),
}
