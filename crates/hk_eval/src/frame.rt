// The frames of a rendering under way.
use crate::block::Block;
use crate::place::Place;
use hk_base::Text;
use hk_chain::{ContextNo, Order, PatternNo};

/// The nodes of a block from one on, at a place, where so many levels of templates may stand below them.
#[derive(Drop)]
pub struct Section {
    pub block: Block,
    pub at: usize,
    pub left: u32,
    pub here: Place,
}

/// What is rendered at each place of a list, and between two of them at the place of the list.
#[derive(Drop)]
pub struct Repeat {
    pub each: Block,
    pub sep: Block,
    pub left: u32,
    pub here: Place,
}

/// A list that is to be made.
#[derive(Drop)]
pub struct Wanted {
    pub pattern: PatternNo,
    pub snapshot: Text,
    pub order: Order,
    pub limit: Option<u32>,
    pub context: ContextNo,
}

/// The places of a list from one on.
#[derive(Drop)]
pub struct Places {
    pub places: Vec<Place>,
    pub next: usize,
}

/// Where a list that is rendered stands.
#[derive(Drop)]
pub enum Stage {
    /// No place was rendered.
    First,
    /// One place was rendered.
    Second,
    /// What stands between two places was rendered last. It is the end of the text, from this byte on.
    Third(usize),
    /// These bytes stand between two places.
    Later(Text),
}

/// What one frame has left to do.
#[derive(Drop)]
pub enum Frame {
    Nodes(Section),
    Make(Wanted, Repeat),
    List(Places, Stage, Repeat),
}
