// What a worker with a deque of its own has.
use crate::desk::Seat;
use crate::key::Key;
use hk_fix::Compiler;
use hk_sched::Turn;

/// A worker's end of its own deque of turns.
pub type Owner<M> = hk_steal::Owner<Turn<M>, Key<M>>;

/// A worker's end of another worker's deque.
pub type Thief<M> = hk_steal::Thief<Turn<M>, Key<M>>;

/// What such a worker gives back.
#[derive(Drop)]
pub struct StealEnd<M: Compiler> {
    pub seat: Seat<M>,
    pub own: Owner<M>,
    pub others: Vec<Thief<M>>,
    /// Where it is false, the worker ended for want of memory.
    pub memory: bool,
}

/// What one such worker is given.
#[derive(Drop)]
pub struct StealJob<M: Compiler> {
    pub seat: Seat<M>,
    pub own: Owner<M>,
    pub others: Vec<Thief<M>>,
}
