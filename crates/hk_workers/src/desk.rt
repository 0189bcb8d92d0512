// What the workers share, and what each has.
use crate::key::Key;
use hk_fix::Compiler;
use hk_lock::TurnLock;
use hk_ready::Queue;
use hk_sched::{Board, Turn};
use std::snapshot::Snapshot;

/// A queue of turns.
pub type Ready<M> = Queue<Turn<M>, Key<M>>;

/// A worker's seat at the lock.
pub type Seat<M> = hk_lock::Seat<Board<M>, Key<M>>;

/// A worker's pass of the queue.
pub type Pass<M> = hk_ready::Pass<Turn<M>, Key<M>>;

/// What the workers share: the board behind its lock, and the queue of turns that stand ready.
#[derive(Drop)]
pub struct Desk<M: Compiler> {
    pub lock: TurnLock<Board<M>, Key<M>>,
    pub ready: Ready<M>,
}

/// What a worker gives back.
#[derive(Drop)]
pub struct WorkerEnd<M: Compiler> {
    pub seat: Seat<M>,
    pub pass: Pass<M>,
    /// Where it is false, the worker ended for want of memory.
    pub memory: bool,
}

/// What carries the key of a run: a seat, a pass or a snapshot.
pub(crate) trait HasKey<M: Compiler> {
    ghost use Rattle.std.specs.Prelude.{Option};
    ghost use Rattle.hk_sched.specs.Lawful as sched;

    ghost key_is: { Self → Option (sched.Key M.Common) };
}

impl<M: Compiler> HasKey<M> for Seat<M> {
    ghost key_is = { λ s. s.view.key };
}

impl<M: Compiler> HasKey<M> for Pass<M> {
    ghost key_is = { λ p. p.view.key };
}

impl<M: Compiler> HasKey<M> for Snapshot<Key<M>> {
    ghost use Rattle.std.specs.Prelude.{Some};

    ghost key_is = { λ s. Some s.value };
}
