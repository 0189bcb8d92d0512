// The steps of a worker that has the board, and of a compiler in its hand. None of them waits.
ghost use Rattle.std.specs.Prelude.{IfOk, IfSome};
ghost use Rattle.hk_lock.specs.Lawful.{IsLawfulFor};
ghost use Rattle.hk_workers.specs.Working.{IsBoardFor, IsTurnFor, IsPlay, HasPolled, HasCommon, GoesOn};

use crate::desk::HasKey;
use hk_base::NoMemory;
use hk_fix::{Compiler, Maker, Polled};
use hk_sched::{Asked, Board, Turn, lawful_board, lawful_polls};
use std::alloc::Global;

/// What becomes of a compiler once its answer was told to the board. What isn't needed any more comes back, so that it is
/// let go without the board.
#[derive(Drop)]
pub enum Next<M> {
    /// It goes on.
    On(M),
    /// It is parked on the board.
    Parked,
    /// It has ended.
    Ended(M),
    /// The board doesn't admit it any more, nor what it answered.
    Refused(M, Polled),
    /// Memory was wanting.
    NoMemory(M),
}

/// What stands ready. The holder names the key.
pub fn next_turn<M: Compiler, H: HasKey<M>>(
    holder: &H,
    board: &mut Board<M>,
) -> Result<Option<Turn<M>>, NoMemory>
    requires { IsLawfulFor (IsBoardFor M.run M.shape M.meaning) (H.key_is holder.now) board.old }
    ensures board { IsLawfulFor (IsBoardFor M.run M.shape M.meaning) (H.key_is holder.now) board.new }
    ensures turn { IfOk result (λ t. IfSome t (λ u. IsLawfulFor (IsTurnFor M.run M.shape M.meaning) (H.key_is holder.now) u)) }
{
    lawful_board::<M>();
    board.next_ready()
}

/// The same, and where nothing stands ready, an item that is out, to begin anew.
pub fn any_turn<M: Compiler, H: HasKey<M>>(
    holder: &H,
    board: &mut Board<M>,
) -> Result<Option<Turn<M>>, NoMemory>
    requires { IsLawfulFor (IsBoardFor M.run M.shape M.meaning) (H.key_is holder.now) board.old }
    ensures board { IsLawfulFor (IsBoardFor M.run M.shape M.meaning) (H.key_is holder.now) board.new }
    ensures turn { IfOk result (λ t. IfSome t (λ u. IsLawfulFor (IsTurnFor M.run M.shape M.meaning) (H.key_is holder.now) u)) }
{
    lawful_board::<M>();
    if let Some(turn) = next_turn(holder, board)? {
        return Ok(Some(turn));
    }
    match board.first_out() {
        Some(item) => Ok(Some(Turn::Fresh(item))),
        None => Ok(None),
    }
}

/// A lawful turn stands on the board again.
pub fn put_turn_back<M: Compiler, H: HasKey<M>>(holder: &H, board: &mut Board<M>, turn: Turn<M>)
    requires board { IsLawfulFor (IsBoardFor M.run M.shape M.meaning) (H.key_is holder.now) board.old }
    requires turn { IsLawfulFor (IsTurnFor M.run M.shape M.meaning) (H.key_is holder.now) turn }
    ensures { IsLawfulFor (IsBoardFor M.run M.shape M.meaning) (H.key_is holder.now) board.new }
{
    lawful_board::<M>();
    board.put_back(turn);
}

/// The compiler of a turn.
pub fn begin<K: Maker, H: HasKey<K::M>>(
    alloc: Global,
    holder: &H,
    turn: Turn<K::M>,
    maker: &K,
) -> Result<K::M, NoMemory>
    requires turn { IsLawfulFor (IsTurnFor K.M.run K.M.shape K.M.meaning) (H.key_is holder.now) turn }
    requires common { IsLawfulFor HasCommon (H.key_is holder.now) (K.common_is maker.now) }
    ensures { IfOk result (λ m. IsLawfulFor (IsPlay K.M.run K.M.shape) (H.key_is holder.now) (K.M.meaning m)) }
{
    lawful_polls::<K::M>();
    match turn {
        Turn::Fresh(item) => maker.make(alloc, item),
        Turn::Woken(machine) => Ok(machine),
    }
}

/// A poll of a compiler that is off the board.
pub fn poll<M: Compiler, H: HasKey<M>>(
    alloc: Global,
    holder: &H,
    machine: &mut M,
) -> Result<Polled, NoMemory>
    requires { IsLawfulFor (IsPlay M.run M.shape) (H.key_is holder.now) (M.meaning machine.old) }
    ensures { IfOk result (λ polled. IsLawfulFor (λ key n. HasPolled M.run M.shape key polled n) (H.key_is holder.now) (M.meaning machine.new)) }
{
    machine.poll(alloc)
}

/// Tells the board what a compiler answered, where it still admits it.
pub fn settle<M: Compiler, H: HasKey<M>>(
    holder: &H,
    board: &mut Board<M>,
    machine: M,
    polled: Polled,
) -> Next<M>
    requires board { IsLawfulFor (IsBoardFor M.run M.shape M.meaning) (H.key_is holder.now) board.old }
    requires polled { IsLawfulFor (λ key n. HasPolled M.run M.shape key polled n) (H.key_is holder.now) (M.meaning machine) }
    ensures board { IsLawfulFor (IsBoardFor M.run M.shape M.meaning) (H.key_is holder.now) board.new }
    ensures next { GoesOn (λ m. IsLawfulFor (IsPlay M.run M.shape) (H.key_is holder.now) (M.meaning m)) result }
{
    lawful_board::<M>();
    lawful_polls::<M>();
    if !board.admits(&machine) {
        return Next::Refused(machine, polled);
    }
    match polled {
        Polled::Saved(pair, page) => {
            board.save(pair, page);
            Next::On(machine)
        }
        Polled::Ask => match board.ask(machine) {
            Asked::Value(back) => Next::On(back),
            Asked::Parked => Next::Parked,
            Asked::NoMemory(back) => Next::NoMemory(back),
        },
        Polled::Done(page, facts) => {
            board.finish(machine.item(), page, facts);
            Next::Ended(machine)
        }
        Polled::Failed(fault) => {
            board.fail(machine.item(), fault);
            Next::Ended(machine)
        }
    }
}
