// The rest of a run, on the caller's thread.
ghost use Rattle.std.specs.Prelude.{◌≡◌, Some, IfOk};
ghost use Rattle.hk_sched.specs.Lawful.{Key, sown, IsKey, MayPoll, IsLawful, IsRunOf};
ghost use Rattle.hk_sched.specs.Progress.{TakesAny, Starts, CanStart, HasPlayed};

use crate::board::Board;
use crate::turn::{Asked, Turn};
use hk_base::NoMemory;
use hk_fix::{Compiler, Maker, Polled, Results};
use std::alloc::Global;

/// Runs what a board has left, on the caller's thread: all that stands ready, each compiler as far as it goes, and then
/// each item that is out, which begins anew. A compiler that the board doesn't admit is dropped, and its item begins
/// anew. `NoMemory` only for want of memory. Linear in the polls, the items and the pairs, but for the compilers' own
/// work, where no item is out.
pub fn finish<K: Maker>(alloc: Global, board: Board<K::M>, maker: &K) -> Result<Results, NoMemory>
    requires common { board.common ≡ K.common_is maker.now }
    requires lawful { (key : Key K.M.Common) × IsKey K.M.run K.M.shape key × IsLawful K.M.run K.M.meaning key board }
    ensures { IfOk result (λ r. (key : Key K.M.Common) → IsKey K.M.run K.M.shape key → IsLawful K.M.run K.M.meaning key board → IsRunOf key.lay (K.M.run key.common) (sown key) r) }
{
    let mut board = board;
    loop {
        let Some(turn) = take_any(&mut board)? else {
            return Ok(board.close());
        };
        let machine = start(alloc, turn, maker)?;
        play(alloc, &mut board, machine)?;
    }
}

/// What stands ready, and else the first item that is out, to begin anew.
fn take_any<M: Compiler>(board: &mut Board<M>) -> Result<Option<Turn<M>>, NoMemory>
    ensures { IfOk result (λ t. TakesAny M.meaning board.old t board.new) }
{
    if let Some(turn) = board.next_ready()? {
        return Ok(Some(turn));
    }
    match board.first_out() {
        Some(item) => Ok(Some(Turn::Fresh(item))),
        None => Ok(None),
    }
}

/// The compiler of a turn.
fn start<K: Maker>(alloc: Global, turn: Turn<K::M>, maker: &K) -> Result<K::M, NoMemory>
    requires { CanStart (K.M.shape (K.common_is maker.now)) turn }
    ensures { IfOk result (λ m. Starts K.M.meaning (K.common_is maker.now) turn (K.M.meaning m)) }
{
    match turn {
        Turn::Fresh(item) => maker.make(alloc, item),
        Turn::Woken(machine) => Ok(machine),
    }
}

/// Polls a compiler until it has ended or is parked, or the board doesn't admit it.
fn play<M: Compiler>(alloc: Global, board: &mut Board<M>, first: M) -> Result<(), NoMemory>
    requires { (key : Key M.Common) × IsKey M.run M.shape key × IsLawful M.run M.meaning key board.old × MayPoll M.run key (M.meaning first) }
    ensures { IfOk result (λ _. (key : Key M.Common) → IsKey M.run M.shape key → IsLawful M.run M.meaning key board.old → MayPoll M.run key (M.meaning first) → HasPlayed M.meaning M.run key board.old (M.meaning first) board.new) }
{
    let mut machine = first;
    loop {
        let polled = machine.poll(alloc)?;
        if !board.admits(&machine) {
            return Ok(());
        }
        match polled {
            Polled::Saved(pair, page) => board.save(pair, page),
            Polled::Ask => match board.ask(machine) {
                Asked::Value(back) => machine = back,
                Asked::Parked => return Ok(()),
                Asked::NoMemory(_) => return Err(NoMemory),
            },
            Polled::Done(page, facts) => {
                board.finish(machine.item(), page, facts);
                return Ok(());
            }
            Polled::Failed(fault) => {
                board.fail(machine.item(), fault);
                return Ok(());
            }
        }
    }
}
