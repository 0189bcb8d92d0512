// What workers left, on the caller's thread, where the gate is told of each poll.
ghost use Rattle.hk_workers.specs.Working.{IsBoardFor, IsPlay, HasCommon, GoesOn};

use crate::key::Key;
use crate::step::{Next, any_turn, begin, poll, settle};
use hk_base::NoMemory;
use hk_fix::{Compiler, Maker};
use hk_outside::Gate;
use hk_sched::Board;
use std::alloc::Global;
use std::snapshot::Snapshot;

/// Runs what stands ready on a board, each compiler as far as it goes, and then each item that is out, which begins anew.
/// It doesn't wait. `NoMemory` only for want of memory. Linear in the polls and, where an item is out, in the items, but for
/// the compilers' own work.
pub fn run_rest<K: Maker, G: Gate>(
    alloc: Global,
    about: &Snapshot<Key<K::M>>,
    board: &mut Board<K::M>,
    maker: &K,
    gate: &G,
) -> Result<(), NoMemory>
    requires board { IsBoardFor K.M.run K.M.shape K.M.meaning about.now.value board.old }
    requires common { HasCommon about.now.value (K.common_is maker.now) }
    ensures { IsBoardFor K.M.run K.M.shape K.M.meaning about.now.value board.new }
{
    for _ in 0..u64::MAX {
        let Some(turn) = any_turn(about, board)? else {
            return Ok(());
        };
        let machine = begin(alloc, about, turn, maker)?;
        play_here(alloc, about, board, machine, gate)?;
    }
    Ok(())
}

/// Polls a compiler until it has ended or is parked, or the board doesn't admit it any more.
fn play_here<M: Compiler, G: Gate>(
    alloc: Global,
    about: &Snapshot<Key<M>>,
    board: &mut Board<M>,
    first: M,
    gate: &G,
) -> Result<(), NoMemory>
    requires board { IsBoardFor M.run M.shape M.meaning about.now.value board.old }
    requires play { IsPlay M.run M.shape about.now.value (M.meaning first) }
    ensures { IsBoardFor M.run M.shape M.meaning about.now.value board.new }
{
    let item = first.item().0;
    let mut machine = first;
    for _ in 0..u64::MAX {
        gate.enter(item);
        let next = poll_here(alloc, about, board, machine);
        gate.leave(item);
        match next {
            Next::On(back) => machine = back,
            Next::NoMemory(_) => return Err(NoMemory),
            _ => return Ok(()),
        }
    }
    Ok(())
}

/// Polls a compiler once, and tells the board what it answered.
fn poll_here<M: Compiler>(
    alloc: Global,
    about: &Snapshot<Key<M>>,
    board: &mut Board<M>,
    machine: M,
) -> Next<M>
    requires board { IsBoardFor M.run M.shape M.meaning about.now.value board.old }
    requires play { IsPlay M.run M.shape about.now.value (M.meaning machine) }
    ensures board { IsBoardFor M.run M.shape M.meaning about.now.value board.new }
    ensures next { GoesOn (λ m. IsPlay M.run M.shape about.now.value (M.meaning m)) result }
{
    let mut machine = machine;
    match poll(alloc, about, &mut machine) {
        Ok(polled) => settle(about, board, machine, polled),
        Err(_) => Next::NoMemory(machine),
    }
}
