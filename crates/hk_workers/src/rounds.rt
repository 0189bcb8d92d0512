// A run in rounds of polls side by side, in which nothing waits.
ghost use Rattle.std.specs.Prelude.{◌≡◌, ◌<◌, ◌≤◌, Some, IfOk, All};
ghost use Rattle.hk_chain.specs.Kept.{IsKept};
ghost use Rattle.hk_fix.specs.Fix.{seeds_of};
ghost use Rattle.hk_sched.specs.Lawful.{IsRunOf};
ghost use Rattle.hk_workers.specs.Working.{IsBoardFor, IsTurnFor, HasCommon};
ghost use Rattle.hk_workers.specs.Rounds.{IsReadySlot, IsPolledSlot};

use crate::key::Key;
use crate::step::{Next, begin, next_turn, poll, put_turn_back, settle};
use crate::whole::{finished, opened};
use hk_base::{NoMemory, Shared};
use hk_chain::{Kept, Layout};
use hk_fix::{Compiler, Maker, Polled, Results};
use hk_sched::{Board, Turn};
use std::alloc::Global;
use std::mem::replace;
use std::snapshot::Snapshot;
use std::thread;
use std::thread::Threads;

/// A turn of a round.
#[derive(Drop)]
enum Slot<M> {
    /// Its compiler is to be polled.
    Ready(Turn<M>),
    /// Its compiler, and what the poll answered.
    Polled(M, Polled),
    /// Memory was wanting.
    NoMemory,
}

/// Runs all compilers in rounds, by 1 to 64 threads at once: each compiler that stands ready is polled, side by side, and
/// then all answers go to the board in the order of the turns. Nothing waits but for the threads of a round. `NoMemory` only
/// for want of memory. Linear in the polls, the items and the pairs, but for the compilers' own work.
pub fn run_rounds<K: Maker + Sync, R: Threads + Sync>(
    rt: &R,
    alloc: Global,
    layout: Shared<Layout>,
    kept: Kept,
    maker: &K,
    workers: u32,
) -> Result<Results, NoMemory>
where
    K::M: Send,
    <K::M as Compiler>::Common: Send,
    requires layout { layout ≡ K.M.shape (K.common_is maker.now) }
    requires kept { IsKept layout kept }
    requires workers { (0 < workers) × (workers ≤ 64) }
    ensures { IfOk result (λ r. IsRunOf layout (K.M.run (K.common_is maker.now)) (seeds_of kept) r) }
{
    let (about, board) = opened(alloc, layout, kept, maker)?;
    let mut board = board;
    rounds(rt, alloc, &about, &mut board, maker, workers as usize)?;
    finished(alloc, &about, board, maker)
}

/// Round after round, until nothing stands ready.
fn rounds<K: Maker + Sync, R: Threads + Sync>(
    rt: &R,
    alloc: Global,
    about: &Snapshot<Key<K::M>>,
    board: &mut Board<K::M>,
    maker: &K,
    workers: usize,
) -> Result<(), NoMemory>
where
    K::M: Send,
    <K::M as Compiler>::Common: Send,
    requires board { IsBoardFor K.M.run K.M.shape K.M.meaning about.now.value board.old }
    requires common { HasCommon about.now.value (K.common_is maker.now) }
    requires workers { 0 < workers }
    ensures { IsBoardFor K.M.run K.M.shape K.M.meaning about.now.value board.new }
{
    for _ in 0..u64::MAX {
        let mut slots = collect(alloc, about, board)?;
        if slots.is_empty() {
            return Ok(());
        }
        poll_all(rt, alloc, about, &mut slots, maker, workers);
        hand_over(about, board, slots)?;
    }
    Ok(())
}

/// All turns that stand ready.
fn collect<M: Compiler>(
    alloc: Global,
    about: &Snapshot<Key<M>>,
    board: &mut Board<M>,
) -> Result<Vec<Slot<M>>, NoMemory>
    requires { IsBoardFor M.run M.shape M.meaning about.now.value board.old }
    ensures board { IsBoardFor M.run M.shape M.meaning about.now.value board.new }
    ensures slots { IfOk result (λ v. All (IsReadySlot M.run M.shape M.meaning about.now.value) v.items) }
{
    let mut slots = Vec::new(alloc);
    for _ in 0..u64::MAX {
        let Some(turn) = next_turn(about, board)? else {
            break;
        };
        slots.push(Slot::Ready(turn))?;
    }
    Ok(slots)
}

/// Polls each compiler once, by so many threads at most.
fn poll_all<K: Maker + Sync, R: Threads + Sync>(
    rt: &R,
    alloc: Global,
    about: &Snapshot<Key<K::M>>,
    slots: &mut [Slot<K::M>],
    maker: &K,
    workers: usize,
)
where
    K::M: Send,
    <K::M as Compiler>::Common: Send,
    requires slots { All (IsReadySlot K.M.run K.M.shape K.M.meaning about.now.value) slots.old }
    requires common { HasCommon about.now.value (K.common_is maker.now) }
    requires workers { 0 < workers }
    ensures { All (IsPolledSlot K.M.run K.M.shape K.M.meaning about.now.value) slots.new }
{
    thread::for_each_mut(
        rt,
        slots,
        workers,
        &|_at: usize, slot: &mut Slot<K::M>|
            requires { IsReadySlot K.M.run K.M.shape K.M.meaning about.now.value slot.now × HasCommon about.now.value (K.common_is maker.now) }
            ensures { IsPolledSlot K.M.run K.M.shape K.M.meaning about.entry.now.value slot.exit.now }
        {
            let Slot::Ready(turn) = replace(slot, Slot::NoMemory) else {
                unreachable!()
            };
            *slot = polled_slot(alloc, about, turn, maker);
        },
    );
}

/// The slot of a turn once its compiler was polled.
fn polled_slot<K: Maker>(
    alloc: Global,
    about: &Snapshot<Key<K::M>>,
    turn: Turn<K::M>,
    maker: &K,
) -> Slot<K::M>
    requires turn { IsTurnFor K.M.run K.M.shape K.M.meaning about.now.value turn }
    requires common { HasCommon about.now.value (K.common_is maker.now) }
    ensures { IsPolledSlot K.M.run K.M.shape K.M.meaning about.now.value result }
{
    let Ok(mut machine) = begin(alloc, about, turn, maker) else {
        return Slot::NoMemory;
    };
    match poll(alloc, about, &mut machine) {
        Ok(polled) => Slot::Polled(machine, polled),
        Err(_) => Slot::NoMemory,
    }
}

/// Tells the board what each compiler answered, in the order of the turns. A compiler that goes on stands on the board
/// again.
fn hand_over<M: Compiler>(
    about: &Snapshot<Key<M>>,
    board: &mut Board<M>,
    slots: Vec<Slot<M>>,
) -> Result<(), NoMemory>
    requires board { IsBoardFor M.run M.shape M.meaning about.now.value board.old }
    requires slots { All (IsPolledSlot M.run M.shape M.meaning about.now.value) slots.items }
    ensures { IsBoardFor M.run M.shape M.meaning about.now.value board.new }
{
    for slot in slots {
        hand_one(about, board, slot)?;
    }
    Ok(())
}

/// Tells the board what one compiler answered.
fn hand_one<M: Compiler>(
    about: &Snapshot<Key<M>>,
    board: &mut Board<M>,
    slot: Slot<M>,
) -> Result<(), NoMemory>
    requires board { IsBoardFor M.run M.shape M.meaning about.now.value board.old }
    requires slot { IsPolledSlot M.run M.shape M.meaning about.now.value slot }
    ensures { IsBoardFor M.run M.shape M.meaning about.now.value board.new }
{
    match slot {
        Slot::Polled(machine, polled) => match settle(about, board, machine, polled) {
            Next::On(back) => put_turn_back(about, board, Turn::Woken(back)),
            Next::NoMemory(_) => return Err(NoMemory),
            _ => {}
        },
        Slot::NoMemory => return Err(NoMemory),
        Slot::Ready(_) => unreachable!(),
    }
    Ok(())
}
