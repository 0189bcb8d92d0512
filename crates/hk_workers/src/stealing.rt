// A run by several workers, each with a deque of its own.
ghost use Rattle.std.specs.Prelude.{◌≡◌, ◌+◌, ◌-◌, ◌<◌, ◌≤◌, length, Some, IfOk, All};
ghost use denote.Param.Send.{IsSync};
ghost use Rattle.hk_chain.specs.Kept.{IsKept};
ghost use Rattle.hk_fix.specs.Fix.{seeds_of};
ghost use Rattle.hk_sched.specs.Lawful.{IsRunOf};
ghost use Rattle.hk_lock.specs.View.{IsSeatFor, IsFirstSeat};
ghost use Rattle.hk_workers.specs.Working.{IsBoardFor, HasCommon};

use crate::deques::{Owner, StealEnd, StealJob};
use crate::desk::Seat;
use crate::hiring::{all_thieves, decks, seat_all};
use crate::key::Key;
use crate::rest::run_rest;
use crate::step::put_turn_back;
use crate::thieving::steal_worker;
use crate::whole::{finished, opened};
use hk_base::{NoMemory, Shared};
use hk_chain::{Kept, Layout};
use hk_fix::{Compiler, Maker, Results};
use hk_lock::TurnLock;
use hk_outside::Gate;
use hk_sched::Board;
use std::alloc::Global;
use std::snapshot::Snapshot;
use std::sync::Wait;
use std::thread;
use std::thread::Threads;

/// How many more turns than its share of the items a worker's deque takes.
const EXTRA: usize = 64;

/// Runs all compilers by 1 to 64 workers that steal turns from one another, each in a thread of its own, and what they left on
/// the caller's thread. It may wait, for the workers and where these wait for one another. The gate is told before each poll
/// and after its answer was handed on. `NoMemory` only for want of memory, of the caller or of any worker. Linear in the polls,
/// the items, the pairs and the pairs of workers, but for the waiting and the compilers' own work.
pub fn run_steal<K: Maker + Sync, G: Gate, R: Threads + Wait + Sync>(
    rt: &R,
    alloc: Global,
    layout: Shared<Layout>,
    kept: Kept,
    maker: &K,
    workers: u32,
    gate: &G,
) -> Result<Results, NoMemory>
where
    K::M: Send,
    <K::M as Compiler>::Common: Send,
    requires layout { layout ≡ K.M.shape (K.common_is maker.now) }
    requires kept { IsKept layout kept }
    requires workers { (0 < workers) × (workers ≤ 64) }
    ensures { IfOk result (λ r. IsRunOf layout (K.M.run (K.common_is maker.now)) (seeds_of kept) r) }
{
    let capacity = layout.get().items() as usize / workers as usize + EXTRA;
    let (about, board) = opened(alloc, layout, kept, maker)?;
    let owners = decks(alloc, &about, workers as usize, capacity)?;
    let mut board = robbed(rt, alloc, &about, board, owners, maker, gate)?;
    run_rest(alloc, &about, &mut board, maker, gate)?;
    finished(alloc, &about, board, maker)
}

/// A lock for a run, with its first seat, and the owners of so many empty deques, each for so many pushes. All have the key of
/// the run. `NoMemory` only for want of memory. Linear in the items, the pairs and all that the deques may hold.
pub fn open_decks<K: Maker>(
    alloc: Global,
    layout: Shared<Layout>,
    kept: Kept,
    maker: &K,
    workers: usize,
    capacity: usize,
) -> Result<
    (
        TurnLock<Board<K::M>, Key<K::M>>,
        Seat<K::M>,
        Vec<Owner<K::M>>,
    ),
    NoMemory,
>
    requires layout { layout ≡ K.M.shape (K.common_is maker.now) }
    requires kept { IsKept layout kept }
    requires capacity { 0 < capacity }
    ensures seat { IfOk result (λ r. IsFirstSeat r.0 0 r.1) }
    ensures key { IfOk result (λ r. r.1.view.key ≡ Some (record { common = K.common_is maker.now; lay = layout; kept = kept })) }
    ensures owners { IfOk result (λ r. (length r.2.items ≡ workers) × All (λ o. o.key ≡ r.1.view.key) r.2.items) }
{
    let (about, board) = opened(alloc, layout, kept, maker)?;
    let (lock, seat) = TurnLock::under(alloc, &about, board)?;
    let owners = decks(alloc, &about, workers, capacity)?;
    Ok((lock, seat, owners))
}

/// The board after the workers.
fn robbed<K: Maker + Sync, G: Gate, R: Threads + Wait + Sync>(
    rt: &R,
    alloc: Global,
    about: &Snapshot<Key<K::M>>,
    board: Board<K::M>,
    owners: Vec<Owner<K::M>>,
    maker: &K,
    gate: &G,
) -> Result<Board<K::M>, NoMemory>
where
    K::M: Send,
    <K::M as Compiler>::Common: Send,
    requires board { IsBoardFor K.M.run K.M.shape K.M.meaning about.now.value board }
    requires common { HasCommon about.now.value (K.common_is maker.now) }
    requires owners { All (λ o. o.key ≡ Some about.now.value) owners.items }
    ensures { IfOk result (λ b. IsBoardFor K.M.run K.M.shape K.M.meaning about.now.value b) }
{
    let (lock, first_seat) = TurnLock::under(alloc, about, board)?;
    let mut seat = first_seat;
    let mut owners = owners;
    let lists = all_thieves(alloc, about, &mut owners)?;
    let jobs = seat_all(alloc, &lock, about, &mut seat, owners, lists)?;
    let ends = run_thieves(rt, alloc, &lock, about, jobs, maker, gate)?;
    let (owners, memory) = gather_owners(alloc, &lock, about, &mut seat, ends)?;
    let mut board = lock.close(seat);
    if !memory {
        return Err(NoMemory);
    }
    empty_all(rt, about, owners, &mut board);
    Ok(board)
}

/// Runs a worker in a thread of its own for each job, and waits for all of them.
fn run_thieves<K: Maker + Sync, G: Gate, R: Threads + Wait + Sync>(
    rt: &R,
    alloc: Global,
    lock: &TurnLock<Board<K::M>, Key<K::M>>,
    about: &Snapshot<Key<K::M>>,
    jobs: Vec<StealJob<K::M>>,
    maker: &K,
    gate: &G,
) -> Result<Vec<StealEnd<K::M>>, NoMemory>
where
    K::M: Send,
    <K::M as Compiler>::Common: Send,
    requires jobs { All (λ j. IsSeatFor lock.now (Some about.now.value) j.seat × (j.own.key ≡ Some about.now.value) × All (λ t. t.key ≡ Some about.now.value) j.others.items) jobs.items }
    requires common { HasCommon about.now.value (K.common_is maker.now) }
    ensures { IfOk result (λ v. (length v.items ≡ length jobs.items) × All (λ e. IsSeatFor lock.now (Some about.now.value) e.seat × (e.own.key ≡ Some about.now.value)) v.items) }
{
    let ends = thread::map_vec(
        rt,
        jobs,
        &|job: StealJob<K::M>| -> StealEnd<K::M>
            requires { IsSync R.row × IsSeatFor lock.now (Some about.now.value) job.seat × (job.own.key ≡ Some about.now.value) × All (λ t. t.key ≡ Some about.now.value) job.others.items × HasCommon about.now.value (K.common_is maker.now) }
            ensures { IsSeatFor lock.entry.now (Some about.entry.now.value) result.seat × (result.own.key ≡ Some about.entry.now.value) }
        {
            let _about = about;
            steal_worker(rt, alloc, lock, job.seat, job.own, job.others, maker, gate)
        },
    )?;
    Ok(ends)
}

/// The seats come back. The owners, and whether no worker wanted memory.
fn gather_owners<M: Compiler>(
    alloc: Global,
    lock: &TurnLock<Board<M>, Key<M>>,
    about: &Snapshot<Key<M>>,
    seat: &mut Seat<M>,
    ends: Vec<StealEnd<M>>,
) -> Result<(Vec<Owner<M>>, bool), NoMemory>
    requires seat { IsFirstSeat lock.now (length ends.items) seat.old × (seat.old.view.key ≡ Some about.now.value) }
    requires ends { All (λ e. IsSeatFor lock.now (Some about.now.value) e.seat × (e.own.key ≡ Some about.now.value)) ends.items }
    ensures seat { IfOk result (λ _. IsFirstSeat lock.now 0 seat.new × (seat.new.view.key ≡ Some about.now.value)) }
    ensures owners { IfOk result (λ r. All (λ o. o.key ≡ Some about.now.value) r.0.items) }
{
    let mut ends = ends;
    let mut owners = Vec::with_capacity(alloc, ends.len())?;
    let mut memory = true;
    while let Some(end) = ends.pop() {
        let had = end.memory;
        owners.push_reserved(unseat(lock, about, seat, end));
        memory = memory && had;
    }
    Ok((owners, memory))
}

/// A seat comes back.
fn unseat<M: Compiler>(
    lock: &TurnLock<Board<M>, Key<M>>,
    about: &Snapshot<Key<M>>,
    seat: &mut Seat<M>,
    end: StealEnd<M>,
) -> Owner<M>
    requires seat { IsFirstSeat lock.now seat.old.view.lent seat.old × (seat.old.view.key ≡ Some about.now.value) }
    requires end { IsSeatFor lock.now (Some about.now.value) end.seat × (end.own.key ≡ Some about.now.value) }
    ensures seat { IsFirstSeat lock.now (seat.old.view.lent - 1) seat.new × (seat.new.view.key ≡ Some about.now.value) }
    ensures owner { result.key ≡ Some about.now.value }
{
    let StealEnd {
        seat: theirs,
        own,
        others: _,
        memory: _,
    } = end;
    lock.join(seat, theirs);
    own
}

/// Puts the turns of all deques back on the board.
fn empty_all<M: Compiler, R: Wait>(
    rt: &R,
    about: &Snapshot<Key<M>>,
    owners: Vec<Owner<M>>,
    board: &mut Board<M>,
)
    requires owners { All (λ o. o.key ≡ Some about.now.value) owners.items }
    requires board { IsBoardFor M.run M.shape M.meaning about.now.value board.old }
    ensures { IsBoardFor M.run M.shape M.meaning about.now.value board.new }
{
    let mut owners = owners;
    while let Some(own) = owners.pop() {
        empty(rt, about, own, board);
    }
}

/// Puts the turns of a deque back on the board.
fn empty<M: Compiler, R: Wait>(
    rt: &R,
    about: &Snapshot<Key<M>>,
    own: Owner<M>,
    board: &mut Board<M>,
)
    requires own { own.key ≡ Some about.now.value }
    requires board { IsBoardFor M.run M.shape M.meaning about.now.value board.old }
    ensures { IsBoardFor M.run M.shape M.meaning about.now.value board.new }
{
    let mut own = own;
    for _ in rt.forever() {
        let Some(turn) = own.pop() else {
            return;
        };
        put_turn_back(about, board, turn);
    }
    unreachable!()
}
