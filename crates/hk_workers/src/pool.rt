// A run by several workers.
ghost use Rattle.std.specs.Prelude.{◌≡◌, ◌<◌, ◌≤◌, length, Some, IfOk, All};
ghost use denote.Param.Send.{IsSync};
ghost use Rattle.hk_chain.specs.Kept.{IsKept};
ghost use Rattle.hk_fix.specs.Fix.{seeds_of};
ghost use Rattle.hk_sched.specs.Lawful.{IsRunOf};
ghost use Rattle.hk_lock.specs.View.{IsSeatFor, IsFirstSeat};
ghost use Rattle.hk_ready.specs.View.{IsPassFor};
ghost use Rattle.hk_lock.specs.Lawful.{IsLawfulFor};
ghost use Rattle.hk_workers.specs.Working.{IsBoardFor, HasCommon};

use crate::desk::{Desk, Pass, Ready, Seat, WorkerEnd};
use crate::key::Key;
use crate::rest::run_rest;
use crate::step::put_turn_back;
use crate::whole::{finished, opened};
use crate::working::worker;
use hk_base::{NoMemory, Shared};
use hk_chain::{Kept, Layout};
use hk_fix::{Compiler, Maker, Results};
use hk_lock::TurnLock;
use hk_outside::Gate;
use hk_sched::Board;
use std::alloc::Global;
use std::snapshot::Snapshot;
use std::sync::Wait;
use std::thread;
use std::thread::Threads;

/// How many turns the queue has places for.
const PLACES: usize = 128;

/// What one worker is given.
#[derive(Drop)]
struct Job<M: Compiler> {
    seat: Seat<M>,
    pass: Pass<M>,
}

/// Runs all compilers by 1 to 64 workers, each in a thread of its own, and what they left on the caller's thread. It may
/// wait, for the workers and where these wait for one another. The gate is told before each poll and after its answer was
/// handed on. `NoMemory` only for want of memory, of the caller or of any worker. Linear in the polls, the items and the
/// pairs, but for the waiting and the compilers' own work.
pub fn run_pool<K: Maker + Sync, G: Gate, R: Threads + Wait + Sync>(
    rt: &R,
    alloc: Global,
    layout: Shared<Layout>,
    kept: Kept,
    maker: &K,
    workers: u32,
    gate: &G,
) -> Result<Results, NoMemory>
where
    K::M: Send,
    <K::M as Compiler>::Common: Send,
    requires layout { layout ≡ K.M.shape (K.common_is maker.now) }
    requires kept { IsKept layout kept }
    requires workers { (0 < workers) × (workers ≤ 64) }
    ensures { IfOk result (λ r. IsRunOf layout (K.M.run (K.common_is maker.now)) (seeds_of kept) r) }
{
    let (about, board) = opened(alloc, layout, kept, maker)?;
    let mut board = worked(rt, alloc, &about, board, maker, workers as usize, gate)?;
    run_rest(alloc, &about, &mut board, maker, gate)?;
    finished(alloc, &about, board, maker)
}

/// A desk for a run, with its first seat and its first pass. Both have the key of the run. `NoMemory` only for want of
/// memory. Linear in the items and the pairs.
pub fn open_desk<K: Maker>(
    alloc: Global,
    layout: Shared<Layout>,
    kept: Kept,
    maker: &K,
) -> Result<(Desk<K::M>, Seat<K::M>, Pass<K::M>), NoMemory>
    requires layout { layout ≡ K.M.shape (K.common_is maker.now) }
    requires kept { IsKept layout kept }
    ensures seat { IfOk result (λ r. IsFirstSeat r.0.lock 0 r.1) }
    ensures pass { IfOk result (λ r. IsPassFor r.0.ready.id r.1.view.key r.2) }
    ensures key { IfOk result (λ r. r.1.view.key ≡ Some (record { common = K.common_is maker.now; lay = layout; kept = kept })) }
{
    let (about, board) = opened(alloc, layout, kept, maker)?;
    desk_over(alloc, &about, board)
}

/// The same over a board.
fn desk_over<M: Compiler>(
    alloc: Global,
    about: &Snapshot<Key<M>>,
    board: Board<M>,
) -> Result<(Desk<M>, Seat<M>, Pass<M>), NoMemory>
    requires { IsBoardFor M.run M.shape M.meaning about.now.value board }
    ensures seat { IfOk result (λ r. IsFirstSeat r.0.lock 0 r.1) }
    ensures pass { IfOk result (λ r. IsPassFor r.0.ready.id r.1.view.key r.2) }
    ensures key { IfOk result (λ r. r.1.view.key ≡ Some about.now.value) }
{
    let (lock, seat) = TurnLock::under(alloc, about, board)?;
    let (ready, pass) = Ready::under(alloc, about, PLACES)?;
    Ok((Desk { lock, ready }, seat, pass))
}

/// The board after the workers.
fn worked<K: Maker + Sync, G: Gate, R: Threads + Wait + Sync>(
    rt: &R,
    alloc: Global,
    about: &Snapshot<Key<K::M>>,
    board: Board<K::M>,
    maker: &K,
    workers: usize,
    gate: &G,
) -> Result<Board<K::M>, NoMemory>
where
    K::M: Send,
    <K::M as Compiler>::Common: Send,
    requires board { IsBoardFor K.M.run K.M.shape K.M.meaning about.now.value board }
    requires common { HasCommon about.now.value (K.common_is maker.now) }
    ensures { IfOk result (λ b. IsBoardFor K.M.run K.M.shape K.M.meaning about.now.value b) }
{
    let (desk, first_seat, first_pass) = desk_over(alloc, about, board)?;
    let mut seat = first_seat;
    let mut pass = first_pass;
    let jobs = hire(alloc, &desk, &mut seat, &mut pass, workers)?;
    let ends = run_jobs(rt, alloc, &desk, about, jobs, maker, gate)?;
    let memory = gather(&desk, &mut seat, ends);
    let Desk { lock, ready } = desk;
    let mut board = lock.close(seat);
    if !memory {
        return Err(NoMemory);
    }
    drain(rt, &ready, &mut pass, &mut board);
    Ok(board)
}

/// A seat and a pass for each worker.
fn hire<M: Compiler>(
    alloc: Global,
    desk: &Desk<M>,
    seat: &mut Seat<M>,
    pass: &mut Pass<M>,
    workers: usize,
) -> Result<Vec<Job<M>>, NoMemory>
    requires seat { IsFirstSeat desk.now.lock 0 seat.old }
    requires pass { IsPassFor desk.now.ready.id seat.old.view.key pass.old }
    ensures seat { IfOk result (λ v. IsFirstSeat desk.now.lock (length v.items) seat.new × (seat.new.view.key ≡ seat.old.view.key)) }
    ensures pass { IfOk result (λ v. IsPassFor desk.now.ready.id seat.old.view.key pass.new) }
    ensures jobs { IfOk result (λ v. All (λ j. IsSeatFor desk.now.lock seat.old.view.key j.seat × IsPassFor desk.now.ready.id seat.old.view.key j.pass) v.items) }
{
    let mut jobs = Vec::with_capacity(alloc, workers)?;
    while jobs.len() < workers {
        let ticket = desk.ready.split_pass(alloc, pass)?;
        let chair = desk.lock.split(seat);
        jobs.push_reserved(Job {
            seat: chair,
            pass: ticket,
        });
    }
    Ok(jobs)
}

/// Runs a worker in a thread of its own for each job, and waits for all of them.
fn run_jobs<K: Maker + Sync, G: Gate, R: Threads + Wait + Sync>(
    rt: &R,
    alloc: Global,
    desk: &Desk<K::M>,
    about: &Snapshot<Key<K::M>>,
    jobs: Vec<Job<K::M>>,
    maker: &K,
    gate: &G,
) -> Result<Vec<WorkerEnd<K::M>>, NoMemory>
where
    K::M: Send,
    <K::M as Compiler>::Common: Send,
    requires jobs { All (λ j. IsSeatFor desk.now.lock (Some about.now.value) j.seat × IsPassFor desk.now.ready.id (Some about.now.value) j.pass) jobs.items }
    requires common { HasCommon about.now.value (K.common_is maker.now) }
    ensures { IfOk result (λ v. (length v.items ≡ length jobs.items) × All (λ e. IsSeatFor desk.now.lock (Some about.now.value) e.seat) v.items) }
{
    let ends = thread::map_vec(
        rt,
        jobs,
        &|job: Job<K::M>| -> WorkerEnd<K::M>
            requires { IsSync R.row × IsSeatFor desk.now.lock (Some about.now.value) job.seat × IsPassFor desk.now.ready.id (Some about.now.value) job.pass × HasCommon about.now.value (K.common_is maker.now) }
            ensures { IsSeatFor desk.entry.now.lock (Some about.entry.now.value) result.seat }
        {
            let _about = about;
            worker(rt, alloc, desk, job.seat, job.pass, maker, gate)
        },
    )?;
    Ok(ends)
}

/// The seats come back. Whether no worker wanted memory.
fn gather<M: Compiler>(desk: &Desk<M>, seat: &mut Seat<M>, ends: Vec<WorkerEnd<M>>) -> bool
    requires seat { IsFirstSeat desk.now.lock (length ends.items) seat.old }
    requires ends { All (λ e. IsSeatFor desk.now.lock seat.old.view.key e.seat) ends.items }
    ensures seat { IsFirstSeat desk.now.lock 0 seat.new }
    ensures key { seat.new.view.key ≡ seat.old.view.key }
{
    let mut ends = ends;
    let mut memory = true;
    while let Some(end) = ends.pop() {
        let WorkerEnd {
            seat: theirs,
            pass: _,
            memory: had,
        } = end;
        desk.lock.join(seat, theirs);
        memory = memory && had;
    }
    memory
}

/// Puts the turns of the queue back on the board.
fn drain<M: Compiler, R: Wait>(rt: &R, ready: &Ready<M>, pass: &mut Pass<M>, board: &mut Board<M>)
    requires pass { pass.old.queue ≡ ready.now.id }
    requires board { IsLawfulFor (IsBoardFor M.run M.shape M.meaning) pass.old.view.key board.old }
    ensures pass { pass.new.view.key ≡ pass.old.view.key }
    ensures board { IsLawfulFor (IsBoardFor M.run M.shape M.meaning) pass.old.view.key board.new }
{
    for _ in rt.forever() {
        let Some(turn) = ready.pop(rt, pass) else {
            return;
        };
        put_turn_back(pass, board, turn);
    }
    unreachable!()
}
