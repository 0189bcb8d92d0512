// One worker.
ghost use Rattle.std.specs.Prelude.{◌≡◌, IfOk, IfSome};
ghost use Rattle.hk_lock.specs.Lawful.{IsLawfulFor};
ghost use Rattle.hk_lock.specs.View.{IsIdle};
ghost use Rattle.hk_workers.specs.Working.{IsBoardFor, IsTurnFor, IsPlay, HasPolled, HasCommon, GoesOn};

use crate::desk::{Desk, Pass, Seat, WorkerEnd};
use crate::key::Key;
use crate::step::{Next, begin, next_turn, poll, put_turn_back, settle};
use hk_base::NoMemory;
use hk_fix::{Compiler, Maker, Polled};
use hk_lock::TurnLock;
use hk_outside::Gate;
use hk_sched::{Board, Turn};
use std::alloc::Global;
use std::sync::Wait;

/// Takes turns and runs their compilers, until it finds nothing ready or wants memory. A compiler is made and polled without
/// the board, and the gate is told before each poll and after its answer was laid on the board. It may wait for other seats
/// and passes. The seat comes back with the view that it had, and the pass with the same key. Linear in what it is handed,
/// but for the waiting and the compilers' own work.
pub fn worker<K: Maker, G: Gate, R: Wait>(
    rt: &R,
    alloc: Global,
    desk: &Desk<K::M>,
    seat: Seat<K::M>,
    pass: Pass<K::M>,
    maker: &K,
    gate: &G,
) -> WorkerEnd<K::M>
    requires seat { (seat.lock ≡ desk.now.lock) × IsIdle seat.view }
    requires pass { (pass.queue ≡ desk.now.ready.id) × (pass.view.key ≡ seat.view.key) }
    requires common { IsLawfulFor HasCommon seat.view.key (K.common_is maker.now) }
    ensures seat { (result.seat.lock ≡ desk.now.lock) × (result.seat.view ≡ seat.view) }
    ensures pass { (result.pass.queue ≡ desk.now.ready.id) × (result.pass.view.key ≡ seat.view.key) }
{
    let mut seat = seat;
    let mut pass = pass;
    let memory = work(rt, alloc, desk, &mut seat, &mut pass, maker, gate).is_ok();
    WorkerEnd { seat, pass, memory }
}

fn work<K: Maker, G: Gate, R: Wait>(
    rt: &R,
    alloc: Global,
    desk: &Desk<K::M>,
    seat: &mut Seat<K::M>,
    pass: &mut Pass<K::M>,
    maker: &K,
    gate: &G,
) -> Result<(), NoMemory>
    requires seat { (seat.old.lock ≡ desk.now.lock) × IsIdle seat.old.view }
    requires pass { (pass.old.queue ≡ desk.now.ready.id) × (pass.old.view.key ≡ seat.old.view.key) }
    requires common { IsLawfulFor HasCommon seat.old.view.key (K.common_is maker.now) }
    ensures seat { (seat.new.lock ≡ desk.now.lock) × (seat.new.view ≡ seat.old.view) }
    ensures pass { (pass.new.queue ≡ desk.now.ready.id) × (pass.new.view.key ≡ seat.old.view.key) }
{
    for _ in rt.forever() {
        let Some(turn) = find_turn(rt, desk, seat, pass)? else {
            return Ok(());
        };
        run_turn(rt, alloc, &desk.lock, seat, turn, maker, gate)?;
    }
    unreachable!()
}

/// A turn from the queue, and else from the board.
fn find_turn<M: Compiler, R: Wait>(
    rt: &R,
    desk: &Desk<M>,
    seat: &mut Seat<M>,
    pass: &mut Pass<M>,
) -> Result<Option<Turn<M>>, NoMemory>
    requires seat { (seat.old.lock ≡ desk.now.lock) × IsIdle seat.old.view }
    requires pass { (pass.old.queue ≡ desk.now.ready.id) × (pass.old.view.key ≡ seat.old.view.key) }
    ensures seat { (seat.new.lock ≡ desk.now.lock) × (seat.new.view ≡ seat.old.view) }
    ensures pass { (pass.new.queue ≡ desk.now.ready.id) × (pass.new.view.key ≡ seat.old.view.key) }
    ensures turn { IfOk result (λ t. IfSome t (λ u. IsLawfulFor (IsTurnFor M.run M.shape M.meaning) seat.old.view.key u)) }
{
    if let Some(turn) = desk.ready.pop(rt, pass) {
        return Ok(Some(turn));
    }
    let mut board = desk.lock.take(rt, seat);
    let found = fetch(rt, desk, seat, pass, &mut board);
    desk.lock.give_back(seat, board);
    found
}

/// The first turn of the board, which hands all others to the queue; where it has none, one of the queue.
fn fetch<M: Compiler, R: Wait>(
    rt: &R,
    desk: &Desk<M>,
    seat: &Seat<M>,
    pass: &mut Pass<M>,
    board: &mut Board<M>,
) -> Result<Option<Turn<M>>, NoMemory>
    requires board { IsLawfulFor (IsBoardFor M.run M.shape M.meaning) seat.now.view.key board.old }
    requires pass { (pass.old.queue ≡ desk.now.ready.id) × (pass.old.view.key ≡ seat.now.view.key) }
    ensures board { IsLawfulFor (IsBoardFor M.run M.shape M.meaning) seat.now.view.key board.new }
    ensures pass { (pass.new.queue ≡ desk.now.ready.id) × (pass.new.view.key ≡ seat.now.view.key) }
    ensures turn { IfOk result (λ t. IfSome t (λ u. IsLawfulFor (IsTurnFor M.run M.shape M.meaning) seat.now.view.key u)) }
{
    let Some(turn) = next_turn(seat, board)? else {
        return Ok(desk.ready.pop(rt, pass));
    };
    share(rt, desk, seat, pass, board)?;
    Ok(Some(turn))
}

/// Hands what stands ready to the queue, as long as it has room.
fn share<M: Compiler, R: Wait>(
    rt: &R,
    desk: &Desk<M>,
    seat: &Seat<M>,
    pass: &mut Pass<M>,
    board: &mut Board<M>,
) -> Result<(), NoMemory>
    requires board { IsLawfulFor (IsBoardFor M.run M.shape M.meaning) seat.now.view.key board.old }
    requires pass { (pass.old.queue ≡ desk.now.ready.id) × (pass.old.view.key ≡ seat.now.view.key) }
    ensures board { IsLawfulFor (IsBoardFor M.run M.shape M.meaning) seat.now.view.key board.new }
    ensures pass { (pass.new.queue ≡ desk.now.ready.id) × (pass.new.view.key ≡ seat.now.view.key) }
{
    for _ in rt.forever() {
        let Some(turn) = next_turn(seat, board)? else {
            return Ok(());
        };
        if let Err(turn) = desk.ready.push(rt, pass, turn) {
            put_turn_back(seat, board, turn);
            return Ok(());
        }
    }
    unreachable!()
}

/// Runs the compiler of a turn.
pub fn run_turn<K: Maker, G: Gate, R: Wait>(
    rt: &R,
    alloc: Global,
    lock: &TurnLock<Board<K::M>, Key<K::M>>,
    seat: &mut Seat<K::M>,
    turn: Turn<K::M>,
    maker: &K,
    gate: &G,
) -> Result<(), NoMemory>
    requires seat { (seat.old.lock ≡ lock.now) × IsIdle seat.old.view }
    requires turn { IsLawfulFor (IsTurnFor K.M.run K.M.shape K.M.meaning) seat.old.view.key turn }
    requires common { IsLawfulFor HasCommon seat.old.view.key (K.common_is maker.now) }
    ensures seat { (seat.new.lock ≡ lock.now) × (seat.new.view ≡ seat.old.view) }
{
    let machine = begin(alloc, seat, turn, maker)?;
    play(rt, alloc, lock, seat, machine, gate)
}

/// Polls a compiler until it has ended or is parked, or the board doesn't admit it any more.
fn play<M: Compiler, G: Gate, R: Wait>(
    rt: &R,
    alloc: Global,
    lock: &TurnLock<Board<M>, Key<M>>,
    seat: &mut Seat<M>,
    first: M,
    gate: &G,
) -> Result<(), NoMemory>
    requires seat { (seat.old.lock ≡ lock.now) × IsIdle seat.old.view }
    requires play { IsLawfulFor (IsPlay M.run M.shape) seat.old.view.key (M.meaning first) }
    ensures seat { (seat.new.lock ≡ lock.now) × (seat.new.view ≡ seat.old.view) }
{
    let item = first.item().0;
    let mut machine = first;
    for _ in rt.forever() {
        gate.enter(item);
        let next = match poll(alloc, seat, &mut machine) {
            Ok(polled) => lay(rt, lock, seat, machine, polled),
            Err(_) => Next::NoMemory(machine),
        };
        gate.leave(item);
        match next {
            Next::On(back) => machine = back,
            Next::NoMemory(_) => return Err(NoMemory),
            _ => return Ok(()),
        }
    }
    unreachable!()
}

/// Lays what a compiler answered on the board.
fn lay<M: Compiler, R: Wait>(
    rt: &R,
    lock: &TurnLock<Board<M>, Key<M>>,
    seat: &mut Seat<M>,
    machine: M,
    polled: Polled,
) -> Next<M>
    requires seat { (seat.old.lock ≡ lock.now) × IsIdle seat.old.view }
    requires polled { IsLawfulFor (λ key n. HasPolled M.run M.shape key polled n) seat.old.view.key (M.meaning machine) }
    ensures seat { (seat.new.lock ≡ lock.now) × (seat.new.view ≡ seat.old.view) }
    ensures next { GoesOn (λ m. IsLawfulFor (IsPlay M.run M.shape) seat.old.view.key (M.meaning m)) result }
{
    let mut board = lock.take(rt, seat);
    let next = settle(seat, &mut board, machine, polled);
    lock.give_back(seat, board);
    next
}
