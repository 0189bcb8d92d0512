// One worker with a deque of its own, which steals from the others.
ghost use Rattle.std.specs.Prelude.{◌≡◌, IfOk, IfSome, All};
ghost use Rattle.hk_lock.specs.Lawful.{IsLawfulFor};
ghost use Rattle.hk_lock.specs.View.{IsIdle};
ghost use Rattle.hk_workers.specs.Working.{IsBoardFor, IsTurnFor, HasCommon};

use crate::deques::{Owner, StealEnd, Thief};
use crate::desk::{HasKey, Seat};
use crate::key::Key;
use crate::step::{next_turn, put_turn_back};
use crate::working::run_turn;
use hk_base::NoMemory;
use hk_fix::{Compiler, Maker};
use hk_lock::TurnLock;
use hk_outside::Gate;
use hk_sched::{Board, Turn};
use std::alloc::Global;
use std::sync::Wait;

/// Takes turns from its own deque, from the deques of others and from the board, and runs their compilers, until it finds
/// none or wants memory. A compiler is made and polled without the board, and the gate is told before each poll and after its
/// answer was laid on the board. It may wait for other seats and thieves. The seat comes back with the view that it had, and
/// the owner and the thieves with their deques and the same key. Linear in what it is handed and, for each turn, in the
/// others, but for the waiting and the compilers' own work.
pub fn steal_worker<K: Maker, G: Gate, R: Wait>(
    rt: &R,
    alloc: Global,
    lock: &TurnLock<Board<K::M>, Key<K::M>>,
    seat: Seat<K::M>,
    own: Owner<K::M>,
    others: Vec<Thief<K::M>>,
    maker: &K,
    gate: &G,
) -> StealEnd<K::M>
    requires seat { (seat.lock ≡ lock.now) × IsIdle seat.view }
    requires own { own.key ≡ seat.view.key }
    requires others { All (λ t. t.key ≡ seat.view.key) others.items }
    requires common { IsLawfulFor HasCommon seat.view.key (K.common_is maker.now) }
    ensures seat { (result.seat.lock ≡ lock.now) × (result.seat.view ≡ seat.view) }
    ensures own { (result.own.deck ≡ own.deck) × (result.own.key ≡ seat.view.key) }
    ensures others { result.others.items ≡ others.items }
{
    let mut seat = seat;
    let mut own = own;
    let mut others = others;
    let memory = work_by(
        rt,
        alloc,
        lock,
        &mut seat,
        &mut own,
        &mut others,
        maker,
        gate,
    )
    .is_ok();
    StealEnd {
        seat,
        own,
        others,
        memory,
    }
}

fn work_by<K: Maker, G: Gate, R: Wait>(
    rt: &R,
    alloc: Global,
    lock: &TurnLock<Board<K::M>, Key<K::M>>,
    seat: &mut Seat<K::M>,
    own: &mut Owner<K::M>,
    others: &mut Vec<Thief<K::M>>,
    maker: &K,
    gate: &G,
) -> Result<(), NoMemory>
    requires seat { (seat.old.lock ≡ lock.now) × IsIdle seat.old.view }
    requires own { own.old.key ≡ seat.old.view.key }
    requires others { All (λ t. t.key ≡ seat.old.view.key) others.old.items }
    requires common { IsLawfulFor HasCommon seat.old.view.key (K.common_is maker.now) }
    ensures seat { (seat.new.lock ≡ lock.now) × (seat.new.view ≡ seat.old.view) }
    ensures own { (own.new.deck ≡ own.old.deck) × (own.new.key ≡ seat.old.view.key) }
    ensures others { others.new.items ≡ others.old.items }
{
    for _ in rt.forever() {
        let Some(turn) = find_task(rt, lock, seat, own, others)? else {
            return Ok(());
        };
        run_turn(rt, alloc, lock, seat, turn, maker, gate)?;
    }
    unreachable!()
}

/// A turn from the worker's own deque, else from another's, and else from the board.
fn find_task<M: Compiler, R: Wait>(
    rt: &R,
    lock: &TurnLock<Board<M>, Key<M>>,
    seat: &mut Seat<M>,
    own: &mut Owner<M>,
    others: &mut Vec<Thief<M>>,
) -> Result<Option<Turn<M>>, NoMemory>
    requires seat { (seat.old.lock ≡ lock.now) × IsIdle seat.old.view }
    requires own { own.old.key ≡ seat.old.view.key }
    requires others { All (λ t. t.key ≡ seat.old.view.key) others.old.items }
    ensures seat { (seat.new.lock ≡ lock.now) × (seat.new.view ≡ seat.old.view) }
    ensures own { (own.new.deck ≡ own.old.deck) × (own.new.key ≡ seat.old.view.key) }
    ensures others { others.new.items ≡ others.old.items }
    ensures turn { IfOk result (λ t. IfSome t (λ u. IsLawfulFor (IsTurnFor M.run M.shape M.meaning) seat.old.view.key u)) }
{
    if let Some(turn) = own.pop() {
        return Ok(Some(turn));
    }
    if let Some(turn) = rob(rt, seat, others) {
        return Ok(Some(turn));
    }
    let mut board = lock.take(rt, seat);
    let found = fetch_own(rt, seat, own, others, &mut board);
    lock.give_back(seat, board);
    found
}

/// The first turn of the board, which hands all others to the worker's own deque; where it has none, one of another deque.
fn fetch_own<M: Compiler, R: Wait>(
    rt: &R,
    seat: &Seat<M>,
    own: &mut Owner<M>,
    others: &mut Vec<Thief<M>>,
    board: &mut Board<M>,
) -> Result<Option<Turn<M>>, NoMemory>
    requires board { IsLawfulFor (IsBoardFor M.run M.shape M.meaning) seat.now.view.key board.old }
    requires own { own.old.key ≡ seat.now.view.key }
    requires others { All (λ t. t.key ≡ seat.now.view.key) others.old.items }
    ensures board { IsLawfulFor (IsBoardFor M.run M.shape M.meaning) seat.now.view.key board.new }
    ensures own { (own.new.deck ≡ own.old.deck) × (own.new.key ≡ seat.now.view.key) }
    ensures others { others.new.items ≡ others.old.items }
    ensures turn { IfOk result (λ t. IfSome t (λ u. IsLawfulFor (IsTurnFor M.run M.shape M.meaning) seat.now.view.key u)) }
{
    let Some(turn) = next_turn(seat, board)? else {
        return Ok(rob(rt, seat, others));
    };
    keep_rest(rt, seat, own, board)?;
    Ok(Some(turn))
}

/// Moves what stands ready to the worker's own deque, as long as it takes more.
fn keep_rest<M: Compiler, R: Wait>(
    rt: &R,
    seat: &Seat<M>,
    own: &mut Owner<M>,
    board: &mut Board<M>,
) -> Result<(), NoMemory>
    requires board { IsLawfulFor (IsBoardFor M.run M.shape M.meaning) seat.now.view.key board.old }
    requires own { own.old.key ≡ seat.now.view.key }
    ensures board { IsLawfulFor (IsBoardFor M.run M.shape M.meaning) seat.now.view.key board.new }
    ensures own { (own.new.deck ≡ own.old.deck) × (own.new.key ≡ seat.now.view.key) }
{
    for _ in rt.forever() {
        let Some(turn) = next_turn(seat, board)? else {
            return Ok(());
        };
        if let Err(turn) = own.push(turn) {
            put_turn_back(seat, board, turn);
            return Ok(());
        }
    }
    unreachable!()
}

/// The first turn that another worker's deque gives.
fn rob<M: Compiler, H: HasKey<M>, R: Wait>(
    rt: &R,
    holder: &H,
    others: &mut Vec<Thief<M>>,
) -> Option<Turn<M>>
    requires { All (λ t. t.key ≡ H.key_is holder.now) others.old.items }
    ensures others { others.new.items ≡ others.old.items }
    ensures turn { IfSome result (λ u. IsLawfulFor (IsTurnFor M.run M.shape M.meaning) (H.key_is holder.now) u) }
{
    let mut at = 0;
    while at < others.len() {
        if let Some(turn) = others[at].steal(rt) {
            return Some(turn);
        }
        at += 1;
    }
    None
}
