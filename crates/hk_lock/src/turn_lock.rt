// The lock.
ghost use Rattle.std.specs.Prelude.{◌≡◌, true, false, is_some, IfOk};
ghost use Rattle.hk_lock.specs.Lawful.{IsLawfulFor};
ghost use Rattle.hk_lock.specs.View.{first_view, after_split, split_from, after_join, after_take, after_give_back};
ghost use Rattle.hk_lock.specs.Turns.{HasTaken};

use crate::lawful::Lawful;
use crate::rule::{Lend, Release, Return, Try, Turns};
use crate::seat::Seat;
use crate::view::View;
use atomic_table::Table;
use hk_base::NoMemory;
use std::alloc::Global;
use std::marker::Model;
use std::snapshot::Snapshot;
use std::sync::Wait;

/// A board that seats take in turn, at each moment one at most. A clause sees which lock it is.
#[derive(Drop)]
pub struct TurnLock<B: Lawful<K>, K> {
    table: Table<Option<B>, View<K>, Snapshot<K>, Turns<B, K>, Global>,
}

impl<B: Lawful<K>, K> Model for TurnLock<B, K> {
    ghost use Rattle.std.specs.Prelude.{◌≡◌};
    ghost use Rattle.atomic_table.specs.Seated.{TableId};

    ghost Value = { TableId };

    ghost view = { λ l. l.table.shared.table_id };

    ghost invariant = { λ l. (l.table.shared.table_id.words ≡ 1) × (l.table.shared.table_id.slots ≡ 1) };
}

impl<B: Lawful<K>, K> TurnLock<B, K> {
    /// A lock round a board that is lawful for the key, and its first seat. `NoMemory` only for want of memory; the board
    /// is then dropped. Constant.
    pub fn new(alloc: Global, key: K, board: B) -> Result<(TurnLock<B, K>, Seat<B, K>), NoMemory>
    where
        B: Drop,
        K: Drop,
        requires { B.is_lawful key board }
        ensures { IfOk result (λ r. (r.1.lock ≡ r.0) × (r.1.view ≡ first_view key)) }
    {
        TurnLock::under(alloc, &Snapshot::of(&key), board)
    }

    /// The same by a snapshot of the key, so that the key's own value may have become a part of the board, or be gone.
    pub fn under(
        alloc: Global,
        key: &Snapshot<K>,
        board: B,
    ) -> Result<(TurnLock<B, K>, Seat<B, K>), NoMemory>
    where
        B: Drop,
        requires { B.is_lawful key.now.value board }
        ensures { IfOk result (λ r. (r.1.lock ≡ r.0) × (r.1.view ≡ first_view key.now.value)) }
    {
        let mut slots = Vec::with_capacity(alloc, 1)?;
        slots.push_reserved(Some(board));
        match Table::new(alloc, &[0], slots, key) {
            Ok((table, place)) => Ok((TurnLock { table }, Seat { place })),
            Err(_) => Err(NoMemory),
        }
    }

    /// A further seat with the same key, for another thread. It takes no memory and doesn't wait. Constant.
    pub fn split(&self, seat: &mut Seat<B, K>) -> Seat<B, K>
        requires lock { seat.old.lock ≡ self.now }
        requires first { seat.old.view.is_first ≡ true }
        requires idle { seat.old.view.has_turn ≡ false }
        ensures lock { (seat.new.lock ≡ self.now) × (result.lock ≡ self.now) }
        ensures seat { seat.new.view ≡ after_split seat.old.view }
        ensures split { result.view ≡ split_from seat.old.view }
    {
        let place = self.table.shared.split_seat::<Lend>(&mut seat.place);
        Seat { place }
    }

    /// A seat that was split comes back to the first one. It takes no memory and doesn't wait. Constant.
    pub fn join(&self, seat: &mut Seat<B, K>, other: Seat<B, K>)
        requires lock { (seat.old.lock ≡ self.now) × (other.lock ≡ self.now) }
        requires first { seat.old.view.is_first ≡ true }
        requires idle { (seat.old.view.has_turn ≡ false) × (other.view.has_turn ≡ false) }
        ensures lock { seat.new.lock ≡ self.now }
        ensures seat { seat.new.view ≡ after_join seat.old.view }
    {
        let Seat { place } = other;
        let shared = &self.table.shared;
        shared.join_seat::<Return>(&mut seat.place, place);
    }

    /// Waits for the turn, and takes the board, which is lawful for the seat's key. It takes no memory. Constant, but for
    /// the waiting.
    pub fn take<R: Wait>(&self, rt: &R, seat: &mut Seat<B, K>) -> B
        requires lock { seat.old.lock ≡ self.now }
        requires idle { seat.old.view.has_turn ≡ false }
        ensures lock { seat.new.lock ≡ self.now }
        ensures seat { seat.new.view ≡ after_take seat.old.view }
        ensures lawful { IsLawfulFor B.is_lawful seat.old.view.key result }
    {
        self.win(rt, &mut seat.place);
        match self.table.shared.exchange(&mut seat.place, 0, None) {
            Some(board) => board,
            None => unreachable!(),
        }
    }

    // Waits for the turn. The slot is then out with the seat, and a lawful board lies in it.
    fn win<R: Wait>(&self, rt: &R, place: &mut atomic_table::Seat<Option<B>, View<K>>)
        requires lock { place.old.table_id ≡ self.now }
        requires idle { (place.old.me.0.has_turn ≡ false) × (is_some place.old.me.0.key ≡ true) }
        ensures lock { (place.new.table_id ≡ place.old.table_id) × (place.new.id ≡ place.old.id) }
        ensures taken { HasTaken B.is_lawful place.old.me place.new.me }
    {
        let shared = &self.table.shared;
        for _ in rt.forever() {
            if shared.compare_exchange::<Try>(place, 0, 0, 1) == 0 {
                return;
            }
            shared.park(rt, 0, 1);
        }
        unreachable!()
    }

    /// Lays the board, which has to be lawful, gives up the turn and wakes one that waits. It takes no memory and doesn't
    /// wait. Constant.
    pub fn give_back(&self, seat: &mut Seat<B, K>, board: B)
        requires lock { seat.old.lock ≡ self.now }
        requires turn { seat.old.view.has_turn ≡ true }
        requires lawful { IsLawfulFor B.is_lawful seat.old.view.key board }
        ensures lock { seat.new.lock ≡ self.now }
        ensures seat { seat.new.view ≡ after_give_back seat.old.view }
    {
        let shared = &self.table.shared;
        let slot = shared.exchange(&mut seat.place, 0, Some(board));
        let None = slot else { unreachable!() };
        shared.swap::<Release>(&mut seat.place, 0, 0);
        shared.wake_one(0);
    }

    /// The board, which is lawful for the seat's key, once every other seat has come back. It takes no memory and doesn't
    /// wait. Constant.
    pub fn close(self, seat: Seat<B, K>) -> B
        requires lock { seat.lock ≡ self }
        requires first { seat.view.is_first ≡ true }
        requires alone { seat.view.lent ≡ 0 }
        requires idle { seat.view.has_turn ≡ false }
        ensures { IsLawfulFor B.is_lawful seat.view.key result }
    {
        let TurnLock { table } = self;
        let Seat { place } = seat;
        let mut closed = table.close_with(place);
        let slot = closed.take(0);
        closed.free();
        match slot {
            Some(board) => board,
            None => unreachable!(),
        }
    }
}
