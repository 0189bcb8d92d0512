// A seat of a turn lock.
use crate::view::View;
use std::marker::Model;

/// A seat of a turn lock, with which one thread takes the turn. It has no bytes.
#[derive(Drop)]
pub struct Seat<B, K> {
    pub(crate) place: atomic_table::Seat<Option<B>, View<K>>,
}

impl<B, K> Model for Seat<B, K> {
    ghost use Rattle.hk_lock.specs.View.{SeatView};
    ghost use Rattle.hk_lock.specs.Turns.{HoldsItsSlot};

    ghost Value = { SeatView K };

    ghost view = { λ s. record { lock = s.place.table_id; view = s.place.me.0 } };

    ghost invariant = { λ s. HoldsItsSlot s.place.me };
}
