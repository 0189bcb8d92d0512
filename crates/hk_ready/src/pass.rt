// A pass of a queue.
use crate::view::View;
use std::marker::Model;

/// A pass of a queue, with which one thread pushes and pops. It has no bytes.
#[derive(Drop)]
pub struct Pass<T, K> {
    pub(crate) ticket: crossbeam_queue::Pass<T, View<K>>,
}

impl<T, K> Model for Pass<T, K> {
    ghost use Rattle.std.specs.Prelude.{◌≡◌, [], true, is_some};
    ghost use Rattle.hk_ready.specs.View.{PassView};

    ghost Value = { PassView K };

    ghost view = { λ p. record { queue = p.ticket.table_id; view = p.ticket.me.0.client } };

    ghost invariant = { λ p. (p.ticket.me.1 ≡ []) × (is_some p.ticket.me.0.client.key ≡ true) };
}
