// The rule of a turn lock, and the kinds of step that keep it.
ghost use Rattle.hk_lock.specs.View.{spent_view, after_split, split_from, after_join};
ghost use Rattle.hk_lock.specs.Turns.{Tried, Released};

use crate::lawful::Lawful;
use crate::view::View;
use atomic_table::{Join, Play, Split, TableRule};
use std::marker::PhantomData;
use std::snapshot::Snapshot;

/// The rule of a turn lock: at word 0 a lawful board lies in the slot, and at word 1 one seat has it.
pub(crate) struct Turns<B, K> {
    of: PhantomData<(B, K)>,
}

impl<B: Lawful<K>, K> TableRule<Option<B>, View<K>, Snapshot<K>> for Turns<B, K> {
    ghost use Rattle.hk_lock.specs.View.{first_view};
    ghost use Rattle.hk_lock.specs.Turns.{IsLockState};

    ghost holds = { λ about. IsLockState B.is_lawful about.value };

    ghost first = { λ about. first_view about.value };
}

/// A seat takes the turn, and the slot with it, where the word is 0.
pub(crate) struct Try;

impl<B: Lawful<K>, K> Play<Option<B>, View<K>> for Try {
    ghost then = { Tried B.is_lawful };
}

/// A seat gives up the turn, and the slot with it.
pub(crate) struct Release;

impl<B, K> Play<Option<B>, View<K>> for Release {
    ghost then = { Released };
}

/// The first seat lends a seat.
pub(crate) struct Lend;

impl<K> Split<View<K>> for Lend {
    ghost left = { after_split };

    ghost right = { split_from };
}

/// A seat that was lent comes back to the first one.
pub(crate) struct Return;

impl<K> Join<View<K>> for Return {
    ghost both = { λ v w. after_join v };

    ghost spent = { spent_view };
}
