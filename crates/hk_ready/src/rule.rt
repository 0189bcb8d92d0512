// The rule of a queue, and the kinds of step that keep it.
ghost use Rattle.std.specs.Prelude.{◌≡◌};
ghost use Rattle.hk_lock.specs.Lawful.{IsLawfulFor};
ghost use Rattle.hk_ready.specs.View.{after_split, split_from, after_push, after_pop};
ghost use Rattle.hk_ready.specs.Queued.{AgreesWith};

use crate::view::View;
use crossbeam_queue::protocol::{Lesson, Outcome, Protocol, Split};
use hk_lock::Lawful;
use std::marker::{Brand, PhantomData};

/// The rule of a queue: what it holds is lawful for the key of all passes, and a pass that is alone has pushed what it
/// popped and what the queue holds.
pub(crate) struct Queued<K> {
    of: PhantomData<K>,
}

impl<T: Lawful<K>, K> Protocol<T, View<K>> for Queued<K> {
    ghost use Rattle.hk_ready.specs.View.{unnamed};
    ghost use Rattle.hk_ready.specs.Queued.{IsQueueState};

    ghost holds = { IsQueueState T.is_lawful };

    ghost first = { unnamed };
}

/// The first pass gets its key. The call that makes the queue says which, by members of its own in place of these.
impl<K> Split<View<K>> for Brand {
    ghost left = { λ v. v };

    ghost right = { λ v. v };
}

/// A pass with the same key is split from another.
pub(crate) struct Twin;

impl<K> Split<View<K>> for Twin {
    ghost left = { after_split };

    ghost right = { split_from };
}

/// A value is pushed.
pub(crate) struct Push;

impl<T: Lawful<K>, K> Outcome<T, View<K>> for Push {
    ghost then = { λ v x w. w ≡ after_push v };
}

impl<T: Lawful<K>, K> Lesson<T, View<K>> for Push {
    ghost fact = { AgreesWith T.is_lawful };
}

/// The oldest value is popped.
pub(crate) struct Pop;

impl<T: Lawful<K>, K> Outcome<T, View<K>> for Pop {
    ghost then = { λ v x w. (w ≡ after_pop v) × IsLawfulFor T.is_lawful v.key x };
}

impl<T: Lawful<K>, K> Lesson<T, View<K>> for Pop {
    ghost fact = { AgreesWith T.is_lawful };
}
