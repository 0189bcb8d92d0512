// The rule of a deque, and the kinds of step that keep it.
ghost use Rattle.std.specs.Prelude.{◌≡◌, All};
ghost use Rattle.hk_lock.specs.Lawful.{IsLawfulFor};
ghost use Rattle.hk_steal.specs.Decked.{FoundEmpty};

use crate::view::View;
use crossbeam_deque::protocol::{Outcome, Protocol, Split};
use hk_lock::Lawful;
use std::marker::{Brand, PhantomData};

/// The rule of a deque: all its ends have one key, and each task in it is lawful for that key.
pub(crate) struct Decked<K> {
    of: PhantomData<K>,
}

impl<T: Lawful<K>, K> Protocol<T, View<K>> for Decked<K> {
    ghost use Rattle.hk_steal.specs.View.{unnamed};
    ghost use Rattle.hk_steal.specs.Decked.{IsDeckState};

    ghost holds = { IsDeckState T.is_lawful };

    ghost first = { unnamed };

    ghost guest = { unnamed };
}

/// The owner gets its key, and the first thief with it. The call that makes the deque says which, by members of its own in
/// place of these.
impl<K> Split<View<K>> for Brand {
    ghost left = { λ v. v };

    ghost right = { λ v. v };
}

/// A thief with the owner's key comes.
pub(crate) struct Twin;

impl<K> Split<View<K>> for Twin {
    ghost left = { λ v. v };

    ghost right = { λ v. v };
}

/// A task is pushed.
pub(crate) struct Push;

impl<T, K> Outcome<T, View<K>> for Push {
    ghost then = { λ v xs w. w ≡ v };
}

/// A task is popped or stolen.
pub(crate) struct Take;

impl<T: Lawful<K>, K> Outcome<T, View<K>> for Take {
    ghost then = { λ v xs w. (w ≡ v) × All (IsLawfulFor T.is_lawful v.key) xs };

    ghost empty = { λ v. FoundEmpty T.is_lawful v.key };
}
