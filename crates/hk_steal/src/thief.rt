// A thief's end of a deque.
ghost use Rattle.std.specs.Prelude.{◌≡◌, ◌-◌, ◌<◌, true, is_some, IfOk, IfErr, IfSome, IfNone};
ghost use Rattle.crossbeam_deque.specs.Handles.{view, IsPassOf, stealer_deque, stealer_flavor};
ghost use Rattle.hk_lock.specs.Lawful.{IsLawfulFor};
ghost use Rattle.hk_steal.specs.Decked.{FoundEmpty};

use crate::rule::{Decked, Take};
use crate::view::View;
use crossbeam_deque::{Steal, Stealer};
use hk_base::NoMemory;
use hk_lock::Lawful;
use std::alloc::Global;
use std::marker::Model;
use std::sync::Wait;

pub(crate) type Pass<T, K> = crossbeam_deque::Pass<T, View<K>, Global>;

pub(crate) type Handle<T, K> = Stealer<T, Global, View<K>, Decked<K>>;

/// A thief's end of a deque, with which one thread takes tasks. A clause sees which deque it is, its key, and how many
/// thieves can still be split from this one.
#[derive(Drop)]
pub struct Thief<T: Lawful<K>, K> {
    pub(crate) handle: Handle<T, K>,
    pub(crate) pass: Pass<T, K>,
    pub(crate) spare: Vec<Pass<T, K>>,
}

impl<T: Lawful<K>, K> Model for Thief<T, K> {
    ghost use Rattle.std.specs.Prelude.{◌≡◌, length, All};
    ghost use Rattle.crossbeam_deque.specs.Handles.{stealer_deque, stealer_flavor};
    ghost use Rattle.hk_steal.specs.View.{ThiefView, IsEnd};

    ghost Value = { ThiefView K };

    ghost view = { λ t. record { deck = stealer_deque t.handle; key = t.pass.me.view.client.key; spare = length t.spare.items } };

    ghost invariant = { λ t. (stealer_flavor t.handle ≡ 0) × IsEnd (stealer_deque t.handle) t.pass.me.view.client.key t.pass × All (IsEnd (stealer_deque t.handle) t.pass.me.view.client.key) t.spare.items };
}

impl<T: Lawful<K> + Drop, K> Thief<T, K> {
    /// A further thief of the same deque with the same key, for another thread. None can be split from that one. It doesn't
    /// wait. `NoMemory` only for want of memory; this thief is then as before. Constant.
    pub fn split(&mut self, alloc: Global) -> Result<Thief<T, K>, NoMemory>
        requires { 0 < self.old.spare }
        ensures same { (self.new.deck ≡ self.old.deck) × (self.new.key ≡ self.old.key) }
        ensures split { IfOk result (λ t. (t.deck ≡ self.old.deck) × (t.key ≡ self.old.key) × (t.spare ≡ 0) × (self.new.spare ≡ self.old.spare - 1)) }
        ensures refused { IfErr result (λ _. self.new ≡ self.old) }
    {
        let handle = self.handle.clone()?;
        let Some(pass) = self.spare.pop() else {
            unreachable!()
        };
        Ok(Thief {
            handle,
            pass,
            spare: Vec::new(alloc),
        })
    }

    /// Takes the oldest task, which is lawful for the thief's key, and tries again where another thread was in the way. None
    /// only where the deque was empty at some moment of the call. It takes no memory, and may wait for the threads that are in
    /// the way. Constant, but for the waiting.
    pub fn steal<R: Wait>(&mut self, rt: &R) -> Option<T>
        ensures same { self.new ≡ self.old }
        ensures stolen { IfSome result (λ task. IsLawfulFor T.is_lawful self.old.key task) }
        ensures none { IfNone result (FoundEmpty T.is_lawful self.old.key) }
    {
        taken(rt, &self.handle, &mut self.pass)
    }
}

/// Takes the oldest task, and tries again where another thread was in the way.
fn taken<T: Lawful<K>, K, R: Wait>(
    rt: &R,
    handle: &Handle<T, K>,
    pass: &mut Pass<T, K>,
) -> Option<T>
    requires first_in_first_out { stealer_flavor handle.now ≡ 0 }
    requires pass { IsPassOf (stealer_deque handle.now) pass.old × (is_some (view pass.old).key ≡ true) }
    ensures pass { IsPassOf (stealer_deque handle.now) pass.new × (view pass.new ≡ view pass.old) }
    ensures taken { IfSome result (λ task. IsLawfulFor T.is_lawful (view pass.old).key task) }
    ensures none { IfNone result (FoundEmpty T.is_lawful (view pass.old).key) }
{
    for _ in rt.forever() {
        match handle.steal_as::<Take>(pass) {
            Steal::Success(task) => return Some(task),
            Steal::Empty => return None,
            Steal::Retry => {}
        }
    }
    unreachable!()
}
