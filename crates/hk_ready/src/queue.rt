// The queue.
ghost use Rattle.std.specs.Prelude.{◌≡◌, ◌<◌, Ok, IfOk, OnOk, IfErr, IfSome, IfNone};
ghost use Rattle.crossbeam_queue.specs.Fifo.{Held};
ghost use Rattle.crossbeam_queue.specs.Passes.{view, IsPassOf};
ghost use Rattle.hk_lock.specs.Lawful.{IsLawfulFor};
ghost use Rattle.hk_ready.specs.declared.view.View.{View};
ghost use Rattle.hk_ready.specs.View.{unnamed, spent_view, first_view, after_split, split_from, after_push, after_pop};
ghost use Rattle.hk_ready.specs.Queued.{AgreesWith};

use crate::pass::Pass;
use crate::rule::{Pop, Push, Queued, Twin};
use crate::view::View;
use crossbeam_queue::RuledArrayQueue;
use crossbeam_queue::protocol::Split;
use hk_base::NoMemory;
use hk_lock::Lawful;
use std::alloc::Global;
use std::marker::{Brand, Model};
use std::snapshot::Snapshot;
use std::sync::Wait;

type Ring<T, K> = RuledArrayQueue<T, View<K>, Queued<K>>;

/// A bounded queue of values that are lawful for the key of its passes. A clause sees which queue it is, and its capacity.
#[derive(Drop)]
pub struct Queue<T: Lawful<K>, K> {
    ring: Ring<T, K>,
}

impl<T: Lawful<K>, K> Model for Queue<T, K> {
    ghost use Rattle.crossbeam_queue.specs.Passes.{ruled_capacity};
    ghost use Rattle.hk_ready.specs.View.{QueueView};

    ghost Value = { QueueView };

    ghost view = { λ q. record { id = q.ring.table.shared.table_id; capacity = ruled_capacity q.ring } };
}

// Names the first pass of a queue.
fn name<T: Lawful<K>, K, S: Split<View<K>>>(
    ring: &Ring<T, K>,
    ticket: &mut crossbeam_queue::Pass<T, View<K>>,
    key: &Snapshot<K>,
)
    requires queue { IsPassOf ring.now ticket.old × (view ticket.old ≡ unnamed) }
    requires left { (v : View K) → S.left v ≡ first_view key.now.value }
    requires right { (v : View K) → S.right v ≡ spent_view }
    ensures queue { IsPassOf ring.now ticket.new }
    ensures named { view ticket.new ≡ first_view key.now.value }
{
    let _spent = ring.another::<S>(ticket);
}

impl<T: Lawful<K>, K> Queue<T, K> {
    /// An empty queue for so many values, and its first pass. `NoMemory` only for want of memory. Linear in the capacity.
    pub fn new(
        alloc: Global,
        key: K,
        capacity: usize,
    ) -> Result<(Queue<T, K>, Pass<T, K>), NoMemory>
    where
        T: Drop,
        K: Drop,
        requires { 0 < capacity }
        ensures { IfOk result (λ r. (r.0.capacity ≡ capacity) × (r.1.queue ≡ r.0.id) × (r.1.view ≡ first_view key)) }
    {
        Queue::under(alloc, &Snapshot::of(&key), capacity)
    }

    /// The same by a snapshot of the key, so that the key's own value may be elsewhere, or gone.
    pub fn under(
        alloc: Global,
        key: &Snapshot<K>,
        capacity: usize,
    ) -> Result<(Queue<T, K>, Pass<T, K>), NoMemory>
    where
        T: Drop,
        requires { 0 < capacity }
        ensures { IfOk result (λ r. (r.0.capacity ≡ capacity) × (r.1.queue ≡ r.0.id) × (r.1.view ≡ first_view key.now.value)) }
    {
        let (ring, mut ticket) = Ring::ruled(alloc, capacity)?;
        name::<T, K, Brand>(&ring, &mut ticket, key);
        Ok((Queue { ring }, Pass { ticket }))
    }

    /// A further pass with the same key, for another thread. A pass has no bytes: the answer is never `NoMemory`, and the
    /// allocator isn't asked. It doesn't wait. Constant.
    pub fn split_pass(&self, alloc: Global, pass: &mut Pass<T, K>) -> Result<Pass<T, K>, NoMemory>
        requires { pass.old.queue ≡ self.now.id }
        ensures pass { (pass.new.queue ≡ self.now.id) × (pass.new.view ≡ after_split pass.old.view) }
        ensures split { result ≡ Ok (record { queue = self.now.id; view = split_from pass.old.view }) }
    {
        let _ = alloc;
        let ticket = self.ring.another::<Twin>(&mut pass.ticket);
        Ok(Pass { ticket })
    }

    /// Adds a value that is lawful for the pass's key. It comes back only where the queue was full at some moment of the
    /// call: it then held `capacity` values that agree with what the pass knows. It takes no memory, and may wait for a pop
    /// that another thread has begun. Constant, but for the waiting.
    pub fn push<R: Wait>(&self, rt: &R, pass: &mut Pass<T, K>, value: T) -> Result<(), T>
        requires queue { pass.old.queue ≡ self.now.id }
        requires lawful { IsLawfulFor T.is_lawful pass.old.view.key value }
        ensures queue { pass.new.queue ≡ self.now.id }
        ensures pushed { OnOk result (pass.new.view ≡ after_push pass.old.view) }
        ensures back { IfErr result (λ x. (x ≡ value) × (pass.new.view ≡ pass.old.view) × Held self.now.capacity (AgreesWith T.is_lawful pass.old.view)) }
    {
        self.ring.push_as::<Push, R>(rt, &mut pass.ticket, value)
    }

    /// Takes the oldest value, which is lawful for the pass's key. None only where the queue was empty at some moment of the
    /// call: a pass that is alone has then popped as many values as it pushed. It takes no memory, and may wait for a push
    /// that another thread has begun. Constant, but for the waiting.
    pub fn pop<R: Wait>(&self, rt: &R, pass: &mut Pass<T, K>) -> Option<T>
        requires queue { pass.old.queue ≡ self.now.id }
        ensures queue { pass.new.queue ≡ self.now.id }
        ensures popped { IfSome result (λ x. (pass.new.view ≡ after_pop pass.old.view) × IsLawfulFor T.is_lawful pass.old.view.key x) }
        ensures none { IfNone result ((pass.new.view ≡ pass.old.view) × Held 0 (AgreesWith T.is_lawful pass.old.view)) }
    {
        self.ring.pop_as::<Pop, R>(rt, &mut pass.ticket)
    }
}
