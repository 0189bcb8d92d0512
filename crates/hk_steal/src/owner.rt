// The owner's end of a deque.
ghost use Rattle.std.specs.Prelude.{◌≡◌, ◌+◌, ◌<◌, ◌≤◌, true, length, is_some, All, Some, IfOk, IfErr, OnOk, IfSome, IfNone};
ghost use Rattle.crossbeam_deque.specs.Handles.{view, IsPassOf, worker_deque, worker_flavor, worker_view, worker_index, worker_capacity, SameWorker};
ghost use Rattle.hk_lock.specs.Lawful.{IsLawfulFor};
ghost use Rattle.hk_steal.specs.declared.view.View.{View};
ghost use Rattle.hk_steal.specs.View.{unnamed, keyed, IsEnd};
ghost use Rattle.hk_steal.specs.Decked.{FoundEmpty};

use crate::rule::{Decked, Push, Take, Twin};
use crate::thief::{Pass, Thief};
use crate::view::View;
use crossbeam_deque::Worker;
use crossbeam_deque::protocol::Split;
use hk_base::NoMemory;
use hk_lock::Lawful;
use std::alloc::Global;
use std::marker::{Brand, Model};
use std::snapshot::Snapshot;

type Bench<T, K> = Worker<T, Global, View<K>, Decked<K>>;

/// How many further thieves can be split from the first one.
const SPARE: usize = 63;

/// The owner's end of a deque, with which one thread pushes and pops. A clause sees which deque it is, its key, how many tasks
/// it has pushed, and how many it may push.
#[derive(Drop)]
pub struct Owner<T: Lawful<K>, K> {
    bench: Bench<T, K>,
    made: usize,
    capacity: usize,
}

impl<T: Lawful<K>, K> Model for Owner<T, K> {
    ghost use Rattle.std.specs.Prelude.{◌≡◌, ◌≤◌, true, is_some};
    ghost use Rattle.crossbeam_deque.specs.Handles.{worker_deque, worker_flavor, worker_view, worker_index, worker_capacity};
    ghost use Rattle.hk_steal.specs.View.{OwnerView};

    ghost Value = { OwnerView K };

    ghost view = { λ o. record { deck = worker_deque o.bench; key = (worker_view o.bench).key; made = o.made; capacity = o.capacity } };

    ghost invariant = { λ o. (worker_flavor o.bench ≡ 0) × (worker_index o.bench ≤ o.made) × (o.made ≤ o.capacity) × (o.capacity ≤ worker_capacity o.bench) × (is_some (worker_view o.bench).key ≡ true) };
}

/// An empty deque for so many pushes: its owner, and its first thief, from which 63 more can be split. `NoMemory` only for
/// want of memory. Linear in the capacity.
pub fn deck<T: Lawful<K> + Drop, K: Drop>(
    alloc: Global,
    key: K,
    capacity: usize,
) -> Result<(Owner<T, K>, Thief<T, K>), NoMemory>
    requires { 0 < capacity }
    ensures owner { IfOk result (λ r. (r.0.key ≡ Some key) × (r.0.made ≡ 0) × (r.0.capacity ≡ capacity)) }
    ensures thief { IfOk result (λ r. (r.1.deck ≡ r.0.deck) × (r.1.key ≡ Some key) × (r.1.spare ≡ 63)) }
{
    deck_under(alloc, &Snapshot::of(&key), capacity)
}

/// The same by a snapshot of the key, so that the key's own value may be elsewhere, or gone.
pub fn deck_under<T: Lawful<K> + Drop, K>(
    alloc: Global,
    key: &Snapshot<K>,
    capacity: usize,
) -> Result<(Owner<T, K>, Thief<T, K>), NoMemory>
    requires { 0 < capacity }
    ensures owner { IfOk result (λ r. (r.0.key ≡ Some key.now.value) × (r.0.made ≡ 0) × (r.0.capacity ≡ capacity)) }
    ensures thief { IfOk result (λ r. (r.1.deck ≡ r.0.deck) × (r.1.key ≡ Some key.now.value) × (r.1.spare ≡ 63)) }
{
    let mut bench = empty_bench(alloc, capacity)?;
    let pass = name::<T, K, Brand>(&mut bench, key);
    let handle = bench.stealer()?;
    let spare = spares(alloc, &mut bench)?;
    let owner = Owner {
        bench,
        made: 0,
        capacity,
    };
    Ok((
        owner,
        Thief {
            handle,
            pass,
            spare,
        },
    ))
}

/// An empty deque that has no key yet.
fn empty_bench<T: Lawful<K> + Drop, K>(
    alloc: Global,
    capacity: usize,
) -> Result<Bench<T, K>, NoMemory>
    ensures unnamed { IfOk result (λ b. (worker_flavor b ≡ 0) × (worker_index b ≡ 0) × (worker_view b ≡ unnamed)) }
    ensures capacity { IfOk result (λ b. capacity ≤ worker_capacity b) }
{
    Ok(Bench::fifo_as(alloc, capacity)?)
}

/// Names the owner, and gives a pass with the same key.
fn name<T: Lawful<K>, K, S: Split<View<K>>>(
    bench: &mut Bench<T, K>,
    key: &Snapshot<K>,
) -> Pass<T, K>
    requires unnamed { worker_view bench.old ≡ unnamed }
    requires left { (v : View K) → S.left v ≡ keyed key.now.value }
    requires right { (v : View K) → S.right v ≡ keyed key.now.value }
    ensures same { SameWorker bench.old bench.new × (worker_index bench.new ≡ worker_index bench.old) }
    ensures named { worker_view bench.new ≡ keyed key.now.value }
    ensures pass { IsPassOf (worker_deque bench.old) result × (view result ≡ keyed key.now.value) }
{
    bench.another::<S>()
}

/// Further passes with the owner's key.
fn spares<T: Lawful<K> + Drop, K>(
    alloc: Global,
    bench: &mut Bench<T, K>,
) -> Result<Vec<Pass<T, K>>, NoMemory>
    requires { is_some (worker_view bench.old).key ≡ true }
    ensures same { SameWorker bench.old bench.new × (worker_view bench.new ≡ worker_view bench.old) × (worker_index bench.new ≡ worker_index bench.old) }
    ensures spares { IfOk result (λ v. (length v.items ≡ 63) × All (IsEnd (worker_deque bench.old) (worker_view bench.old).key) v.items) }
{
    let mut spare = Vec::with_capacity(alloc, SPARE)?;
    while spare.len() < SPARE {
        spare.push_reserved(bench.another::<Twin>());
    }
    Ok(spare)
}

impl<T: Lawful<K> + Drop, K> Owner<T, K> {
    /// Adds a task that is lawful for the owner's key. It comes back exactly where the owner has pushed as many as it may. It
    /// takes no memory and doesn't wait. Constant.
    pub fn push(&mut self, task: T) -> Result<(), T>
        requires { IsLawfulFor T.is_lawful self.old.key task }
        ensures same { (self.new.deck ≡ self.old.deck) × (self.new.key ≡ self.old.key) × (self.new.capacity ≡ self.old.capacity) }
        ensures pushed { OnOk result ((self.old.made < self.old.capacity) × (self.new.made ≡ self.old.made + 1)) }
        ensures back { IfErr result (λ x. (x ≡ task) × (self.old.made ≡ self.old.capacity) × (self.new.made ≡ self.old.made)) }
    {
        if self.made == self.capacity {
            return Err(task);
        }
        match self.bench.push_as::<Push>(task) {
            Ok(()) => {
                self.made += 1;
                Ok(())
            }
            Err(_) => unreachable!(),
        }
    }

    /// Takes the oldest task, which is lawful for the owner's key. None only where the deque was empty at some moment of the
    /// call. It takes no memory and doesn't wait. Constant.
    pub fn pop(&mut self) -> Option<T>
        ensures same { self.new ≡ self.old }
        ensures popped { IfSome result (λ task. IsLawfulFor T.is_lawful self.old.key task) }
        ensures none { IfNone result (FoundEmpty T.is_lawful self.old.key) }
    {
        self.bench.pop_as::<Take>()
    }

    /// A further thief of this deque with the same key, for another thread. None can be split from that one. It doesn't wait.
    /// `NoMemory` only for want of memory. Constant.
    pub fn thief(&mut self, alloc: Global) -> Result<Thief<T, K>, NoMemory>
        ensures same { self.new ≡ self.old }
        ensures thief { IfOk result (λ t. (t.deck ≡ self.old.deck) × (t.key ≡ self.old.key) × (t.spare ≡ 0)) }
    {
        let handle = self.bench.stealer()?;
        let pass = self.bench.another::<Twin>();
        Ok(Thief {
            handle,
            pass,
            spare: Vec::new(alloc),
        })
    }
}
