// Deques, thieves and seats for the workers of a run that steal.
ghost use Rattle.std.specs.Prelude.{◌≡◌, ◌+◌, ◌<◌, length, Some, IfOk, All};
ghost use Rattle.hk_lock.specs.View.{IsSeatFor, IsFirstSeat};

use crate::deques::{Owner, StealJob, Thief};
use crate::desk::Seat;
use crate::key::Key;
use hk_base::NoMemory;
use hk_fix::Compiler;
use hk_lock::TurnLock;
use hk_sched::Board;
use hk_steal::deck_under;
use std::alloc::Global;
use std::snapshot::Snapshot;

/// The owners of so many empty deques.
pub fn decks<M: Compiler>(
    alloc: Global,
    about: &Snapshot<Key<M>>,
    workers: usize,
    capacity: usize,
) -> Result<Vec<Owner<M>>, NoMemory>
    requires { 0 < capacity }
    ensures { IfOk result (λ v. (length v.items ≡ workers) × All (λ o. o.key ≡ Some about.now.value) v.items) }
{
    let mut owners = Vec::with_capacity(alloc, workers)?;
    while owners.len() < workers {
        let (own, _) = deck_under(alloc, about, capacity)?;
        owners.push_reserved(own);
    }
    Ok(owners)
}

/// A list of thieves for each owner.
pub fn all_thieves<M: Compiler>(
    alloc: Global,
    about: &Snapshot<Key<M>>,
    owners: &mut Vec<Owner<M>>,
) -> Result<Vec<Vec<Thief<M>>>, NoMemory>
    requires { All (λ o. o.key ≡ Some about.now.value) owners.old.items }
    ensures owners { owners.new.items ≡ owners.old.items }
    ensures thieves { IfOk result (λ v. (length v.items ≡ length owners.old.items) × All (λ l. All (λ t. t.key ≡ Some about.now.value) l.items) v.items) }
{
    let mut lists = Vec::with_capacity(alloc, owners.len())?;
    while lists.len() < owners.len() {
        let me = lists.len();
        lists.push_reserved(thieves_of(alloc, about, owners, me)?);
    }
    Ok(lists)
}

/// A thief of each deque but this owner's, the next one's first, so that not all begin with the same deque.
fn thieves_of<M: Compiler>(
    alloc: Global,
    about: &Snapshot<Key<M>>,
    owners: &mut Vec<Owner<M>>,
    me: usize,
) -> Result<Vec<Thief<M>>, NoMemory>
    requires { (me < length owners.old.items) × All (λ o. o.key ≡ Some about.now.value) owners.old.items }
    ensures owners { owners.new.items ≡ owners.old.items }
    ensures thieves { IfOk result (λ v. All (λ t. t.key ≡ Some about.now.value) v.items) }
{
    let mut thieves = Vec::with_capacity(alloc, owners.len())?;
    let mut step = 1;
    while step < owners.len() {
        let at = place_after(me, step, owners.len());
        thieves.push_reserved(thief_at(alloc, about, owners, at)?);
        step += 1;
    }
    Ok(thieves)
}

/// The place that stands so many steps after one of so many places in a ring.
fn place_after(me: usize, steps: usize, count: usize) -> usize
    requires { (me < count) × (steps < count) }
    ensures { result < count }
{
    let ahead = count - me;
    if steps < ahead {
        me + steps
    } else {
        steps - ahead
    }
}

/// A thief of the deque at this place.
fn thief_at<M: Compiler>(
    alloc: Global,
    about: &Snapshot<Key<M>>,
    owners: &mut Vec<Owner<M>>,
    at: usize,
) -> Result<Thief<M>, NoMemory>
    requires { (at < length owners.old.items) × All (λ o. o.key ≡ Some about.now.value) owners.old.items }
    ensures owners { owners.new.items ≡ owners.old.items }
    ensures thief { IfOk result (λ t. t.key ≡ Some about.now.value) }
{
    let _about = about;
    Ok(owners[at].thief(alloc)?)
}

/// A seat for each owner, with its thieves.
pub fn seat_all<M: Compiler>(
    alloc: Global,
    lock: &TurnLock<Board<M>, Key<M>>,
    about: &Snapshot<Key<M>>,
    seat: &mut Seat<M>,
    owners: Vec<Owner<M>>,
    lists: Vec<Vec<Thief<M>>>,
) -> Result<Vec<StealJob<M>>, NoMemory>
    requires seat { IsFirstSeat lock.now 0 seat.old × (seat.old.view.key ≡ Some about.now.value) }
    requires owners { All (λ o. o.key ≡ Some about.now.value) owners.items }
    requires lists { (length lists.items ≡ length owners.items) × All (λ l. All (λ t. t.key ≡ Some about.now.value) l.items) lists.items }
    ensures seat { IfOk result (λ v. IsFirstSeat lock.now (length v.items) seat.new × (seat.new.view.key ≡ Some about.now.value)) }
    ensures jobs { IfOk result (λ v. All (λ j. IsSeatFor lock.now (Some about.now.value) j.seat × (j.own.key ≡ Some about.now.value) × All (λ t. t.key ≡ Some about.now.value) j.others.items) v.items) }
{
    let mut owners = owners;
    let mut lists = lists;
    let mut jobs = Vec::with_capacity(alloc, owners.len())?;
    while let Some(own) = owners.pop() {
        let Some(others) = lists.pop() else {
            unreachable!()
        };
        jobs.push_reserved(seat_one(lock, about, seat, own, others));
    }
    Ok(jobs)
}

/// A seat for one owner.
fn seat_one<M: Compiler>(
    lock: &TurnLock<Board<M>, Key<M>>,
    about: &Snapshot<Key<M>>,
    seat: &mut Seat<M>,
    own: Owner<M>,
    others: Vec<Thief<M>>,
) -> StealJob<M>
    requires seat { IsFirstSeat lock.now seat.old.view.lent seat.old × (seat.old.view.key ≡ Some about.now.value) }
    requires owner { own.key ≡ Some about.now.value }
    requires others { All (λ t. t.key ≡ Some about.now.value) others.items }
    ensures seat { IsFirstSeat lock.now (seat.old.view.lent + 1) seat.new × (seat.new.view.key ≡ Some about.now.value) }
    ensures job { IsSeatFor lock.now (Some about.now.value) result.seat × (result.own.key ≡ Some about.now.value) × All (λ t. t.key ≡ Some about.now.value) result.others.items }
{
    let chair = lock.split(seat);
    StealJob {
        seat: chair,
        own,
        others,
    }
}
