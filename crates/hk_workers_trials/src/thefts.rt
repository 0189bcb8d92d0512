// What one worker steals from another's deque, and what it leaves in its own.
ghost use Rattle.std.specs.Prelude.{◌≡◌, IfOk, IfSome, All};

use crate::desks::{Poor, Seen, item_of, three_items};
use crate::gates::Counter;
use hk_base::{NoMemory, Shared};
use hk_chain::Kept;
use hk_families::{SampleMaker, Sampler};
use hk_workers::{Owner, Seat, Thief, open_decks, steal_worker};
use std::alloc::Global;
use std::sync::Wait;
use std::test::Fail;

/// The last owner.
fn last_of(
    owners: &mut Vec<Owner<Sampler>>,
    seat: &Seat<Sampler>,
) -> Result<Owner<Sampler>, NoMemory>
    requires { All (λ o. o.key ≡ seat.now.view.key) owners.old.items }
    ensures owner { IfOk result (λ o. o.key ≡ seat.now.view.key) }
    ensures owners { All (λ o. o.key ≡ seat.now.view.key) owners.new.items }
{
    let _seat = seat;
    match owners.pop() {
        Some(own) => Ok(own),
        None => Err(NoMemory),
    }
}

/// One thief of a deque.
fn one_thief(alloc: Global, owner: &mut Owner<Sampler>) -> Result<Vec<Thief<Sampler>>, NoMemory>
    ensures same { owner.new ≡ owner.old }
    ensures thieves { IfOk result (λ v. All (λ t. t.key ≡ owner.old.key) v.items) }
{
    let mut thieves = Vec::new(alloc);
    thieves.push(owner.thief(alloc)?)?;
    Ok(thieves)
}

/// The item of the next turn of a deque, which is pushed again.
fn look(owner: &mut Owner<Sampler>) -> Option<u32>
    ensures { owner.new.key ≡ owner.old.key }
{
    let turn = owner.pop()?;
    let item = item_of(&turn);
    let _ = owner.push(turn);
    item
}

fn two_calls<R: Wait>(rt: &R, alloc: Global) -> Result<Seen, NoMemory> {
    let layout = Shared::new(alloc, three_items(alloc)?)?;
    let kept = Kept::none(alloc, layout.get())?;
    let poor = Poor {
        sample: SampleMaker::new(),
    };
    let gate = Counter::new();
    let (lock, seat, owners) = open_decks(alloc, layout, kept, &poor, 2, 64)?;
    let mut owners = owners;
    let own = last_of(&mut owners, &seat)?;
    let other = last_of(&mut owners, &seat)?;
    let first = steal_worker(rt, alloc, &lock, seat, own, Vec::new(alloc), &poor, &gate);
    let enters_of_first = gate.enters();
    let mut left = first.own;
    let between = [look(&mut left), look(&mut left)];
    let thieves = one_thief(alloc, &mut left)?;
    let second = steal_worker(
        rt,
        alloc,
        &lock,
        first.seat,
        other,
        thieves,
        &poor.sample,
        &gate,
    );
    let is_empty = left.pop().is_none();
    let mut board = lock.close(second.seat);
    let none_ready = board.next_ready()?.is_none();
    Ok(Seen {
        memory: [first.memory, second.memory],
        enters_of_first,
        between,
        enters: gate.enters(),
        leaves: gate.leaves(),
        is_empty,
        none_ready,
        first_out: board.first_out().map(|item| item.0),
    })
}

#[test]
fn a_worker_steals_what_another_left(rt: HostRuntime) -> Result<(), Fail> {
    let seen = two_calls(&rt, rt.alloc())?;
    assert!(rt; seen.memory == [false, true]);
    assert_eq!(rt; seen.enters_of_first, [0, 0, 0]);
    assert!(rt; seen.is_empty && seen.none_ready);
    assert_eq!(rt; seen.enters, seen.leaves);
    assert!(rt; seen.polled_what_was_left());
    Ok(())
}
