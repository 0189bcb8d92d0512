// Small numbers that the owner of a deque pushes, and that it and its thieves take.
ghost use Rattle.std.specs.Prelude.{◌≡◌, ◌<◌, ◌≤◌, Some};

use crate::small::{Small, number_of, zeros};
use hk_base::NoMemory;
use hk_steal::{Owner, Thief, deck};
use std::alloc::Global;
use std::sync::Wait;
use std::sync::atomic::{AtomicU64, Ordering};
use std::test::Fail;
use std::thread;
use std::thread::{Threads, join};

// Counts a number that was taken.
fn count(counts: &[AtomicU64], small: Small) {
    if let Some(times) = counts.get(small.number) {
        times.fetch_add(1, Ordering::SeqCst);
    }
}

// Steals until the deque is found empty.
fn steal_all<R: Wait>(rt: &R, thief: Thief<Small, usize>, counts: &[AtomicU64]) {
    let mut thief = thief;
    for _ in rt.forever() {
        let Some(small) = thief.steal(rt) else {
            return;
        };
        count(counts, small);
    }
}

// Pops until the deque is found empty.
fn pop_all<R: Wait>(rt: &R, owner: Owner<Small, usize>, counts: &[AtomicU64]) {
    let mut owner = owner;
    for _ in rt.forever() {
        let Some(small) = owner.pop() else {
            return;
        };
        count(counts, small);
    }
}

// Pushes each number below the bound.
fn fill(owner: &mut Owner<Small, usize>, bound: usize)
    requires { owner.old.key ≡ Some bound }
{
    for number in 0..bound {
        let _ = owner.push(Small { number });
    }
}

// So many thieves that are split from the first one.
fn thieves(
    alloc: Global,
    first: Thief<Small, usize>,
    number: usize,
) -> Result<Vec<Thief<Small, usize>>, NoMemory>
    requires { number ≤ first.spare }
{
    let mut first = first;
    let mut all = Vec::with_capacity(alloc, number)?;
    while all.len() < number {
        all.push_reserved(first.split(alloc)?);
    }
    Ok(all)
}

/// The first number below the bound that didn't come once out of a deque, from which so many thieves take beside the owner.
fn take_apart<R: Threads + Wait + Sync>(
    rt: &R,
    alloc: Global,
    number: usize,
    bound: usize,
) -> Result<Option<usize>, NoMemory>
    requires { (0 < bound) × (number ≤ 63) }
{
    let (mut owner, first) = deck(alloc, bound, bound)?;
    fill(&mut owner, bound);
    let jobs = thieves(alloc, first, number)?;
    let counts = zeros(alloc, bound)?;
    let shared: &[AtomicU64] = &counts;
    let (stolen, ()) = join(
        rt,
        || {
            thread::map_vec(
                rt,
                jobs,
                &|thief: Thief<Small, usize>| { steal_all(rt, thief, shared) },
            )
        },
        move || pop_all(rt, owner, shared),
    );
    stolen?;
    Ok(
        counts
            .iter()
            .position(|times| times.load(Ordering::SeqCst) != 1),
    )
}

#[test]
fn each_number_is_taken_once(rt: HostRuntime) -> Result<(), Fail> {
    for number in [0, 1, 2, 4, 8] {
        let amiss = take_apart(&rt, rt.alloc(), number, 20_000)?;
        assert_eq!(rt; amiss, None, "{number} thieves");
    }
    Ok(())
}

/// What comes back of three pushes to a deque for two, what a thief of another thread and then the owner take, and what both
/// find then.
fn in_turn<R: Threads + Wait + Sync>(
    rt: &R,
    alloc: Global,
) -> Result<[Option<usize>; 7], NoMemory> {
    let (mut owner, thief) = deck(alloc, 9usize, 2)?;
    let first = owner.push(Small { number: 3 });
    let second = owner.push(Small { number: 4 });
    let third = owner.push(Small { number: 5 });
    let ((thief, stolen), ()) = join(
        rt,
        move || {
            let mut thief = thief;
            let stolen = thief.steal(rt);
            (thief, stolen)
        },
        || (),
    );
    let popped = owner.pop();
    let no_more = owner.pop();
    let mut thief = thief;
    let nothing = thief.steal(rt);
    Ok([
        first.err(),
        second.err(),
        third.err(),
        stolen,
        popped,
        no_more,
        nothing,
    ]
    .map(number_of))
}

#[test]
fn a_thief_takes_the_first(rt: HostRuntime) -> Result<(), Fail> {
    let seen = in_turn(&rt, rt.alloc())?;
    assert!(rt; seen == [None, None, Some(5), Some(3), Some(4), None, None]);
    Ok(())
}

/// What comes back of three pushes to a deque for one, of which the first is popped before the third.
fn past_the_capacity(alloc: Global) -> Result<[Option<usize>; 4], NoMemory> {
    let (mut owner, _) = deck(alloc, 9usize, 1)?;
    let first = owner.push(Small { number: 6 });
    let second = owner.push(Small { number: 7 });
    let popped = owner.pop();
    let third = owner.push(Small { number: 8 });
    Ok([first.err(), second.err(), popped, third.err()].map(number_of))
}

#[test]
fn a_deque_takes_so_many_pushes(rt: HostRuntime) -> Result<(), Fail> {
    let seen = past_the_capacity(rt.alloc())?;
    assert!(rt; seen == [None, Some(7), Some(6), Some(8)]);
    Ok(())
}
