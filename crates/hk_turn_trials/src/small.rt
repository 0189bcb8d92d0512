// Small numbers that some threads push into a queue and others pop.
ghost use Rattle.std.specs.Prelude.{◌≡◌, ◌<◌, length, Some, IfOk, All};
ghost use Rattle.hk_ready.specs.View.{IsPassFor};

use hk_base::NoMemory;
use hk_lock::Lawful;
use hk_ready::{Pass, Queue};
use std::alloc::Global;
use std::snapshot::Snapshot;
use std::sync::Wait;
use std::sync::atomic::{AtomicU64, Ordering};
use std::test::Fail;
use std::thread;
use std::thread::{Threads, yield_now};

/// A number that is below the key.
#[derive(Drop)]
pub(crate) struct Small {
    pub(crate) number: usize,
}

impl Lawful<usize> for Small {
    ghost use Rattle.std.specs.Prelude.{◌<◌};

    ghost is_lawful = { λ bound small. small.number < bound };
}

/// What a thread does.
#[derive(Clone, Copy)]
enum Role {
    /// It pushes the numbers that leave this remainder by the number of pushers.
    Pusher(usize),
    Popper,
}

impl Role {
    /// Pushers and poppers by turns, as many of the one as of the other.
    fn at(place: usize) -> Role {
        if place % 2 == 0 {
            Role::Pusher(place / 2)
        } else {
            Role::Popper
        }
    }
}

/// What a thread is given.
#[derive(Drop)]
struct Job {
    pass: Pass<Small, usize>,
    role: Role,
}

/// What the threads share.
#[derive(Drop)]
struct Trial {
    queue: Queue<Small, usize>,
    /// How often each number was popped. There are as many as the key says.
    pops: Vec<AtomicU64>,
    pushers: usize,
    /// How many pushers aren't done.
    pushing: AtomicU64,
}

// Pushes a number as soon as there is a place.
fn push_one<R: Wait>(
    rt: &R,
    queue: &Queue<Small, usize>,
    pass: &mut Pass<Small, usize>,
    bound: usize,
    number: usize,
)
    requires pass { IsPassFor queue.now.id (Some bound) pass.old }
    requires lawful { number < bound }
    ensures { IsPassFor queue.now.id (Some bound) pass.new }
{
    for _ in rt.forever() {
        if queue.push(rt, pass, Small { number }).is_ok() {
            return;
        }
        yield_now();
    }
    unreachable!()
}

// Pops a number and counts it. Whether there was one.
fn pop_one<R: Wait>(
    rt: &R,
    queue: &Queue<Small, usize>,
    pass: &mut Pass<Small, usize>,
    pops: &[AtomicU64],
) -> bool
    requires { IsPassFor queue.now.id (Some (length pops.now)) pass.old }
    ensures { IsPassFor queue.now.id (Some (length pops.now)) pass.new }
{
    let Some(small) = queue.pop(rt, pass) else {
        yield_now();
        return false;
    };
    pops[small.number].fetch_add(1, Ordering::SeqCst);
    true
}

impl Trial {
    // Pushes each number that leaves this remainder.
    fn push_share<R: Wait>(&self, rt: &R, pass: Pass<Small, usize>, remainder: usize)
        requires pass { IsPassFor self.now.queue.id (Some (length self.now.pops.items)) pass }
        requires pushers { 0 < self.now.pushers }
    {
        let mut pass = pass;
        let bound = self.pops.len();
        for number in (remainder..bound).step_by(self.pushers) {
            push_one(rt, &self.queue, &mut pass, bound, number);
        }
        self.pushing.fetch_sub(1, Ordering::SeqCst);
    }

    // Pops until nothing is left and no pusher is at work.
    fn pop_all<R: Wait>(&self, rt: &R, pass: Pass<Small, usize>)
        requires { IsPassFor self.now.queue.id (Some (length self.now.pops.items)) pass }
    {
        let mut pass = pass;
        for _ in rt.forever() {
            let all_pushed = self.pushing.load(Ordering::SeqCst) == 0;
            let found = pop_one(rt, &self.queue, &mut pass, &self.pops);
            if all_pushed && !found {
                return;
            }
        }
    }

    fn work<R: Wait>(&self, rt: &R, job: Job)
        requires pass { IsPassFor self.now.queue.id (Some (length self.now.pops.items)) job.pass }
        requires pushers { 0 < self.now.pushers }
    {
        match job.role {
            Role::Pusher(remainder) => self.push_share(rt, job.pass, remainder),
            Role::Popper => self.pop_all(rt, job.pass),
        }
    }
}

pub(crate) fn zeros(alloc: Global, count: usize) -> Result<Vec<AtomicU64>, NoMemory>
    ensures { IfOk result (λ v. length v.items ≡ count) }
{
    let mut all = Vec::with_capacity(alloc, count)?;
    while all.len() < count {
        all.push_reserved(AtomicU64::new(0));
    }
    Ok(all)
}

fn jobs(
    alloc: Global,
    queue: &Queue<Small, usize>,
    first: Pass<Small, usize>,
    bound: usize,
    count: usize,
) -> Result<Vec<Job>, NoMemory>
    requires { IsPassFor queue.now.id (Some bound) first }
    ensures { IfOk result (λ v. All (λ j. IsPassFor queue.now.id (Some bound) j.pass) v.items) }
{
    let mut first = first;
    let mut all = Vec::with_capacity(alloc, count)?;
    while all.len() < count {
        let role = Role::at(all.len());
        let pass = queue.split_pass(alloc, &mut first)?;
        all.push_reserved(Job { pass, role });
    }
    Ok(all)
}

/// The first number below the bound that didn't come once out of a queue of so many places, under so many pushers and as
/// many poppers.
fn pass_through<R: Threads + Wait + Sync>(
    rt: &R,
    alloc: Global,
    places: usize,
    pushers: u32,
    bound: usize,
) -> Result<Option<usize>, NoMemory>
    requires { (0 < places) × (0 < pushers) }
{
    let (queue, first) = Queue::under(alloc, &Snapshot::of(&bound), places)?;
    let jobs = jobs(alloc, &queue, first, bound, 2 * pushers as usize)?;
    let trial = Trial {
        queue,
        pops: zeros(alloc, bound)?,
        pushers: pushers as usize,
        pushing: AtomicU64::new(u64::from(pushers)),
    };
    let shared = &trial;
    thread::map_vec(
        rt,
        jobs,
        &|job: Job|
            requires { IsPassFor shared.now.queue.id (Some (length shared.now.pops.items)) job.pass × (0 < shared.now.pushers) }
        { shared.work(rt, job) },
    )?;
    let counts = &trial.pops;
    Ok(
        counts
            .iter()
            .position(|count| count.load(Ordering::SeqCst) != 1),
    )
}

#[test]
fn each_number_comes_out_once(rt: HostRuntime) -> Result<(), Fail> {
    for (places, pushers) in [(1, 1), (128, 4), (128, 8)] {
        let amiss = pass_through(&rt, rt.alloc(), places, pushers, 40_000)?;
        assert_eq!(rt; amiss, None, "{pushers} pushers, {places} places");
    }
    Ok(())
}

pub(crate) fn number_of(small: Option<Small>) -> Option<usize> {
    small.map(|small| small.number)
}

#[test]
fn one_place_holds_one(rt: HostRuntime) -> Result<(), Fail> {
    let (queue, mut pass) = Queue::new(rt.alloc(), 9usize, 1)?;
    let first = queue.push(&rt, &mut pass, Small { number: 0 });
    let second = queue.push(&rt, &mut pass, Small { number: 1 });
    let third = queue.pop(&rt, &mut pass);
    let fourth = queue.pop(&rt, &mut pass);
    let seen = [first.err(), second.err(), third, fourth].map(number_of);
    assert!(rt; seen == [None, Some(1), Some(0), None]);
    Ok(())
}
