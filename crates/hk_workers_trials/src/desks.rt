// What one worker takes from a desk and leaves there.
ghost use Rattle.std.specs.Prelude.{◌≡◌, IfOk};
ghost use Rattle.hk_families.specs.Sample.{sample_shape};

use crate::gates::Counter;
use hk_base::{NoMemory, Shared};
use hk_chain::{ItemNo, Kept, Layout};
use hk_families::{SampleMaker, Sampler};
use hk_fix::{Maker, Results};
use hk_outside::OpenGate;
use hk_sched::Turn;
use hk_workers::{Desk, Pass, Ready, open_desk, run_pool, run_rounds, run_steal, worker};
use std::alloc::Global;
use std::sync::Wait;
use std::test::Fail;
use std::thread::Threads;

/// A maker whose every compiler wants memory.
#[derive(Drop)]
pub struct Poor {
    pub sample: SampleMaker,
}

impl Maker for Poor {
    type M = Sampler;

    ghost common_is = { λ m. m.sample.family };

    fn common(&self, _alloc: Global) -> Result<u32, NoMemory> {
        Ok(self.sample.family)
    }

    fn make(&self, _alloc: Global, _item: ItemNo) -> Result<Sampler, NoMemory> {
        Err(NoMemory)
    }

    ghost made = { λ _. tt };
}

pub fn three_items(alloc: Global) -> Result<Layout, NoMemory>
    ensures { IfOk result (λ l. l ≡ sample_shape) }
{
    Layout::of_counts(alloc, &[1, 1, 1])
}

/// The item of a fresh turn.
pub fn item_of(turn: &Turn<Sampler>) -> Option<u32> {
    match turn {
        Turn::Fresh(item) => Some(item.0),
        Turn::Woken(_) => None,
    }
}

/// The item of the next turn of the queue, which goes back.
fn look<R: Wait>(rt: &R, ready: &Ready<Sampler>, pass: &mut Pass<Sampler>) -> Option<u32>
    requires { pass.old.queue ≡ ready.now.id }
    ensures { (pass.new.queue ≡ pass.old.queue) × (pass.new.view.key ≡ pass.old.view.key) }
{
    let turn = ready.pop(rt, pass)?;
    let item = item_of(&turn);
    let _ = ready.push(rt, pass, turn);
    item
}

/// What two calls of a worker did, the first of which wants memory.
#[derive(Drop)]
pub struct Seen {
    pub memory: [bool; 2],
    pub enters_of_first: [u64; 3],
    /// The items of the turns that the first call left.
    pub between: [Option<u32>; 2],
    pub enters: [u64; 3],
    pub leaves: [u64; 3],
    pub is_empty: bool,
    pub none_ready: bool,
    pub first_out: Option<u32>,
}

impl Seen {
    /// Whether the second call polled just the items that the first one left, each for its save and for the ask at which it
    /// parks, and the third item is out.
    pub fn polled_what_was_left(&self) -> bool {
        let mut was_left = [false; 3];
        for item in self.between {
            if let Some(item) = item {
                if item < 3 {
                    was_left[item as usize] = true;
                }
            }
        }
        for item in 0..3u32 {
            let is_out = self.first_out == Some(item);
            let polls = if is_out { 0 } else { 2 };
            if was_left[item as usize] == is_out || self.enters[item as usize] != polls {
                return false;
            }
        }
        self.first_out.is_some()
    }
}

fn two_calls<R: Wait>(rt: &R, alloc: Global) -> Result<Seen, NoMemory> {
    let layout = Shared::new(alloc, three_items(alloc)?)?;
    let kept = Kept::none(alloc, layout.get())?;
    let poor = Poor {
        sample: SampleMaker::new(),
    };
    let gate = Counter::new();
    let (desk, seat, pass) = open_desk(alloc, layout, kept, &poor)?;
    let first = worker(rt, alloc, &desk, seat, pass, &poor, &gate);
    let enters_of_first = gate.enters();
    let mut pass = first.pass;
    let between = [
        look(rt, &desk.ready, &mut pass),
        look(rt, &desk.ready, &mut pass),
    ];
    let second = worker(rt, alloc, &desk, first.seat, pass, &poor.sample, &gate);
    let mut pass = second.pass;
    let is_empty = desk.ready.pop(rt, &mut pass).is_none();
    let Desk { lock, ready: _ } = desk;
    let mut board = lock.close(second.seat);
    let none_ready = board.next_ready()?.is_none();
    Ok(Seen {
        memory: [first.memory, second.memory],
        enters_of_first,
        between,
        enters: gate.enters(),
        leaves: gate.leaves(),
        is_empty,
        none_ready,
        first_out: board.first_out().map(|item| item.0),
    })
}

#[test]
fn a_worker_shares_what_it_finds(rt: HostRuntime) -> Result<(), Fail> {
    let seen = two_calls(&rt, rt.alloc())?;
    assert!(rt; seen.memory == [false, true]);
    assert_eq!(rt; seen.enters_of_first, [0, 0, 0]);
    assert!(rt; seen.is_empty && seen.none_ready);
    assert_eq!(rt; seen.enters, seen.leaves);
    assert!(rt; seen.polled_what_was_left());
    Ok(())
}

/// A run by four workers, each of which wants memory.
fn poor_pool<R: Threads + Wait + Sync>(rt: &R, alloc: Global) -> Result<Results, NoMemory> {
    let layout = Shared::new(alloc, three_items(alloc)?)?;
    let kept = Kept::none(alloc, layout.get())?;
    let poor = Poor {
        sample: SampleMaker::new(),
    };
    run_pool(rt, alloc, layout, kept, &poor, 4, &OpenGate)
}

/// The same by workers that steal.
fn poor_steal<R: Threads + Wait + Sync>(rt: &R, alloc: Global) -> Result<Results, NoMemory> {
    let layout = Shared::new(alloc, three_items(alloc)?)?;
    let kept = Kept::none(alloc, layout.get())?;
    let poor = Poor {
        sample: SampleMaker::new(),
    };
    run_steal(rt, alloc, layout, kept, &poor, 4, &OpenGate)
}

/// The same in rounds.
fn poor_rounds<R: Threads + Sync>(rt: &R, alloc: Global) -> Result<Results, NoMemory> {
    let layout = Shared::new(alloc, three_items(alloc)?)?;
    let kept = Kept::none(alloc, layout.get())?;
    let poor = Poor {
        sample: SampleMaker::new(),
    };
    run_rounds(rt, alloc, layout, kept, &poor, 4)
}

#[test]
fn want_of_memory_is_answered(rt: HostRuntime) -> Result<(), Fail> {
    assert!(rt; poor_pool(&rt, rt.alloc()).is_err());
    assert!(rt; poor_steal(&rt, rt.alloc()).is_err());
    assert!(rt; poor_rounds(&rt, rt.alloc()).is_err());
    Ok(())
}
