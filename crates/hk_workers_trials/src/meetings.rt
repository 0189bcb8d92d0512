// Two polls side by side.
ghost use Rattle.std.specs.Prelude.{◌≡◌, IfOk};
ghost use Rattle.hk_families.specs.Mutual.{mutual_shape};

use crate::gates::Meeting;
use hk_base::{NoMemory, Shared};
use hk_chain::{Kept, Layout};
use hk_families::MutualMaker;
use hk_fix::Results;
use hk_workers::{run_pool, run_steal};
use std::alloc::Global;
use std::sync::Wait;
use std::test::Fail;
use std::thread::Threads;

fn two_items(alloc: Global) -> Result<Layout, NoMemory>
    ensures { IfOk result (λ l. l ≡ mutual_shape) }
{
    Layout::of_counts(alloc, &[1, 1])
}

/// A run of the family of mutual loads by two workers, with the queue or with deques.
fn run<R: Threads + Wait + Sync>(
    rt: &R,
    alloc: Global,
    early: bool,
    steals: bool,
    gate: &Meeting,
) -> Result<Results, NoMemory> {
    let layout = Shared::new(alloc, two_items(alloc)?)?;
    let kept = Kept::none(alloc, layout.get())?;
    let maker = MutualMaker { early };
    if steals {
        return run_steal(rt, alloc, layout, kept, &maker, 2, gate);
    }
    run_pool(rt, alloc, layout, kept, &maker, 2, gate)
}

/// Compilers that save before they ask are polled three times each, and those that ask at once are polled once.
fn meet<R: Threads + Wait + Sync>(rt: &R, alloc: Global, steals: bool) -> Result<bool, NoMemory> {
    let mut met = true;
    for (early, polls) in [(true, 3), (false, 1)] {
        let gate = Meeting::new();
        let results = run(rt, alloc, early, steals, &gate)?;
        met = met
            && results.outcomes.len() == 2
            && gate.was_held()
            && gate.calls().enters() == [polls, polls, 0]
            && gate.calls().leaves() == [polls, polls, 0];
    }
    Ok(met)
}

#[test]
fn two_polls_run_side_by_side(rt: HostRuntime) -> Result<(), Fail> {
    assert!(rt; meet(&rt, rt.alloc(), false)?);
    Ok(())
}

#[test]
fn a_stolen_turn_runs_side_by_side(rt: HostRuntime) -> Result<(), Fail> {
    assert!(rt; meet(&rt, rt.alloc(), true)?);
    Ok(())
}
