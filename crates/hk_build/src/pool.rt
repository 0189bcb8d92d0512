// A build by several workers.
ghost use Rattle.std.specs.Prelude.{◌<◌, ◌≤◌, IfOk};
ghost use Rattle.std.specs.Option.{option_copied};
ghost use Rattle.hk_store.specs.Stored.{IsStored};
ghost use Rattle.hk_reuse.specs.Entries.{entries_in};
ghost use Rattle.hk_build.specs.Ended.{AreBytesOf, IsBuild};
ghost use Rattle.hk_build.specs.Planned.{IsPlanned};

use crate::ended::{Build, ended};
use crate::replays::replays;
use hk_base::{NoMemory, Shared};
use hk_chain::Kept;
use hk_outside::Gate;
use hk_rules::Plan;
use hk_store::Stored;
use hk_workers::run_steal;
use std::alloc::Global;
use std::sync::Wait;
use std::thread::Threads;

/// Builds a plan over stored entries as `build_one` does, by 1 to 64 workers, each in a thread of its own. It may wait for
/// them. The gate is told before each poll in such threads, and after what the poll answered was handed on. `NoMemory` only
/// for want of memory, of the caller or of any worker.
pub fn build_in_pool<R: Threads + Wait + Sync, G: Gate>(
    rt: &R,
    alloc: Global,
    plan: &Shared<Plan>,
    stored: &Stored,
    bytes: Option<&[u8]>,
    workers: u32,
    gate: &G,
) -> Result<Build, NoMemory>
    requires plan { IsPlanned plan.now }
    requires stored { IsStored stored.now }
    requires bytes { AreBytesOf stored.now (option_copied bytes) }
    requires workers { (0 < workers) × (workers ≤ 64) }
    ensures { IfOk result (IsBuild plan.now (entries_in stored.now)) }
{
    let layout = plan.get().layout();
    let _items = layout.get().items();
    let kept = Kept::none(alloc, layout.get())?;
    let maker = replays(alloc, plan, stored)?;
    let results = run_steal(rt, alloc, layout.try_clone()?, kept, &maker, workers, gate)?;
    ended(alloc, plan.get(), &maker, results, stored, bytes)
}
