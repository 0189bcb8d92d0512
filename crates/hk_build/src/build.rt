// A build on the caller's thread.
ghost use Rattle.std.specs.Prelude.{IfOk};
ghost use Rattle.std.specs.Option.{option_copied};
ghost use Rattle.hk_store.specs.Stored.{IsStored};
ghost use Rattle.hk_reuse.specs.Entries.{entries_in};
ghost use Rattle.hk_build.specs.Ended.{AreBytesOf, IsBuild};
ghost use Rattle.hk_build.specs.Planned.{IsPlanned};

use crate::ended::{Build, ended};
use crate::replays::replays;
use hk_base::{NoMemory, Shared};
use hk_chain::Kept;
use hk_rules::Plan;
use hk_sched::run_one;
use hk_store::Stored;
use std::alloc::Global;

/// Builds a plan over stored entries on the caller's thread: where an item's entry fits, its pages are those of the entry as
/// long as what it asked for is as it was, and from there on, as without an entry, its chain runs. `NoMemory` only for want
/// of memory. Linear in the polls, the items, the pairs and the asked pages, which are hashed, but for the chains' own work.
pub fn build_one(
    alloc: Global,
    plan: &Shared<Plan>,
    stored: &Stored,
    bytes: Option<&[u8]>,
) -> Result<Build, NoMemory>
    requires plan { IsPlanned plan.now }
    requires stored { IsStored stored.now }
    requires bytes { AreBytesOf stored.now (option_copied bytes) }
    ensures { IfOk result (IsBuild plan.now (entries_in stored.now)) }
{
    let layout = plan.get().layout();
    let _items = layout.get().items();
    let kept = Kept::none(alloc, layout.get())?;
    let maker = replays(alloc, plan, stored)?;
    let results = run_one(alloc, layout.try_clone()?, kept, &maker)?;
    ended(alloc, plan.get(), &maker, results, stored, bytes)
}
