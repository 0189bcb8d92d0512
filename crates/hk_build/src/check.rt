// A run of all compilers of a plan, over no entries.
ghost use Rattle.std.specs.Prelude.{IfOk};
ghost use Rattle.hk_reuse.specs.Entries.{no_entries};
ghost use Rattle.hk_build.specs.Built.{AreResults};

use hk_base::{NoMemory, Shared};
use hk_chain::Kept;
use hk_fix::Results;
use hk_machine::PlanMaker;
use hk_rules::Plan;
use hk_sched::run_one;
use std::alloc::Global;

/// Runs all compilers of a plan on the caller's thread, over no entries. `NoMemory` only for want of memory. Linear in the
/// polls, the items and the pairs, but for the compilers' own work.
pub fn check_one(alloc: Global, plan: &Shared<Plan>) -> Result<Results, NoMemory>
    ensures { IfOk result (AreResults plan.now no_entries) }
{
    let layout = plan.get().layout();
    let _items = layout.get().items();
    let kept = Kept::none(alloc, layout.get())?;
    let maker = PlanMaker::new(plan.try_clone()?);
    run_one(alloc, layout.try_clone()?, kept, &maker)
}
