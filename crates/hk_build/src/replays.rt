// The compilers of a build: replays of stored entries over the machines of a plan.
ghost use Rattle.std.specs.Prelude.{◌≡◌, IfOk};
ghost use Rattle.hk_store.specs.Stored.{IsStored};
ghost use Rattle.hk_store.specs.Traits.{sha_digests};
ghost use Rattle.hk_reuse.specs.Entries.{entries_in};
ghost use Rattle.hk_replay.specs.Known.{IsKnown};
ghost use Rattle.hk_replay.specs.Numbered.{AreNumbered};
ghost use Rattle.hk_sites.specs.PlanSite.{items_of};

use hk_base::{NoMemory, Shared};
use hk_machine::PlanMaker;
use hk_replay::ReplayMaker;
use hk_rules::Plan;
use hk_store::Stored;
use std::alloc::Global;

/// What makes the compilers of a build over stored entries.
pub(crate) fn replays(
    alloc: Global,
    plan: &Shared<Plan>,
    stored: &Stored,
) -> Result<ReplayMaker<PlanMaker>, NoMemory>
    requires { IsStored stored.now }
    ensures inner { IfOk result (λ m. m.inner.plan ≡ plan.now) }
    ensures records { IfOk result (λ m. AreNumbered sha_digests (items_of plan.now) (entries_in stored.now) m.records) }
    ensures known { IfOk result (λ m. IsKnown plan.now m.known) }
{
    let inner = PlanMaker::new(plan.try_clone()?);
    ReplayMaker::new(alloc, plan.get(), stored, inner)
}
