// What makes the machines of a plan.
ghost use Rattle.std.specs.Prelude.{◌≡◌, length};
ghost use Rattle.hk_rules.specs.Plan.{lookups};
ghost use Rattle.hk_machine.specs.Runnable.{Runs};
ghost use Rattle.hk_machine.specs.RunnableOnce.{runnable-prop};

use crate::machine::Machine;
use hk_base::{NoMemory, Shared};
use hk_chain::ItemNo;
use hk_eval::renders;
use hk_fix::Maker;
use hk_rules::Plan;
use std::alloc::Global;

/// Makes the machines of a plan.
#[derive(Drop)]
pub struct PlanMaker {
    plan: Shared<Plan>,
    ghost runs: { Runs plan } by { runnable-prop (lookups plan) (length plan.items) (length plan.contexts) (length plan.patterns) },
}

impl PlanMaker {
    /// What makes the machines of this plan. Constant.
    pub fn new(plan: Shared<Plan>) -> PlanMaker
        ensures { result.plan ≡ plan }
    {
        runs(plan.get());
        PlanMaker { plan }
    }
}

/// The chains of a plan are compilers.
pub fn runs(plan: &Plan)
    ensures { Runs plan.now }
{
    plan.linked();
    renders(plan);
    let _items = plan.layout().get().items();
}

impl Maker for PlanMaker {
    type M = Machine;

    ghost common_is = { λ m. m.plan };

    fn common(&self, _alloc: Global) -> Result<Shared<Plan>, NoMemory> {
        self.plan.try_clone()
    }

    fn make(&self, alloc: Global, item: ItemNo) -> Result<Machine, NoMemory> {
        let plan = self.plan.try_clone()?;
        let machine = Machine::new(alloc, plan, item)?;
        Ok(machine)
    }

    ghost made = { λ m. m.runs };
}
