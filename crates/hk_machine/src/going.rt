// A machine that goes on to its next answer.
ghost use Rattle.std.specs.Prelude.{◌≡◌, ◌<◌, [], true, false, length, is_some, IfOk, OnOk, OnErr};
ghost use Rattle.hk_fix.specs.Calls.{Goes};
ghost use Rattle.hk_rules.specs.Plan.{lookups};
ghost use Rattle.hk_machine.specs.Keeping.{Keeps, HasRoom, HasCome, Stays};
ghost use Rattle.hk_machine.specs.Machine.{plan_shape, plan_run, way_meaning};
ghost use Rattle.hk_machine.specs.Runnable.{Runs};

use crate::act::Stop;
use crate::way::{Way, finish, give, settle, wait};
use crate::work::work_on;
use hk_base::NoMemory;
use hk_chain::ItemNo;
use hk_fix::Polled;
use hk_rules::Plan;
use std::alloc::Global;

/// Goes on to the next page that is saved, to the pages that are wanted, or to the end.
pub(crate) fn go(
    alloc: Global,
    plan: &Plan,
    item: ItemNo,
    way: &mut Way,
) -> Result<Polled, NoMemory>
    requires plan { Runs plan.now }
    requires item { item < length plan.now.items }
    requires keeps { Keeps plan.now item way.old }
    requires closed { way.old.awaits ≡ [] }
    requires going { way.old.is_ended ≡ false }
    ensures goes { IfOk result (λ p. Goes plan_shape plan_run (way_meaning plan.now item way.old) p (way_meaning plan.now item way.new)) }
    ensures keeps { OnOk result (way.new.is_ended ≡ false → Keeps plan.now item way.new) }
    ensures room { OnOk result (HasRoom way.new) }
    ensures stays { OnErr result (Stays way.old way.new) }
    ensures saved { OnErr result (is_some way.new.last ≡ true → is_some way.old.last ≡ true) }
    ensures come { HasCome (lookups plan.now) item way.new }
{
    settle(&mut way.last, &mut way.used)?;
    match work_on(alloc, plan, item, &way.told, &mut way.work)? {
        Stop::Saves(pair) => {
            let polled = give(way, pair)?;
            Ok(polled)
        }
        Stop::Asks(pairs) => {
            let polled = wait(way, pairs)?;
            Ok(polled)
        }
        Stop::Done => {
            let polled = finish(alloc, plan, item, way)?;
            Ok(polled)
        }
        Stop::Fails(fault) => {
            way.is_ended = true;
            Ok(Polled::Failed(fault))
        }
    }
}
