// A machine: the compiler of one item, suspended where it asks for pages.
ghost use Rattle.std.specs.Prelude.{◌≡◌, ◌<◌, length, IfOk};
ghost use Rattle.hk_fix.specs.Meaning.{fresh};

use crate::maker::runs;
use crate::making::page_of;
use crate::way::Way;
use crate::work::Work;
use hk_base::{NoMemory, Shared};
use hk_chain::{ItemNo, Kind};
use hk_eval::{Awaited, Notes, Told};
use hk_rules::Plan;
use std::alloc::Global;
use std::marker::Model;

/// The compiler of one item, which runs the item's chain and stops where it asks for pages.
#[derive(Drop)]
pub struct Machine {
    pub(crate) plan: Shared<Plan>,
    pub(crate) item: ItemNo,
    pub(crate) way: Way,
    pub(crate) is_spent: bool,
}

impl Model for Machine {
    ghost use Rattle.std.specs.Prelude.{◌≡◌, ◌<◌, length, false};
    ghost use Rattle.std.specs.Coded.{codes};
    ghost use Rattle.hk_rules.specs.contracts.plan.Plan as plans;
    ghost use Rattle.hk_rules.specs.Plan.{lookups};
    ghost use Rattle.hk_machine.specs.Machine.{MachineView, view_of};
    ghost use Rattle.hk_machine.specs.Keeping.{Keeps, HasRoom, HasCome};
    ghost use Rattle.hk_machine.specs.Runnable.{Runs};

    ghost Value = { MachineView };

    ghost coded = { Prim.hlevel (codes, plans.the_row.coded) };

    ghost view = { λ m. view_of m.plan m.item m.way m.is_spent };

    ghost invariant = { λ m. Runs m.plan × (m.item < length m.plan.items) × (m.is_spent ≡ false → m.way.is_ended ≡ false → Keeps m.plan m.item m.way) × HasRoom m.way × HasCome (lookups m.plan) m.item m.way };
}

impl Machine {
    ghost use Rattle.hk_machine.specs.Machine.{meaning_of};

    /// The compiler of an item, which hasn't begun. `NoMemory` only for want of memory. Constant.
    pub fn new(alloc: Global, plan: Shared<Plan>, item: ItemNo) -> Result<Machine, NoMemory>
        requires { item < length plan.items }
        ensures { IfOk result (λ m. meaning_of m ≡ fresh plan item) }
    {
        runs(plan.get());
        let work = Work {
            at: 0,
            page: page_of(alloc, Kind::Text, b"")?,
            rendering: None,
            notes: Notes::new(alloc),
        };
        let way = Way {
            work,
            told: Told::new(alloc),
            awaits: Awaited::none(alloc),
            given: 0,
            last: None,
            used: Vec::new(alloc),
            is_ended: false,
        };
        Ok(Machine {
            plan,
            item,
            way,
            is_spent: false,
        })
    }
}
