// A machine is a compiler.
ghost use Rattle.std.specs.Prelude.{◌≡◌, ◌<◌, ◌≤◌, ◌++◌, ◌∷◌, [], length};
ghost use Rattle.std.specs.Vec.{vec_capacity};

use crate::going::go;
use crate::machine::Machine;
use hk_base::{NoMemory, Shared};
use hk_chain::{ItemNo, PageRef, PairNo};
use hk_fix::{Compiler, Polled};
use hk_rules::Plan;
use std::alloc::Global;

impl Compiler for Machine {
    ghost use Rattle.std.specs.Prelude.{length};
    ghost use Rattle.hk_rules.specs.Plan.{lookups};
    ghost use Rattle.hk_machine.specs.Runnable.{Runs};
    ghost use Rattle.hk_machine.specs.Machine.{plan_shape, plan_run, meaning_of};
    ghost use Rattle.hk_machine.specs.Laws.{runs-are};

    type Common = Shared<Plan>;

    ghost valid = { Runs };

    ghost shape = { plan_shape };

    ghost run = { plan_run };

    ghost meaning = { meaning_of };

    fn item(&self) -> ItemNo {
        self.item
    }

    fn poll(&mut self, alloc: Global) -> Result<Polled, NoMemory> {
        if self.is_spent {
            return Err(NoMemory);
        }
        match go(alloc, self.plan.get(), self.item, &mut self.way) {
            Ok(polled) => Ok(polled),
            Err(NoMemory) => {
                self.is_spent = true;
                Err(NoMemory)
            }
        }
    }

    fn open_pairs(&self) -> &[PairNo] {
        self.way.awaits.as_slice()
    }

    fn answer(&mut self, pair: PairNo, page: PageRef) {
        self.way.awaits.take_out(pair);
        use_pair(&mut self.way.used, pair);
        self.way.told.answer(pair, page);
    }

    fn into_open(self) -> Vec<PairNo> {
        let way = self.way;
        way.awaits.into_vec()
    }

    fn used(&self) -> &[PairNo] {
        self.way.used.as_slice()
    }

    ghost shaped = { λ c valid. valid.shape };

    ghost laws = { λ c valid. runs-are (lookups c) (length c.items) (length c.contexts) (length c.patterns) valid };
}

/// One more pair, for which there is room.
fn use_pair(pairs: &mut Vec<PairNo>, pair: PairNo)
    requires { length pairs.old.items < vec_capacity pairs.old }
    ensures added { pairs.new.items ≡ pairs.old.items ++ pair ∷ [] }
    ensures room { vec_capacity pairs.old ≤ vec_capacity pairs.new }
{
    match pairs.push(pair) {
        Ok(_) => {}
        Err(_) => unreachable!(),
    }
}
