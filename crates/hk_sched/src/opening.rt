// A roster at first.
ghost use Rattle.std.specs.Prelude.{◌≡◌, ◌<◌, ◌^◌, length, map, replicate, None, Some, IfOk, if◌then◌else◌};
ghost use Rattle.hk_sched.specs.Standings.{first_standing};
ghost use Rattle.hk_sched.specs.Places.{standing};
ghost use Rattle.hk_sched.specs.Rosters.{first_stack};

use crate::place::Place;
use crate::stacks::{Stack, Stacks};
use hk_base::NoMemory;
use hk_chain::{Facts, ItemNo};
use hk_fix::{Compiler, Outcome};
use std::alloc::Global;

/// Where each item stands at first. `NoMemory` only for want of memory. Linear.
pub fn first_places<M: Compiler>(
    alloc: Global,
    facts: Vec<Option<Facts>>,
) -> Result<Vec<Place<M>>, NoMemory>
    ensures { IfOk result (λ v. map standing v.items ≡ map first_standing facts.items) }
{
    let mut places = Vec::with_capacity(alloc, facts.len())?;
    for kept in facts {
        places.push(first_place(kept))?;
    }
    Ok(places)
}

fn first_place<M: Compiler>(facts: Option<Facts>) -> Place<M>
    ensures { standing result ≡ first_standing facts }
{
    match facts {
        None => Place::Unbegun,
        Some(facts) => Place::Over(Outcome::Done(facts)),
    }
}

/// Puts the items that are to begin on their stack, the first on top. Linear.
pub fn stand_fresh<M: Compiler>(places: &[Place<M>], stacks: &mut Stacks)
    requires few { length places.now < 2 ^ 32 }
    requires empty { stacks.old.stack_of ≡ replicate (length places.now) None }
    ensures { stacks.new ≡ record stacks.old { stack_of = map first_stack (map standing places.now) } }
{
    let mut left = places.len();
    while left > 0 {
        left -= 1;
        if is_unbegun(&places[left]) {
            stacks.push(Stack::Fresh, ItemNo(left as u32));
        }
    }
}

fn is_unbegun<M: Compiler>(place: &Place<M>) -> bool
    ensures { first_stack (standing place.now) ≡ (if result then Some Stack.Fresh else None) }
{
    matches!(place, Place::Unbegun)
}
