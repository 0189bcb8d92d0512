// The targets of items.
ghost use Rattle.std.specs.Prelude.{Some};
ghost use Rattle.hk_base.specs.Answers.{Answers};
ghost use Rattle.hk_rules.specs.Outcomes.{AnswersList, each};
ghost use Rattle.hk_rules.specs.Targets as spec;

use crate::owner::Owner;
use crate::plan_fault::PlanFault;
use hk_base::{Identifier, Refusal, Text};
use hk_route::{Route, target};
use std::alloc::Global;

/// The target of each item; `BadTarget` with the first item whose route gives a bad path. One pass over the paths for
/// each route that is taken.
#[tactic(auto, using(crate::proofs::Traversal::each_turn))]
pub(crate) fn targets_of(
    alloc: Global,
    items: &[(Identifier, Owner)],
) -> Result<Vec<Option<Text>>, Refusal<PlanFault>>
    ensures { AnswersList (each spec.target_of items.now) result }
{
    let mut targets = Vec::with_capacity(alloc, items.len())?;
    for item in items {
        let target = target_of(alloc, item)?;
        targets.push(target)?;
    }
    Ok(targets)
}

fn target_of(alloc: Global, item: &(Identifier, Owner)) -> Result<Option<Text>, Refusal<PlanFault>>
    ensures { Answers (spec.target_of item.now) result }
{
    match &item.1.rule.get().route {
        Some(route) => target_at(alloc, &item.0, route),
        None => Ok(None),
    }
}

fn target_at(
    alloc: Global,
    id: &Identifier,
    route: &Route,
) -> Result<Option<Text>, Refusal<PlanFault>>
    ensures { Answers (spec.target_at id.now (Some route.now)) result }
{
    match target(alloc, route, id) {
        Ok(target) => Ok(target),
        Err(Refusal::NoMemory) => Err(Refusal::NoMemory),
        Err(Refusal::Fault(_)) => Err(Refusal::Fault(PlanFault::BadTarget {
            id: id.copy(alloc)?,
        })),
    }
}
