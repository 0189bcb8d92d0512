// The pages of several items: their pairs, and those that aren't told.
ghost use Rattle.std.specs.Prelude.{◌≡◌, ◌<◌, length, IfOk};
ghost use Rattle.std.specs.List.{AllByRecursion};
ghost use Rattle.hk_fix.specs.Pages.{lacking as lacking_in};
ghost use Rattle.hk_rules.specs.Plan.{lookups};
ghost use Rattle.hk_eval.specs.Asking.{pairs_of as pairs_for};
ghost use Rattle.hk_eval.specs.Groups.{group_of};
ghost use Rattle.hk_eval.specs.Told.{told_pages};

use crate::told::Told;
use hk_base::NoMemory;
use hk_chain::{ItemNo, PairNo};
use hk_rules::Plan;
use std::alloc::Global;

/// The pairs of several items.
#[derive(Drop)]
pub enum Group {
    Pairs(Vec<PairNo>),
    /// The first item that has no such pair.
    Lacks(ItemNo),
}

/// The pairs of some items with a name. `NoMemory` only for want of memory. Linear in the items and their chains.
pub fn pairs_of(
    alloc: Global,
    plan: &Plan,
    items: &[ItemNo],
    name: &[u8],
) -> Result<Group, NoMemory>
    requires { AllByRecursion (λ i. i < length plan.now.items) items.now }
    ensures { IfOk result (λ g. group_of g ≡ pairs_for (lookups plan.now) name.now items.now) }
{
    let mut pairs = Vec::with_capacity(alloc, items.len())?;
    for item in items {
        match plan.pair(*item, name) {
            Some(pair) => pairs.push(pair)?,
            None => return Ok(Group::Lacks(*item)),
        }
    }
    Ok(Group::Pairs(pairs))
}

/// Those of the pairs whose pages aren't told. `NoMemory` only for want of memory. Logarithmic for each.
pub fn lacking(alloc: Global, told: &Told, pairs: &[PairNo]) -> Result<Vec<PairNo>, NoMemory>
    ensures { IfOk result (λ v. v.items ≡ lacking_in (told_pages told.now) pairs.now) }
{
    let mut lacks = Vec::new(alloc);
    for pair in pairs {
        if told.get(*pair).is_none() {
            lacks.push(*pair)?;
        }
    }
    Ok(lacks)
}
