// The members of a table, and their dates and tags.
ghost use Rattle.std.specs.Prelude.{◌≡◌, ◌<◌, ◌++◌, [], ◌∷◌, if◌then◌else◌, IfOk, OnOk, length};
ghost use Rattle.std.specs.List.{AllByRecursion};
ghost use Rattle.hk_rules.specs.Plan.{lookups};
ghost use Rattle.hk_tags.specs.Members as spec;

use crate::tag_texts::tags_in;
use hk_base::{NoMemory, Text};
use hk_chain::ItemNo;
use hk_meta::{Moment, date_of};
use hk_pattern::Pattern;
use hk_rules::Plan;
use std::alloc::Global;

/// The items that a pattern matches, in identifier order. Each item is tested once.
pub(crate) fn members(alloc: Global, plan: &Plan, of: &Pattern) -> Result<Vec<ItemNo>, NoMemory>
    ensures members { IfOk result (λ v. v.items ≡ spec.members (lookups plan.now) of.now) }
    ensures within { IfOk result (λ v. AllByRecursion (λ item. item < length plan.now.items) v.items) }
{
    let mut members = Vec::new(alloc);
    for number in 0..plan.count() {
        add_member(&mut members, plan, of, ItemNo(number))?;
    }
    Ok(members)
}

fn add_member(
    members: &mut Vec<ItemNo>,
    plan: &Plan,
    of: &Pattern,
    item: ItemNo,
) -> Result<(), NoMemory>
    requires { item < length plan.now.items }
    ensures { OnOk result (members.new.items ≡ members.old.items ++ (if spec.is_member (lookups plan.now) of.now item then item ∷ [] else [])) }
{
    if of.matches(plan.id(item)) {
        members.push(item)?;
    }
    Ok(())
}

/// The date of an item.
pub(crate) fn date_at(plan: &Plan, item: ItemNo) -> Option<Moment>
    requires { item < length plan.now.items }
    ensures { result ≡ spec.date_at (lookups plan.now) item }
{
    date_of(plan.meta(item), plan.id(item).path())
}

/// The tags of an item, which its metadata lists at a key.
pub(crate) fn tags_at(
    alloc: Global,
    plan: &Plan,
    field: &[u8],
    item: ItemNo,
) -> Result<Vec<Text>, NoMemory>
    requires { item < length plan.now.items }
    ensures { IfOk result (λ v. v.items ≡ spec.tags_at (lookups plan.now) field.now item) }
{
    match plan.meta(item).get(field) {
        Some(text) => tags_in(alloc, text),
        None => Ok(Vec::new(alloc)),
    }
}
