// The items of a feed.
ghost use Rattle.std.specs.Prelude.{◌≡◌, ◌<◌, ◌++◌, [], ◌∷◌, if◌then◌else◌, IfOk, OnOk, IfSome, All, length};
ghost use Rattle.hk_meta.specs.Date.{IsMoment};
ghost use Rattle.hk_rules.specs.Plan.{lookups};
ghost use Rattle.hk_feed.specs.Members as spec;

use hk_base::NoMemory;
use hk_chain::ItemNo;
use hk_meta::{Moment, date_of};
use hk_rules::Plan;
use hk_rules_file::FeedRule;
use std::alloc::Global;

/// The items that the feed's pattern matches and that have a target, in identifier order. Each item is tested once.
pub(crate) fn members(alloc: Global, plan: &Plan, feed: &FeedRule) -> Result<Vec<ItemNo>, NoMemory>
    ensures members { IfOk result (λ v. v.items ≡ spec.members (lookups plan.now) feed.now) }
    ensures within { IfOk result (λ v. All (λ item. item < length plan.now.items) v.items) }
{
    let mut members = Vec::new(alloc);
    for number in 0..plan.count() {
        add_member(&mut members, plan, feed, ItemNo(number))?;
    }
    Ok(members)
}

fn add_member(
    members: &mut Vec<ItemNo>,
    plan: &Plan,
    feed: &FeedRule,
    item: ItemNo,
) -> Result<(), NoMemory>
    requires { item < length plan.now.items }
    ensures { OnOk result (members.new.items ≡ members.old.items ++ (if spec.is_member (lookups plan.now) feed.now item then item ∷ [] else [])) }
{
    if is_member(plan, feed, item) {
        members.push(item)?;
    }
    Ok(())
}

fn is_member(plan: &Plan, feed: &FeedRule, item: ItemNo) -> bool
    requires { item < length plan.now.items }
    ensures { result ≡ spec.is_member (lookups plan.now) feed.now item }
{
    feed.of.matches(plan.id(item)) && plan.target_of(item).is_some()
}

/// The date of an item.
pub(crate) fn date_at(plan: &Plan, item: ItemNo) -> Option<Moment>
    requires { item < length plan.now.items }
    ensures value { result ≡ spec.date_at (lookups plan.now) item }
    ensures valid { IfSome result IsMoment }
{
    date_of(plan.meta(item), plan.id(item).path())
}
