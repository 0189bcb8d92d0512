// The members of a feed, the latest first.
ghost use Rattle.std.specs.Prelude.{◌≡◌, ◌<◌, ◌++◌, IfOk, OnOk, All, length, map};
ghost use Rattle.std.specs.Option.{option_to_list};
ghost use Rattle.hk_rules.specs.Plan.{lookups};
ghost use Rattle.hk_feed.specs.Recent as spec;

use crate::members::{date_at, members};
use hk_base::NoMemory;
use hk_chain::ItemNo;
use hk_meta::Moment;
use hk_rules::Plan;
use hk_rules_file::FeedRule;
use std::alloc::Global;

/// An item with its date.
#[derive(Drop)]
pub(crate) struct Dated {
    pub date: Moment,
    pub item: ItemNo,
}

/// The first members of a feed in recent order, as many as its limit says.
pub(crate) fn first_recent(
    alloc: Global,
    plan: &Plan,
    feed: &FeedRule,
) -> Result<Vec<ItemNo>, NoMemory>
    ensures items { IfOk result (λ v. v.items ≡ spec.first_recent (lookups plan.now) feed.now) }
    ensures within { IfOk result (λ v. All (λ item. item < length plan.now.items) v.items) }
{
    let mut items = recent(alloc, plan, feed)?;
    items.truncate(feed.limit as usize);
    Ok(items)
}

/// The members of a feed from the latest to the earliest, those of the same time from the last to the first. One sort.
fn recent(alloc: Global, plan: &Plan, feed: &FeedRule) -> Result<Vec<ItemNo>, NoMemory>
    ensures { IfOk result (λ v. v.items ≡ spec.recent (lookups plan.now) feed.now) }
{
    let members = members(alloc, plan, feed)?;
    let mut dated = with_dates(alloc, plan, &members)?;
    sort(&mut dated)?;
    dated.reverse();
    items_in(alloc, dated)
}

/// The items with their dates. Each date is read once.
fn with_dates(alloc: Global, plan: &Plan, items: &[ItemNo]) -> Result<Vec<Dated>, NoMemory>
    requires { All (λ item. item < length plan.now.items) items.now }
    ensures { IfOk result (λ v. v.items ≡ spec.dated (lookups plan.now) items.now) }
{
    let mut dated = Vec::with_capacity(alloc, items.len())?;
    for item in items {
        add_dated(&mut dated, *item, date_at(plan, *item))?;
    }
    Ok(dated)
}

fn add_dated(dated: &mut Vec<Dated>, item: ItemNo, date: Option<Moment>) -> Result<(), NoMemory>
    ensures { OnOk result (dated.new.items ≡ dated.old.items ++ option_to_list (spec.dated_by item date)) }
{
    if let Some(date) = date {
        dated.push(Dated { date, item })?;
    }
    Ok(())
}

fn sort(dated: &mut Vec<Dated>) -> Result<(), NoMemory>
    ensures { OnOk result (dated.new.items ≡ spec.by_date dated.old.items) }
{
    dated.sort_by_key(|d| d.date)?;
    Ok(())
}

fn items_in(alloc: Global, dated: Vec<Dated>) -> Result<Vec<ItemNo>, NoMemory>
    ensures { IfOk result (λ v. v.items ≡ map spec.item_in dated.items) }
{
    let mut items = Vec::with_capacity(alloc, dated.len())?;
    for d in dated {
        items.push(d.item)?;
    }
    Ok(items)
}
