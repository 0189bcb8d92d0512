// The order of a table's members.
ghost use Rattle.std.specs.Prelude.{◌≡◌, ◌<◌, length, map, IfOk, OnOk};
ghost use Rattle.std.specs.List.{AllByRecursion};
ghost use Rattle.hk_rules.specs.Plan.{lookups};
ghost use Rattle.hk_tags.specs.Dates as spec;
ghost use Rattle.hk_tags.specs.Ordered.{dates_of, order_of};

use crate::members::date_at;
use hk_base::NoMemory;
use hk_chain::{ItemNo, Order};
use hk_meta::Moment;
use hk_rules::Plan;
use std::alloc::Global;

/// Items in an order, or the first that lacks what this needs.
#[derive(Drop)]
pub(crate) enum Ordered {
    Items(Vec<ItemNo>),
    Lacks(ItemNo),
}

/// An item with its date.
#[derive(Drop)]
pub(crate) struct Dated {
    pub date: Moment,
    pub item: ItemNo,
}

/// Items with their dates, or the first that has none.
#[derive(Drop)]
pub(crate) enum Dates {
    All(Vec<Dated>),
    Lacks(ItemNo),
}

/// The items in their order, or the first whose date is wanting. One sort where the order is one of dates.
pub(crate) fn in_order(
    alloc: Global,
    plan: &Plan,
    order: Order,
    items: Vec<ItemNo>,
) -> Result<Ordered, NoMemory>
    requires { AllByRecursion (λ item. item < length plan.now.items) items.items }
    ensures { IfOk result (λ r. order_of r ≡ spec.ordered (lookups plan.now) order items.items) }
{
    match order {
        Order::Id => Ok(Ordered::Items(items)),
        Order::Chronological => by_date(alloc, plan, items),
        Order::Recent => Ok(reversed(by_date(alloc, plan, items)?)),
    }
}

fn reversed(ordered: Ordered) -> Ordered
    ensures { order_of result ≡ spec.reversed (order_of ordered) }
{
    match ordered {
        Ordered::Items(items) => {
            let mut items = items;
            items.reverse();
            Ordered::Items(items)
        }
        Ordered::Lacks(item) => Ordered::Lacks(item),
    }
}

/// The items in the order of time, or the first without a date.
fn by_date(alloc: Global, plan: &Plan, items: Vec<ItemNo>) -> Result<Ordered, NoMemory>
    requires { AllByRecursion (λ item. item < length plan.now.items) items.items }
    ensures { IfOk result (λ r. order_of r ≡ spec.chronological (spec.dated (lookups plan.now) items.items)) }
{
    match with_dates(alloc, plan, items)? {
        Dates::All(dated) => {
            let items = sorted(alloc, dated)?;
            Ok(Ordered::Items(items))
        }
        Dates::Lacks(item) => Ok(Ordered::Lacks(item)),
    }
}

/// The items with their dates. Each date is read once.
fn with_dates(alloc: Global, plan: &Plan, items: Vec<ItemNo>) -> Result<Dates, NoMemory>
    requires { AllByRecursion (λ item. item < length plan.now.items) items.items }
    ensures { IfOk result (λ r. dates_of r ≡ spec.dated (lookups plan.now) items.items) }
{
    let mut dated = Vec::with_capacity(alloc, items.len())?;
    for item in items {
        match date_at(plan, item) {
            Some(date) => dated.push(Dated { date, item })?,
            None => return Ok(Dates::Lacks(item)),
        }
    }
    Ok(Dates::All(dated))
}

/// The items in the order of their dates; those of one date stay as they stand.
fn sorted(alloc: Global, dated: Vec<Dated>) -> Result<Vec<ItemNo>, NoMemory>
    ensures { IfOk result (λ v. v.items ≡ map spec.item_in (spec.by_date dated.items)) }
{
    let mut dated = dated;
    sort(&mut dated)?;
    items_in(alloc, dated)
}

fn sort(dated: &mut Vec<Dated>) -> Result<(), NoMemory>
    ensures { OnOk result (dated.new.items ≡ spec.by_date dated.old.items) }
{
    dated.sort_by_key(|d| d.date)?;
    Ok(())
}

fn items_in(alloc: Global, dated: Vec<Dated>) -> Result<Vec<ItemNo>, NoMemory>
    ensures { IfOk result (λ v. v.items ≡ map spec.item_in dated.items) }
{
    let mut items = Vec::with_capacity(alloc, dated.len())?;
    for d in dated {
        items.push(d.item)?;
    }
    Ok(items)
}
