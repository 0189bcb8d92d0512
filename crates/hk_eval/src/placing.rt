// The order of a list's places.
ghost use Rattle.std.specs.Prelude.{◌≡◌, ◌<◌, length, map, IfOk, OnOk};
ghost use Rattle.std.specs.List.{AllByRecursion};
ghost use Rattle.hk_rules.specs.Plan.{lookups};
ghost use Rattle.hk_eval.specs.Lists as spec;
ghost use Rattle.hk_eval.specs.Placing.{placing_of, dates_of};

use crate::place::Place;
use hk_base::NoMemory;
use hk_chain::{ItemNo, Order};
use hk_meta::{Moment, date_of};
use hk_rules::Plan;
use std::alloc::Global;

/// Places, or the first item that lacks what each of them needs.
#[derive(Drop)]
pub(crate) enum Placed {
    Places(Vec<Place>),
    Lacks(ItemNo),
}

/// A place with its item's date.
#[derive(Drop)]
pub(crate) struct Dated {
    pub date: Moment,
    pub place: Place,
}

/// Places with dates, or the first item that has none.
#[derive(Drop)]
pub(crate) enum Dates {
    All(Vec<Dated>),
    Lacks(ItemNo),
}

/// The places in their order, or the first item whose date is wanting. One sort where the order is one of dates.
pub(crate) fn in_order(
    alloc: Global,
    plan: &Plan,
    order: Order,
    places: Vec<Place>,
) -> Result<Placed, NoMemory>
    requires { AllByRecursion (λ p. p.item < length plan.now.items) places.items }
    ensures { IfOk result (λ r. placing_of r ≡ spec.ordered (lookups plan.now) order places.items) }
{
    match order {
        Order::Id => Ok(Placed::Places(places)),
        Order::Chronological => by_date(alloc, plan, places),
        Order::Recent => Ok(reversed(by_date(alloc, plan, places)?)),
    }
}

fn reversed(placed: Placed) -> Placed
    ensures { placing_of result ≡ spec.reversed (placing_of placed) }
{
    match placed {
        Placed::Places(places) => {
            let mut places = places;
            places.reverse();
            Placed::Places(places)
        }
        Placed::Lacks(item) => Placed::Lacks(item),
    }
}

/// The places in the order of time, or the first item without a date.
fn by_date(alloc: Global, plan: &Plan, places: Vec<Place>) -> Result<Placed, NoMemory>
    requires { AllByRecursion (λ p. p.item < length plan.now.items) places.items }
    ensures { IfOk result (λ r. placing_of r ≡ spec.chronological (spec.dated (lookups plan.now) places.items)) }
{
    match with_dates(alloc, plan, places)? {
        Dates::All(dated) => {
            let places = sorted(alloc, dated)?;
            Ok(Placed::Places(places))
        }
        Dates::Lacks(item) => Ok(Placed::Lacks(item)),
    }
}

/// The places with their dates. Each date is read once.
fn with_dates(alloc: Global, plan: &Plan, places: Vec<Place>) -> Result<Dates, NoMemory>
    requires { AllByRecursion (λ p. p.item < length plan.now.items) places.items }
    ensures { IfOk result (λ r. dates_of r ≡ spec.dated (lookups plan.now) places.items) }
{
    let mut dated = Vec::with_capacity(alloc, places.len())?;
    for place in places {
        match date_of(plan.meta(place.item), plan.id(place.item).path()) {
            Some(date) => dated.push(Dated { date, place })?,
            None => return Ok(Dates::Lacks(place.item)),
        }
    }
    Ok(Dates::All(dated))
}

/// The places in the order of their dates; those of one date stay as they stand.
fn sorted(alloc: Global, dated: Vec<Dated>) -> Result<Vec<Place>, NoMemory>
    ensures { IfOk result (λ v. v.items ≡ map spec.place_in (spec.by_date dated.items)) }
{
    let mut dated = dated;
    sort(&mut dated)?;
    places_in(alloc, dated)
}

fn sort(dated: &mut Vec<Dated>) -> Result<(), NoMemory>
    ensures { OnOk result (dated.new.items ≡ spec.by_date dated.old.items) }
{
    dated.sort_by_key(|d| d.date)?;
    Ok(())
}

fn places_in(alloc: Global, dated: Vec<Dated>) -> Result<Vec<Place>, NoMemory>
    ensures { IfOk result (λ v. v.items ≡ map spec.place_in dated.items) }
{
    let mut places = Vec::with_capacity(alloc, dated.len())?;
    for d in dated {
        places.push(d.place)?;
    }
    Ok(places)
}
