// The places of a list.
ghost use Rattle.std.specs.Prelude.{◌≡◌, ◌<◌, [], length, map, IfOk};
ghost use Rattle.std.specs.List.{AllByRecursion};
ghost use Rattle.hk_fix.specs.Pages.{Pages};
ghost use Rattle.hk_fix.specs.Task.{notes as noting, used, ◌▷◌, run};
ghost use Rattle.hk_rules.specs.Plan.{lookups};
ghost use Rattle.hk_eval.specs.Asking.{ask_group, other_kind};
ghost use Rattle.hk_eval.specs.Groups.{told_page};
ghost use Rattle.hk_eval.specs.Lists as spec;
ghost use Rattle.hk_eval.specs.Placing.{placed_by, placing_of};
ghost use Rattle.hk_eval.specs.Renderable.{IsRenderable};
ghost use Rattle.hk_eval.specs.Replies.{listed_end, listing_of, Comes, ArePlacesWithin};
ghost use Rattle.hk_eval.specs.Told.{told_pages, AllTold};

use crate::asking::is_text;
use crate::group::{Group, lacking, pairs_of};
use crate::listed::Listed;
use crate::look::Listing;
use crate::notes::Notes;
use crate::place::Place;
use crate::placing::{Placed, in_order};
use crate::told::Told;
use hk_base::{NoMemory, Text};
use hk_chain::{ContextNo, Fault, ItemNo, PairNo};
use hk_rules::Plan;
use std::alloc::Global;

/// The places of a list: its pattern's items in their order, cut by its limit, each with the page that it saves under the
/// list's name and in the list's context. `NoSnapshot` of the first item that has no such page, `WrongKind` of the first
/// whose page isn't text once all are told, and `NoDate` of the first without a date where the order is one of dates. Where
/// pages are wanted that aren't told, nothing is noted, and else the pattern and the pairs are. After `NoMemory` nothing is
/// said of the notes. Linear in the chains of the items that match, which the plan holds, logarithmic in the told pages for
/// each, and one sort.
pub fn list_of(
    alloc: Global,
    plan: &Plan,
    told: &Told,
    listing: &Listing<'_>,
    notes: &mut Notes,
) -> Result<Listed, NoMemory>
    requires plan { IsRenderable (lookups plan.now) (length plan.now.items) (length plan.now.contexts) (length plan.now.patterns) }
    requires pattern { listing.now.pattern < length plan.now.patterns }
    requires context { listing.now.context < length plan.now.contexts }
    ensures comes { IfOk result (λ r. Comes (told_pages told.now) (spec.list_task (lookups plan.now) (listing_of listing.now)) notes.old (listed_end r) notes.new) }
    ensures within { IfOk result (λ r. ArePlacesWithin (length plan.now.items) (length plan.now.contexts) r) }
{
    let items = plan.matches(listing.pattern);
    match pairs_of(alloc, plan, items, listing.snapshot)? {
        Group::Pairs(pairs) => all_of(alloc, plan, told, listing, items, &pairs, notes),
        Group::Lacks(item) => Ok(Listed::Fails(Fault::NoSnapshot {
            id: plan.id(item).copy(alloc)?,
            name: Text::from_slice(alloc, listing.snapshot)?,
        })),
    }
}

/// The same, once the pairs are known.
fn all_of(
    alloc: Global,
    plan: &Plan,
    told: &Told,
    listing: &Listing<'_>,
    items: &[ItemNo],
    pairs: &[PairNo],
    notes: &mut Notes,
) -> Result<Listed, NoMemory>
    requires same { length items.now ≡ length pairs.now }
    requires items { AllByRecursion (λ i. i < length plan.now.items) items.now }
    ensures { IfOk result (λ r. Comes (told_pages told.now) (noting (used listing.now.pattern) (ask_group pairs.now ▷ spec.places_task (lookups plan.now) (listing_of listing.now) items.now)) notes.old (listed_end r) notes.new) }
{
    let lacks = lacking(alloc, told, pairs)?;
    if !lacks.is_empty() {
        return Ok(Listed::Asks(lacks));
    }
    notes.note_pattern(listing.pattern)?;
    notes.note_group(alloc, pairs)?;
    let listed = made_of(alloc, plan, told, listing, items, pairs)?;
    Ok(listed)
}

/// The same, where all pages are told.
fn made_of(
    alloc: Global,
    plan: &Plan,
    told: &Told,
    listing: &Listing<'_>,
    items: &[ItemNo],
    pairs: &[PairNo],
) -> Result<Listed, NoMemory>
    requires same { length items.now ≡ length pairs.now }
    requires items { AllByRecursion (λ i. i < length plan.now.items) items.now }
    requires told { AllTold (told_pages told.now) pairs.now }
    ensures { IfOk result (λ r. (k : Pages) → run (spec.places_task (lookups plan.now) (listing_of listing.now) items.now (map (told_page (told_pages told.now)) pairs.now)) k ≡ record { log = []; end = listed_end r }) }
{
    match places_of(alloc, told, listing.context, items, pairs)? {
        Placed::Places(places) => ordered(alloc, plan, listing, places),
        Placed::Lacks(item) => Ok(Listed::Fails(Fault::WrongKind {
            id: plan.id(item).copy(alloc)?,
        })),
    }
}

/// The places in their order, cut by the limit.
fn ordered(
    alloc: Global,
    plan: &Plan,
    listing: &Listing<'_>,
    places: Vec<Place>,
) -> Result<Listed, NoMemory>
    requires { AllByRecursion (λ p. p.item < length plan.now.items) places.items }
    ensures { IfOk result (λ r. (k : Pages) → run (spec.limited_task (lookups plan.now) listing.now.limit (spec.ordered (lookups plan.now) listing.now.order places.items)) k ≡ record { log = []; end = listed_end r }) }
{
    match in_order(alloc, plan, listing.order, places)? {
        Placed::Places(places) => Ok(Listed::Places(limited(places, listing.limit))),
        Placed::Lacks(item) => Ok(Listed::Fails(Fault::NoDate {
            id: plan.id(item).copy(alloc)?,
        })),
    }
}

fn limited(places: Vec<Place>, limit: Option<u32>) -> Vec<Place>
    ensures { result.items ≡ spec.limited limit places.items }
{
    let mut places = places;
    if let Some(most) = limit {
        places.truncate(most as usize);
    }
    places
}

/// The items with their pages, or the first item whose page isn't text.
fn places_of(
    alloc: Global,
    told: &Told,
    context: ContextNo,
    items: &[ItemNo],
    pairs: &[PairNo],
) -> Result<Placed, NoMemory>
    requires same { length items.now ≡ length pairs.now }
    requires told { AllTold (told_pages told.now) pairs.now }
    ensures { IfOk result (λ r. let pages = map (told_page (told_pages told.now)) pairs.now in placing_of r ≡ placed_by (spec.places_of context items.now pages) (other_kind items.now pages)) }
{
    let mut places = Vec::with_capacity(alloc, items.len())?;
    for i in 0..pairs.len() {
        let Some(page) = told.get(pairs[i]) else {
            unreachable!()
        };
        if !is_text(page.get()) {
            return Ok(Placed::Lacks(items[i]));
        }
        places.push(Place {
            item: items[i],
            page: page.try_clone()?,
            context,
        })?;
    }
    Ok(Placed::Places(places))
}
