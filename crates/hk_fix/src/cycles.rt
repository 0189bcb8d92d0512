// Cycles of items that lead to one another.
ghost use Rattle.std.specs.Prelude.{◌≡◌, ◌≢◌, ℕ, ◌+◌, ◌^◌, ◌<◌, ◌≤◌, true, Some, All, Contains, IfOk, OnOk, length};
ghost use Rattle.hk_chain.specs.Kept.{at_place};
ghost use Rattle.hk_fix.specs.Report as spec;
ghost use Rattle.hk_fix.specs.Report.{on_cycle};
ghost use Rattle.hk_fix.specs.Walks.{LeadsIn, Walked, Marked, Searched, place_at, place_on_cycle};

use hk_base::NoMemory;
use hk_chain::ItemNo;
use std::alloc::Global;

/// Where an item stands: on no cycle, on one, or on one as its least member.
#[derive(Clone, Copy, Debug, PartialEq, Eq)]
pub(crate) enum Place {
    Off,
    Member,
    First,
}

/// Where each item stands. Each item is walked through once, each cycle three times.
pub(crate) fn places(alloc: Global, leads: &[Option<u32>]) -> Result<Vec<Place>, NoMemory>
    requires few { length leads.now < 2 ^ 32 }
    requires range { LeadsIn leads.now }
    ensures count { IfOk result (λ v. length v.items ≡ length leads.now) }
    ensures each { IfOk result (λ v. (q : ℕ) → q < length leads.now → place_at v.items q ≡ place_on_cycle leads.now q) }
{
    let mut walks = vec![in alloc; None; leads.len()]?;
    let mut places = vec![in alloc; Place::Off; leads.len()]?;
    for start in 0..leads.len() as u32 {
        search(alloc, leads, &mut walks, &mut places, start)?;
    }
    Ok(places)
}

/// One more walk.
fn search(
    alloc: Global,
    leads: &[Option<u32>],
    walks: &mut [Option<u32>],
    places: &mut [Place],
    start: u32,
) -> Result<(), NoMemory>
    requires range { LeadsIn leads.now }
    requires in_range { start < length leads.now }
    requires so_far { Searched leads.now walks.old places.old start }
    ensures { OnOk result (Searched leads.now walks.new places.new (start + 1)) }
{
    if let Some(item) = walk(leads, walks, start) {
        let around = members(alloc, leads, item)?;
        mark(&around, places);
    }
    Ok(())
}

/// Goes on from item to item until there is none that wasn't reached. Gives the first item of a new cycle.
fn walk(leads: &[Option<u32>], walks: &mut [Option<u32>], start: u32) -> Option<u32>
    requires count { length walks.old ≡ length leads.now }
    requires range { LeadsIn leads.now }
    requires in_range { start < length leads.now }
    requires unused { (q : ℕ) → at_place walks.old q ≢ Some start }
    ensures { Walked leads.now walks.old start result walks.new }
{
    let mut current = start;
    while walks[current as usize].is_none() {
        walks[current as usize] = Some(start);
        match leads[current as usize] {
            Some(next) => current = next,
            None => return None,
        }
    }
    if walks[current as usize] == Some(start) {
        Some(current)
    } else {
        None
    }
}

/// An item on a cycle, and those that follow until it comes again. Linear in them.
pub(crate) fn members(
    alloc: Global,
    leads: &[Option<u32>],
    item: u32,
) -> Result<Vec<ItemNo>, NoMemory>
    requires range { LeadsIn leads.now }
    requires in_range { item < length leads.now }
    requires on_cycle { on_cycle leads.now item ≡ true }
    ensures { IfOk result (λ v. v.items ≡ spec.members leads.now item) }
{
    let mut found = Vec::new(alloc);
    found.push(ItemNo(item))?;
    let mut current = item;
    for _ in 0..leads.len() {
        let follower = leads[current as usize];
        match follower {
            Some(next) if next != item => {
                found.push(ItemNo(next))?;
                current = next;
            }
            _ => return Ok(found),
        }
    }
    Ok(found)
}

/// Marks the members of a cycle.
fn mark(around: &[ItemNo], places: &mut [Place])
    requires some { 0 < length around.now }
    requires range { All (λ q. q < length places.old) around.now }
    ensures { Marked around.now places.old places.new }
{
    let first = least(around);
    for item in around {
        places[item.0 as usize] = Place::Member;
    }
    places[first as usize] = Place::First;
}

fn least(around: &[ItemNo]) -> u32
    requires { 0 < length around.now }
    ensures member { Contains around.now result }
    ensures below { All (λ q. result ≤ q) around.now }
{
    let start = around[0];
    let mut first = start.0;
    for item in around {
        if item.0 < first {
            first = item.0;
        }
    }
    first
}
