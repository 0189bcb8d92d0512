// The names under which items save pages, and their numbers.
ghost use Rattle.std.specs.Prelude.{◌≡◌, ◌-◌, ◌≤◌, length, IfOk};
ghost use Rattle.std.specs.List.{AllByRecursion};
ghost use Rattle.hk_rules.specs.Pairs as spec;

use crate::owner::Owner;
use hk_base::{Identifier, NoMemory};
use hk_chain::{Layout, PairNo, Step};
use hk_rules_file::saved;
use std::alloc::Global;

/// The pairs of the items. Linear in the items and their chains.
pub(crate) fn layout_of(alloc: Global, items: &[(Identifier, Owner)]) -> Result<Layout, NoMemory>
    requires few { length items.now ≤ 65535 }
    requires short { AllByRecursion spec.IsShort items.now }
    ensures { IfOk result (λ l. l ≡ spec.layout items.now) }
{
    let counts = counts_of(alloc, items)?;
    Layout::of_counts(alloc, &counts)
}

/// How many pages each item saves on its way.
fn counts_of(alloc: Global, items: &[(Identifier, Owner)]) -> Result<Vec<u32>, NoMemory>
    requires { AllByRecursion spec.IsShort items.now }
    ensures { IfOk result (λ v. v.items ≡ spec.counts items.now) }
{
    let mut counts = Vec::with_capacity(alloc, items.len())?;
    for item in items {
        counts.push(counted(item))?;
    }
    Ok(counts)
}

fn counted(item: &(Identifier, Owner)) -> u32
    requires { spec.IsShort item.now }
    ensures { result ≡ spec.count_of item.now }
{
    count_saves(&item.1.rule.get().chain.steps) as u32
}

fn count_saves(steps: &[Step]) -> usize
    ensures value { result ≡ length (spec.saves steps.now) }
    ensures bound { result ≤ length steps.now }
{
    let mut count = 0;
    for step in steps {
        if saved(step).is_some() {
            count += 1;
        }
    }
    count
}

/// The pair with this name of an item whose last pair is `last`. Linear in the chain.
pub(crate) fn pair_at(last: PairNo, steps: &[Step], name: &[u8]) -> Option<PairNo>
    ensures { result ≡ spec.pair_at last steps.now name.now }
{
    match place_of_save(steps, name) {
        Some(place) => Some(back(last, count_saves(steps).saturating_sub(place))),
        None => None,
    }
}

/// The pair so many pairs before another.
fn back(last: PairNo, count: usize) -> PairNo
    ensures { result ≡ last - count }
{
    PairNo((last.0 as usize).saturating_sub(count) as u32)
}

/// The place of a name among those of a chain.
fn place_of_save(steps: &[Step], name: &[u8]) -> Option<usize>
    ensures { result ≡ spec.place_of_save steps.now name.now }
{
    let mut place = 0;
    for step in steps {
        if let Some(own) = saved(step) {
            if own == name {
                return Some(place);
            }
            place += 1;
        }
    }
    if name == b"_final".as_slice() {
        Some(place)
    } else {
        None
    }
}

/// The name of a pair of an item whose last pair is `last`. Linear in the chain.
pub(crate) fn name_before<'a>(last: PairNo, steps: &'a [Step], pair: PairNo) -> &'a [u8]
    ensures { result.now ≡ spec.name_before last steps.now pair }
{
    let before = (last.0 as usize).saturating_sub(pair.0 as usize);
    name_at(steps, count_saves(steps).saturating_sub(before))
}

/// The name at a place, the finished page's after all others.
fn name_at(steps: &[Step], place: usize) -> &[u8]
    ensures { result.now ≡ spec.name_at steps.now place }
{
    let mut left = place;
    for step in steps {
        if let Some(name) = saved(step) {
            if left == 0 {
                return name;
            }
            left -= 1;
        }
    }
    b"_final"
}
