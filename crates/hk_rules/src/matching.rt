// Which items each pattern matches.
ghost use Rattle.std.specs.Prelude.{◌≡◌, ◌≤◌, Bool, ◌&&◌, ◌||◌, not, length, map, filter, IfOk};
ghost use Rattle.std.specs.List.{list_all, list_any, range_with_len, slice_index_or};
ghost use Rattle.std.specs.List.Sorted.{IsStrictlySortedBy};
ghost use Rattle.std.specs.Map.{keys_of};
ghost use Rattle.hk_base.specs.Identifier.{ident_cmp};
ghost use Rattle.hk_rules.specs.Flags.{is_chosen, is_item, merged};
ghost use Rattle.hk_rules.specs.Plan.{matches_in};

use crate::finding::item_with;
use crate::matched::Matched;
use crate::owner::Owner;
use hk_base::{Identifier, NoMemory};
use hk_chain::ItemNo;
use hk_pattern::Pattern;
use std::alloc::Global;

/// For each pattern the items that it matches, in order. For each pattern one pass over the items: each glob and version
/// in it is tested once on each item, and each identifier in it is looked up once.
pub(crate) fn matches_of(
    alloc: Global,
    items: &[(Identifier, Owner)],
    patterns: &[Pattern],
) -> Result<Vec<Matched>, NoMemory>
    requires few { length items.now ≤ 65535 }
    requires sorted { IsStrictlySortedBy ident_cmp (keys_of items.now) }
    ensures { IfOk result (λ v. v.items ≡ map (matches_in items.now) patterns.now) }
{
    let mut matches = Vec::with_capacity(alloc, patterns.len())?;
    for pattern in patterns {
        let numbers = matching(alloc, items, pattern)?;
        matches.push(Matched { items: numbers })?;
    }
    Ok(matches)
}

/// The numbers of the items that the pattern matches, in order. Each glob and version is tested once on each item, and
/// each identifier in the pattern is looked up once.
fn matching(
    alloc: Global,
    items: &[(Identifier, Owner)],
    pattern: &Pattern,
) -> Result<Vec<ItemNo>, NoMemory>
    requires few { length items.now ≤ 65535 }
    requires sorted { IsStrictlySortedBy ident_cmp (keys_of items.now) }
    ensures { IfOk result (λ v. v.items ≡ matches_in items.now pattern.now) }
{
    let flags = flags_of(alloc, items, pattern)?;
    numbers_of(alloc, &flags)
}

/// The numbers of the flags that are set.
fn numbers_of(alloc: Global, flags: &[bool]) -> Result<Vec<ItemNo>, NoMemory>
    requires { length flags.now ≤ 65535 }
    ensures { IfOk result (λ v. (d : Bool) → v.items ≡ filter (λ index. slice_index_or flags.now index d) (range_with_len 0 (length flags.now))) }
{
    let mut numbers = Vec::new(alloc);
    for index in 0..flags.len() {
        if flags[index] {
            numbers.push(ItemNo(index as u32))?;
        }
    }
    Ok(numbers)
}

/// For each item whether the pattern matches it.
#[cycle(flagging)]
fn flags_of(
    alloc: Global,
    items: &[(Identifier, Owner)],
    pattern: &Pattern,
) -> Result<Vec<bool>, NoMemory>
    requires few { length items.now ≤ 65535 }
    requires sorted { IsStrictlySortedBy ident_cmp (keys_of items.now) }
    ensures { IfOk result (λ v. v.items ≡ map (is_chosen pattern.now) items.now) }
{
    match pattern {
        Pattern::Ids(ids) => flags_of_listed(alloc, items, ids.as_slice()),
        Pattern::And(patterns) => flags_of_all(alloc, items, patterns.as_slice()),
        Pattern::Or(patterns) => flags_of_any(alloc, items, patterns.as_slice()),
        Pattern::Not(pattern) => {
            let flags = flags_of(alloc, items, pattern.get())?;
            turned(alloc, &flags)
        }
        _ => flags_of_tested(alloc, items, pattern),
    }
}

#[cycle(flagging)]
fn flags_of_all(
    alloc: Global,
    items: &[(Identifier, Owner)],
    patterns: &[Pattern],
) -> Result<Vec<bool>, NoMemory>
    requires few { length items.now ≤ 65535 }
    requires sorted { IsStrictlySortedBy ident_cmp (keys_of items.now) }
    ensures { IfOk result (λ v. v.items ≡ map (λ item. list_all (λ p. is_chosen p item) patterns.now) items.now) }
{
    let mut flags = vec![in alloc; true; items.len()]?;
    for pattern in patterns {
        let more = flags_of(alloc, items, pattern)?;
        flags = both(alloc, &flags, &more)?;
    }
    Ok(flags)
}

#[cycle(flagging)]
fn flags_of_any(
    alloc: Global,
    items: &[(Identifier, Owner)],
    patterns: &[Pattern],
) -> Result<Vec<bool>, NoMemory>
    requires few { length items.now ≤ 65535 }
    requires sorted { IsStrictlySortedBy ident_cmp (keys_of items.now) }
    ensures { IfOk result (λ v. v.items ≡ map (λ item. list_any (λ p. is_chosen p item) patterns.now) items.now) }
{
    let mut flags = vec![in alloc; false; items.len()]?;
    for pattern in patterns {
        let more = flags_of(alloc, items, pattern)?;
        flags = either(alloc, &flags, &more)?;
    }
    Ok(flags)
}

/// For each item whether it is one of the identifiers: a look-up for each of them.
fn flags_of_listed(
    alloc: Global,
    items: &[(Identifier, Owner)],
    ids: &[Identifier],
) -> Result<Vec<bool>, NoMemory>
    requires few { length items.now ≤ 65535 }
    requires sorted { IsStrictlySortedBy ident_cmp (keys_of items.now) }
    ensures { IfOk result (λ v. v.items ≡ map (λ item. list_any (λ id. is_item id item) ids.now) items.now) }
{
    let mut flags = vec![in alloc; false; items.len()]?;
    for id in ids {
        flag_item(&mut flags, items, id);
    }
    Ok(flags)
}

/// Sets the flag of the item with this identifier, where there is one.
fn flag_item(flags: &mut Vec<bool>, items: &[(Identifier, Owner)], id: &Identifier)
    requires few { length items.now ≤ 65535 }
    requires sorted { IsStrictlySortedBy ident_cmp (keys_of items.now) }
    requires flagged { length flags.old.items ≡ length items.now }
    ensures { flags.new.items ≡ merged (λ a b. a || b) flags.old.items (map (is_item id.now) items.now) }
{
    if let Some(item) = item_with(items, id) {
        flags[item.0 as usize] = true;
    }
}

/// For each item whether the pattern matches it, by a test of each.
fn flags_of_tested(
    alloc: Global,
    items: &[(Identifier, Owner)],
    pattern: &Pattern,
) -> Result<Vec<bool>, NoMemory>
    ensures { IfOk result (λ v. v.items ≡ map (is_chosen pattern.now) items.now) }
{
    let mut flags = Vec::with_capacity(alloc, items.len())?;
    for item in items {
        flags.push(pattern.matches(&item.0))?;
    }
    Ok(flags)
}

fn both(alloc: Global, flags: &[bool], more: &[bool]) -> Result<Vec<bool>, NoMemory>
    requires { length more.now ≡ length flags.now }
    ensures { IfOk result (λ v. v.items ≡ merged (λ a b. a && b) flags.now more.now) }
{
    let mut merged = Vec::with_capacity(alloc, flags.len())?;
    for index in 0..flags.len() {
        merged.push(flags[index] && more[index])?;
    }
    Ok(merged)
}

fn either(alloc: Global, flags: &[bool], more: &[bool]) -> Result<Vec<bool>, NoMemory>
    requires { length more.now ≡ length flags.now }
    ensures { IfOk result (λ v. v.items ≡ merged (λ a b. a || b) flags.now more.now) }
{
    let mut merged = Vec::with_capacity(alloc, flags.len())?;
    for index in 0..flags.len() {
        merged.push(flags[index] || more[index])?;
    }
    Ok(merged)
}

fn turned(alloc: Global, flags: &[bool]) -> Result<Vec<bool>, NoMemory>
    ensures { IfOk result (λ v. v.items ≡ map not flags.now) }
{
    let mut turned = Vec::with_capacity(alloc, flags.len())?;
    for flag in flags {
        turned.push(!*flag)?;
    }
    Ok(turned)
}
