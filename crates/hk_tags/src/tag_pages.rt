// The pages of a table for tags.
ghost use Rattle.std.specs.Prelude.{◌≡◌, ◌<◌, IfOk, OnOk, fold, length, map};
ghost use Rattle.std.specs.BTreeMap.{is_at};
ghost use Rattle.std.specs.Cmp.Lexicographic.{slice_cmp};
ghost use Rattle.std.specs.List.{AllByRecursion};
ghost use Rattle.std.specs.List.Sorted.{IsStrictlySortedBy};
ghost use Rattle.std.specs.Map.{keys_of, remove_entry};
ghost use Rattle.std.specs.Ordering.{nat_cmp};
ghost use Rattle.hk_rules.specs.Plan.{lookups};
ghost use Rattle.hk_tags.specs.Pages as spec;

use crate::members::{members, tags_at};
use crate::table_page::TablePage;
use crate::tag_texts::push_slug;
use hk_base::{NoMemory, Text};
use hk_chain::ItemNo;
use hk_pattern::Items;
use hk_rules::{Plan, TagRule};
use std::alloc::Global;
use std::collections::BTreeMap;

/// A page for each tag of the table's members, in the byte order of the tags; it lists the members that have the tag, in
/// identifier order. Each item is tested once; then a look-up for each tag of each member.
#[tactic(auto, unfolding(crate::specs::Pages::tag_pages))]
pub(crate) fn tag_pages(
    alloc: Global,
    plan: &Plan,
    table: &TagRule,
) -> Result<Vec<TablePage>, NoMemory>
    ensures { IfOk result (λ v. v.items ≡ spec.tag_pages (lookups plan.now) table.now) }
{
    let members = members(alloc, plan, &table.of)?;
    let groups = grouped(alloc, plan, table.field.as_slice(), &members)?;
    let pages = pages_of(alloc, table, groups)?;
    Ok(pages)
}

/// For each tag of the items those that have it. The items are to ascend.
fn grouped(
    alloc: Global,
    plan: &Plan,
    field: &[u8],
    items: &[ItemNo],
) -> Result<BTreeMap<Text, Items<ItemNo>>, NoMemory>
    requires { AllByRecursion (λ item. item < length plan.now.items) items.now }
    ensures { IfOk result (λ g. g.entries ≡ spec.grouped (lookups plan.now) field.now items.now) }
{
    let mut groups = BTreeMap::new(alloc);
    for item in items {
        let tags = tags_at(alloc, plan, field, *item)?;
        add_tags(alloc, &mut groups, tags, *item)?;
    }
    Ok(groups)
}

fn add_tags(
    alloc: Global,
    groups: &mut BTreeMap<Text, Items<ItemNo>>,
    tags: Vec<Text>,
    item: ItemNo,
) -> Result<(), NoMemory>
    ensures { OnOk result (groups.new.entries ≡ fold (spec.with_tag item) groups.old.entries tags.items) }
{
    for tag in tags {
        add_tag(alloc, groups, tag, item)?;
    }
    Ok(())
}

/// One more item with a tag, unless it is the last one already.
fn add_tag(
    alloc: Global,
    groups: &mut BTreeMap<Text, Items<ItemNo>>,
    tag: Text,
    item: ItemNo,
) -> Result<(), NoMemory>
    ensures { OnOk result (groups.new.entries ≡ spec.with_tag item groups.old.entries tag) }
{
    let group = taken(alloc, groups, &tag);
    let group = with_last(group, item)?;
    groups.insert(tag, group)?;
    Ok(())
}

/// The items of a tag, taken out.
fn taken(alloc: Global, groups: &mut BTreeMap<Text, Items<ItemNo>>, tag: &Text) -> Items<ItemNo>
    ensures group { result ≡ spec.group_at groups.old.entries tag.now }
    ensures rest { groups.new.entries ≡ remove_entry (is_at (slice_cmp nat_cmp tag.now)) groups.old.entries }
    ensures ordered { IsStrictlySortedBy (slice_cmp nat_cmp) (keys_of groups.old.entries) }
{
    // a map that was counted is known to be in order
    let _count = groups.len();
    match groups.remove(tag) {
        Some(group) => group,
        None => Items::new(alloc),
    }
}

fn with_last(group: Items<ItemNo>, item: ItemNo) -> Result<Items<ItemNo>, NoMemory>
    ensures { IfOk result (λ g. g ≡ spec.with_last group item) }
{
    if ends_with(group.as_slice(), item) {
        return Ok(group);
    }
    let mut group = group;
    group.push(item)?;
    Ok(group)
}

fn ends_with(group: &[ItemNo], item: ItemNo) -> bool
    ensures { result ≡ spec.ends_with group.now item }
{
    match group.last() {
        Some(last) => *last == item,
        None => false,
    }
}

fn pages_of(
    alloc: Global,
    table: &TagRule,
    groups: BTreeMap<Text, Items<ItemNo>>,
) -> Result<Vec<TablePage>, NoMemory>
    ensures { IfOk result (λ v. v.items ≡ map (spec.group_page table.now) groups.entries) }
{
    let mut pages = Vec::new(alloc);
    for (tag, members) in groups {
        pages.push(page_of(alloc, table, tag, members)?)?;
    }
    Ok(pages)
}

fn page_of(
    alloc: Global,
    table: &TagRule,
    tag: Text,
    members: Items<ItemNo>,
) -> Result<TablePage, NoMemory>
    ensures { IfOk result (λ p. p ≡ spec.group_page table.now (tag, members)) }
{
    let mut path = Vec::from_slice(alloc, table.prefix.as_slice())?;
    push_slug(&mut path, tag.as_slice())?;
    path.extend_from_slice(b".html")?;
    let mut own = Vec::new(alloc);
    own.push((Text::from_slice(alloc, b"tag")?, tag))?;
    Ok(TablePage {
        path: Text::from_vec(path),
        members,
        own,
    })
}
