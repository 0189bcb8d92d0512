// The entries of a feed.
ghost use Rattle.std.specs.Prelude.{◌≡◌, ◌<◌, IfOk, OnOk, ◌++◌, All, length};
ghost use Rattle.std.specs.Option.{option_map, option_to_list};
ghost use Rattle.hk_chain.specs.Kept.{at_place};
ghost use Rattle.hk_rules.specs.Plan.{lookups};
ghost use Rattle.hk_feed.specs.Entries as spec;

use crate::recent::first_recent;
use hk_base::NoMemory;
use hk_chain::{ItemNo, Kind, PageRef, PairNo};
use hk_rules::Plan;
use hk_rules_file::FeedRule;
use std::alloc::Global;

/// An item with the page that its entry shows.
#[derive(Drop)]
pub(crate) struct Entry {
    pub item: ItemNo,
    pub page: PageRef,
}

/// The entries of a feed: of the first members in recent order, as many as the limit says, those whose page is text.
pub(crate) fn entries(
    alloc: Global,
    plan: &Plan,
    pages: &[Option<PageRef>],
    feed: &FeedRule,
) -> Result<Vec<Entry>, NoMemory>
    ensures entries { IfOk result (λ v. v.items ≡ spec.entries (lookups plan.now) (at_place pages.now) feed.now) }
    ensures within { IfOk result (λ v. All (λ entry. entry.item < length plan.now.items) v.items) }
{
    let items = first_recent(alloc, plan, feed)?;
    entries_of(alloc, plan, pages, feed.snapshot.as_slice(), &items)
}

fn entries_of(
    alloc: Global,
    plan: &Plan,
    pages: &[Option<PageRef>],
    name: &[u8],
    items: &[ItemNo],
) -> Result<Vec<Entry>, NoMemory>
    requires { All (λ item. item < length plan.now.items) items.now }
    ensures entries { IfOk result (λ v. v.items ≡ spec.entries_of (lookups plan.now) (at_place pages.now) name.now items.now) }
    ensures within { IfOk result (λ v. All (λ entry. entry.item < length plan.now.items) v.items) }
{
    let mut entries = Vec::with_capacity(alloc, items.len())?;
    for item in items {
        add_entry(&mut entries, *item, page_of(plan, pages, name, *item))?;
    }
    Ok(entries)
}

/// Adds the entry of an item, where there is a page and it is text.
fn add_entry(entries: &mut Vec<Entry>, item: ItemNo, page: Option<&PageRef>) -> Result<(), NoMemory>
    ensures { OnOk result (entries.new.items ≡ entries.old.items ++ option_to_list (spec.entry_by item (option_map (λ p. p.now) page.entry))) }
{
    if let Some(page) = page {
        if page.get().kind == Kind::Text {
            let page = page.try_clone()?;
            entries.push(Entry { item, page })?;
        }
    }
    Ok(())
}

/// The page that an item saves under a name, where it is known.
fn page_of<'a>(
    plan: &Plan,
    pages: &'a [Option<PageRef>],
    name: &[u8],
    item: ItemNo,
) -> Option<&'a PageRef>
    requires { item < length plan.now.items }
    ensures { option_map (λ p. p.now) result ≡ spec.page_by (at_place pages.now) ((lookups plan.now).pair item name.now) }
{
    match plan.pair(item, name) {
        Some(pair) => page_at(pages, pair),
        None => None,
    }
}

fn page_at(pages: &[Option<PageRef>], pair: PairNo) -> Option<&PageRef>
    ensures { option_map (λ p. p.now) result ≡ at_place pages.now pair }
{
    match pages.get(pair.0 as usize) {
        Some(Some(page)) => Some(page),
        _ => None,
    }
}
