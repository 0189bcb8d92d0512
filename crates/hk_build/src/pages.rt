// The pages and feeds of a build, as the site holds them.
ghost use Rattle.std.specs.Prelude.{◌≡◌, ◌<◌, true, IfOk, OnOk, length, map, option_map};
ghost use Rattle.std.specs.FinMap.{entries};
ghost use Rattle.hk_chain.specs.Kept.{at_place};
ghost use Rattle.hk_reuse.specs.Entries.{Entries};
ghost use Rattle.hk_writer.specs.Pages.{pages_of};
ghost use Rattle.hk_build.specs.Build as build;
ghost use Rattle.hk_build.specs.Built.{AreResults};
ghost use Rattle.hk_build.specs.Pages as spec;

use hk_base::{NoMemory, Shared, Text};
use hk_chain::{ItemNo, Kind, Page, PageRef, PairNo};
use hk_feed::feed_text;
use hk_fix::Results;
use hk_rules::{FeedRule, Plan};
use hk_writer::PageOut;
use std::alloc::Global;
use std::collections::BTreeMap;

/// The finished pages of the items that have a target, and the feeds, in the order of the targets; where all items are done,
/// these are the site. `NoMemory` only for want of memory. `n log n` comparisons of targets, and linear in the bytes of the
/// feeds; bodies are shared.
pub fn site_pages(alloc: Global, plan: &Plan, results: &Results) -> Result<Vec<PageOut>, NoMemory>
    ensures pages { IfOk result (λ v. map spec.placed_out v.items ≡ spec.pages_at plan.now (at_place results.now.pages)) }
    ensures site { IfOk result (λ v. (over : Entries) → AreResults plan.now over results.now → build.is_empty (build.report plan.now over) ≡ true
        → pages_of v.items ≡ entries (build.site_of plan.now over)) }
{
    let pages = pages_by_target(alloc, plan, known_pages(results))?;
    let pages = with_feeds(alloc, plan, results, pages)?;
    in_order(alloc, pages)
}

fn known_pages(results: &Results) -> &[Option<PageRef>]
    ensures { result.now ≡ results.now.pages }
{
    &results.pages
}

fn in_order(alloc: Global, pages: BTreeMap<Text, PageRef>) -> Result<Vec<PageOut>, NoMemory>
    ensures { IfOk result (λ v. map spec.placed_out v.items ≡ pages.entries) }
{
    let mut ordered = Vec::with_capacity(alloc, pages.len())?;
    for (target, page) in pages {
        ordered.push(PageOut { target, page })?;
    }
    Ok(ordered)
}

fn pages_by_target(
    alloc: Global,
    plan: &Plan,
    known: &[Option<PageRef>],
) -> Result<BTreeMap<Text, PageRef>, NoMemory>
    ensures { IfOk result (λ m. m.entries ≡ spec.item_pages plan.now (at_place known.now)) }
{
    let mut pages = BTreeMap::new(alloc);
    for item in (0..plan.count()).rev() {
        let page = page(alloc, plan, known, ItemNo(item))?;
        put(&mut pages, page)?;
    }
    Ok(pages)
}

/// Pages, and the feeds over them.
fn with_feeds(
    alloc: Global,
    plan: &Plan,
    results: &Results,
    pages: BTreeMap<Text, PageRef>,
) -> Result<BTreeMap<Text, PageRef>, NoMemory>
    ensures { IfOk result (λ m. m.entries ≡ spec.over (spec.feed_pages plan.now (at_place results.now.pages)) pages.entries) }
{
    let mut pages = pages;
    let feeds = plan.feeds();
    for place in (0..feeds.len()).rev() {
        let page = feed_page(alloc, plan, results, &feeds[place])?;
        put(&mut pages, Some(page))?;
    }
    Ok(pages)
}

fn feed_page(
    alloc: Global,
    plan: &Plan,
    results: &Results,
    feed: &FeedRule,
) -> Result<PageOut, NoMemory>
    ensures { IfOk result (λ p. spec.placed_out p ≡ spec.feed_page plan.now (at_place results.now.pages) feed.now) }
{
    let body = feed_text(alloc, plan, results, feed)?;
    let kind = Kind::Text;
    Ok(PageOut {
        target: Text::from_slice(alloc, feed.target.as_slice())?,
        page: Shared::new(alloc, Page { kind, body })?,
    })
}

fn put(pages: &mut BTreeMap<Text, PageRef>, page: Option<PageOut>) -> Result<(), NoMemory>
    ensures { OnOk result (pages.new.entries ≡ spec.with_page (option_map spec.placed_out page) pages.old.entries) }
{
    if let Some(page) = page {
        pages.insert(page.target, page.page)?;
    }
    Ok(())
}

#[tactic(auto, unfolding(hk_rules::specs::Plan::lookups))]
fn page(
    alloc: Global,
    plan: &Plan,
    known: &[Option<PageRef>],
    item: ItemNo,
) -> Result<Option<PageOut>, NoMemory>
    requires { item < length plan.now.items }
    ensures { IfOk result (λ page. option_map spec.placed_out page ≡ spec.page_at plan.now (at_place known.now) item) }
{
    let Some(target) = plan.target_of(item) else {
        return Ok(None);
    };
    match page_of(known, plan.layout().get().final_of(item)) {
        Some(page) => Ok(Some(PageOut {
            target: Text::from_slice(alloc, target)?,
            page: page.try_clone()?,
        })),
        None => Ok(None),
    }
}

fn page_of(known: &[Option<PageRef>], pair: PairNo) -> Option<&PageRef>
    ensures { option_map (λ page. page.now) result ≡ at_place known.now pair }
{
    match known.get(pair.0 as usize) {
        Some(Some(page)) => Some(page),
        _ => None,
    }
}
