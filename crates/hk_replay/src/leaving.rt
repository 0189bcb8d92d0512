// Whether the entries that a build leaves are those of a store.
ghost use Rattle.std.specs.Prelude.{◌≡◌, ◌<◌, [], length, map, IfOk};
ghost use Rattle.std.specs.Bool.{OnTrue};
ghost use Rattle.std.specs.List.{AllByRecursion};
ghost use Rattle.hk_chain.specs.Facts as told;
ghost use Rattle.hk_chain.specs.Kept.{at_place};
ghost use Rattle.hk_chain.specs.Marks as traces;
ghost use Rattle.hk_eval.specs.PlanTable.{table_of};
ghost use Rattle.hk_fix.specs.Report.{ending_at};
ghost use Rattle.hk_rules.specs.LinkedPlan.{IsLinkedPlan};
ghost use Rattle.hk_rules.specs.PlanView.{IsPlan};
ghost use Rattle.hk_store.specs.Entry.{stored};
ghost use Rattle.hk_store.specs.Marks as marks;
ghost use Rattle.hk_store.specs.Traits.{sha_digests};
ghost use Rattle.hk_reuse.specs.Image as image;
ghost use Rattle.hk_reuse.specs.Image.{ask_view, entry_list, entry_with, match_view};
ghost use Rattle.hk_replay.specs.Known.{IsKnown};
ghost use Rattle.hk_replay.specs.PlanItems.{items_of};
ghost use Rattle.hk_replay.specs.Storing.{AreStorable, CanStore, HasPage, HavePages};

use crate::fitting::are_same;
use crate::hashing::is_same;
use crate::known::Known;
use crate::storing::{done_facts, page_of};
use hk_base::NoMemory;
use hk_chain::{Facts, ItemNo, Mark, PageRef, PairNo, PatternNo};
use hk_fix::Results;
use hk_rules::Plan;
use hk_store::{AskRecord, Entry, MarkRecord, MatchRecord, SaveRecord, Stored};
use std::alloc::Global;

/// Whether the entries of the items that are done, in order, are those of a store. `NoMemory` only for want of memory.
/// Linear in the items, in the matches of their patterns, in the asked pages and in the saved ones; nothing is copied, and
/// a page that was hashed before is compared, and not hashed again.
pub(crate) fn leaves(
    alloc: Global,
    plan: &Plan,
    known: &Known,
    results: &Results,
    kept: &Stored,
) -> Result<bool, NoMemory>
    requires known { IsKnown plan.now known.now }
    requires results { CanStore plan.now results.now }
    ensures { IfOk result (λ b. OnTrue b (entry_list sha_digests (items_of plan.now) (ending_at results.now.outcomes)
        (at_place results.now.pages) ≡ kept.now)) }
{
    plan.linked();
    let entries = &kept.entries;
    let count = plan.count();
    let mut at = 0;
    for number in 0..count {
        let item = ItemNo(number);
        if let Some(facts) = done_facts(&results.outcomes, item) {
            if at >= entries.len() {
                return Ok(false);
            }
            let is_own = is_left(
                alloc,
                plan,
                known,
                &results.pages,
                item,
                facts,
                &entries[at],
            )?;
            if !is_own {
                return Ok(false);
            }
            at += 1;
        }
    }
    Ok(at == entries.len())
}

/// Whether an entry is that of an item with these facts.
fn is_left(
    alloc: Global,
    plan: &Plan,
    known: &Known,
    pages: &[Option<PageRef>],
    item: ItemNo,
    facts: &Facts,
    entry: &Entry,
) -> Result<bool, NoMemory>
    requires form { IsPlan plan.now }
    requires linked { IsLinkedPlan plan.now }
    requires known { IsKnown plan.now known.now }
    requires item { item < length plan.now.items }
    requires facts { AreStorable plan.now (at_place pages.now) facts.now }
    ensures { IfOk result (λ b. OnTrue b (entry_with sha_digests (items_of plan.now) (ending_at []) (at_place pages.now) item facts.now ≡ entry.now)) }
{
    if plan.id(item) != &entry.id {
        return Ok(false);
    }
    if !known.has_print(item, &entry.print) {
        return Ok(false);
    }
    if !have_matches(plan, known, &facts.patterns, &entry.patterns) {
        return Ok(false);
    }
    have_marks(alloc, plan, known, pages, &facts.trace, &entry.marks)
}

/// Whether records are those of patterns with their matches.
fn have_matches(plan: &Plan, known: &Known, numbers: &[PatternNo], records: &[MatchRecord]) -> bool
    requires form { IsPlan plan.now }
    requires linked { IsLinkedPlan plan.now }
    requires known { IsKnown plan.now known.now }
    requires numbers { AllByRecursion (λ n. n < length plan.now.patterns) numbers.now }
    ensures { OnTrue result (map (match_view (table_of plan.now)) numbers.now ≡ records.now) }
{
    if numbers.len() != records.len() {
        return false;
    }
    for i in 0..numbers.len() {
        if !has_matches(plan, known, numbers[i], &records[i]) {
            return false;
        }
    }
    true
}

fn has_matches(plan: &Plan, known: &Known, number: PatternNo, found: &MatchRecord) -> bool
    requires form { IsPlan plan.now }
    requires linked { IsLinkedPlan plan.now }
    requires known { IsKnown plan.now known.now }
    requires number { number < length plan.now.patterns }
    ensures { OnTrue result (match_view (table_of plan.now) number ≡ found.now) }
{
    if known.text(number.0 as usize) != found.text.as_slice() {
        return false;
    }
    are_same(plan, plan.matches(number), &found.matches)
}

/// Whether records are those of a trace.
fn have_marks(
    alloc: Global,
    plan: &Plan,
    known: &Known,
    pages: &[Option<PageRef>],
    trace: &[Mark],
    records: &[MarkRecord],
) -> Result<bool, NoMemory>
    requires form { IsPlan plan.now }
    requires known { IsKnown plan.now known.now }
    requires pages { AllByRecursion (HavePages plan.now (at_place pages.now)) (map traces.mark_view trace.now) }
    ensures { IfOk result (λ b. OnTrue b (map (image.mark_view sha_digests (table_of plan.now) (at_place pages.now)) (map traces.mark_view trace.now)
        ≡ map marks.mark_view records.now)) }
{
    if trace.len() != records.len() {
        return Ok(false);
    }
    for i in 0..trace.len() {
        let is_own = has_mark(alloc, plan, known, pages, &trace[i], &records[i])?;
        if !is_own {
            return Ok(false);
        }
    }
    Ok(true)
}

fn has_mark(
    alloc: Global,
    plan: &Plan,
    known: &Known,
    pages: &[Option<PageRef>],
    mark: &Mark,
    record: &MarkRecord,
) -> Result<bool, NoMemory>
    requires form { IsPlan plan.now }
    requires known { IsKnown plan.now known.now }
    requires pages { HavePages plan.now (at_place pages.now) (traces.mark_view mark.now) }
    ensures { IfOk result (λ b. OnTrue b (image.mark_view sha_digests (table_of plan.now) (at_place pages.now) (traces.mark_view mark.now)
        ≡ marks.mark_view record.now)) }
{
    match mark {
        Mark::Asked(pairs) => match record {
            MarkRecord::Asks(asks) => have_asks(alloc, plan, known, pages, pairs, asks),
            MarkRecord::Save(_) => Ok(false),
        },
        Mark::Saved(pair) => match record {
            MarkRecord::Asks(_) => Ok(false),
            MarkRecord::Save(save) => Ok(has_save(plan, pages, *pair, save)),
        },
    }
}

/// Whether a page was saved so.
fn has_save(plan: &Plan, pages: &[Option<PageRef>], pair: PairNo, save: &SaveRecord) -> bool
    requires page { HasPage plan.now (at_place pages.now) pair }
    ensures { OnTrue result (image.mark_view sha_digests (table_of plan.now) (at_place pages.now) (told.save pair) ≡ stored save.now.name save.now.page) }
{
    if plan.pair_name(pair) != save.name.as_slice() {
        return false;
    }
    is_same(page_of(pages, pair).get(), save.page.get())
}

/// Whether records are those of asked pages.
fn have_asks(
    alloc: Global,
    plan: &Plan,
    known: &Known,
    pages: &[Option<PageRef>],
    pairs: &[PairNo],
    asks: &[AskRecord],
) -> Result<bool, NoMemory>
    requires form { IsPlan plan.now }
    requires known { IsKnown plan.now known.now }
    requires pages { AllByRecursion (HasPage plan.now (at_place pages.now)) pairs.now }
    ensures { IfOk result (λ b. OnTrue b (map (ask_view sha_digests (table_of plan.now) (at_place pages.now)) pairs.now ≡ asks.now)) }
{
    if pairs.len() != asks.len() {
        return Ok(false);
    }
    for i in 0..pairs.len() {
        let is_own = has_ask(alloc, plan, known, pages, pairs[i], &asks[i])?;
        if !is_own {
            return Ok(false);
        }
    }
    Ok(true)
}

fn has_ask(
    alloc: Global,
    plan: &Plan,
    known: &Known,
    pages: &[Option<PageRef>],
    pair: PairNo,
    ask: &AskRecord,
) -> Result<bool, NoMemory>
    requires form { IsPlan plan.now }
    requires known { IsKnown plan.now known.now }
    requires page { HasPage plan.now (at_place pages.now) pair }
    ensures { IfOk result (λ b. OnTrue b (ask_view sha_digests (table_of plan.now) (at_place pages.now) pair ≡ ask.now)) }
{
    let item = plan.layout().get().item_of(pair);
    if plan.id(item) != &ask.id {
        return Ok(false);
    }
    if plan.pair_name(pair) != ask.name.as_slice() {
        return Ok(false);
    }
    if !known.has_traits(item, &ask.traits) {
        return Ok(false);
    }
    let page = known.digests.digest(alloc, pair, page_of(pages, pair))?;
    Ok(page.as_slice() == ask.page.as_slice())
}
