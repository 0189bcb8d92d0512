// What a build leaves for the next one.
ghost use Rattle.std.specs.Prelude.{◌≡◌, ◌<◌, [], length, map, option_copied, is_some, true, Some, IfOk};
ghost use Rattle.std.specs.List.{AllByRecursion};
ghost use Rattle.hk_chain.specs.Kept.{at_place};
ghost use Rattle.hk_chain.specs.Marks as traces;
ghost use Rattle.hk_eval.specs.PlanTable.{table_of};
ghost use Rattle.hk_fix.specs.Outcomes.{outcome_view};
ghost use Rattle.hk_fix.specs.Report.{ending_at};
ghost use Rattle.hk_rules.specs.LinkedPlan.{IsLinkedPlan};
ghost use Rattle.hk_rules.specs.Plan.{id_at};
ghost use Rattle.hk_rules.specs.PlanView.{IsPlan};
ghost use Rattle.hk_store.specs.Marks as marks;
ghost use Rattle.hk_store.specs.Traits.{sha_digests};
ghost use Rattle.hk_reuse.specs.Image as image;
ghost use Rattle.hk_reuse.specs.Image.{ask_view, entry_list, entry_with, match_view};
ghost use Rattle.hk_replay.specs.Known.{IsKnown};
ghost use Rattle.hk_replay.specs.PlanItems.{items_of};
ghost use Rattle.hk_replay.specs.Storing.{AreStorable, CanStore, HasPage, HavePages, facts_by};

use crate::known::Known;
use hk_base::{Identifier, NoMemory, Text};
use hk_chain::{Facts, ItemNo, Mark, PageRef, PairNo, PatternNo};
use hk_fix::{Outcome, Results};
use hk_rules::Plan;
use hk_store::{AskRecord, Entry, MarkRecord, MatchRecord, SaveRecord, Stored};
use std::alloc::Global;

/// The entries of the items that are done, in order. `NoMemory` only for want of memory. Linear in the items,
/// in the matches of their patterns and in the asked pages, each of which is hashed where it wasn't yet; saved pages are
/// shared.
pub(crate) fn make_stored(
    alloc: Global,
    plan: &Plan,
    known: &Known,
    results: &Results,
) -> Result<Stored, NoMemory>
    requires known { IsKnown plan.now known.now }
    requires results { CanStore plan.now results.now }
    ensures { IfOk result (λ s. s ≡ entry_list sha_digests (items_of plan.now) (ending_at results.now.outcomes) (at_place results.now.pages)) }
{
    plan.linked();
    let count = plan.count();
    let mut entries = Vec::new(alloc);
    for number in 0..count {
        let item = ItemNo(number);
        if let Some(facts) = done_facts(&results.outcomes, item) {
            let entry = entry_of(alloc, plan, known, &results.pages, item, facts)?;
            entries.push(entry)?;
        }
    }
    Ok(Stored { entries })
}

/// The facts of an item that is done.
pub(crate) fn done_facts(outcomes: &[Outcome], item: ItemNo) -> Option<&Facts>
    ensures { option_copied result ≡ facts_by (ending_at (map outcome_view outcomes.now) item) }
{
    match outcomes.get(item.0 as usize) {
        Some(Outcome::Done(facts)) => Some(facts),
        _ => None,
    }
}

/// The entry of an item with these facts.
fn entry_of(
    alloc: Global,
    plan: &Plan,
    known: &Known,
    pages: &[Option<PageRef>],
    item: ItemNo,
    facts: &Facts,
) -> Result<Entry, NoMemory>
    requires form { IsPlan plan.now }
    requires linked { IsLinkedPlan plan.now }
    requires known { IsKnown plan.now known.now }
    requires item { item < length plan.now.items }
    requires facts { AreStorable plan.now (at_place pages.now) facts.now }
    ensures { IfOk result (λ e. e ≡ entry_with sha_digests (items_of plan.now) (ending_at []) (at_place pages.now) item facts.now) }
{
    let id = plan.id(item).copy(alloc)?;
    let print = known.print_of(item);
    let patterns = patterns_of(alloc, plan, known, &facts.patterns)?;
    let marks = marks_of(alloc, plan, known, pages, &facts.trace)?;
    Ok(Entry {
        id,
        print,
        patterns,
        marks,
    })
}

/// Patterns with their matches.
fn patterns_of(
    alloc: Global,
    plan: &Plan,
    known: &Known,
    numbers: &[PatternNo],
) -> Result<Vec<MatchRecord>, NoMemory>
    requires form { IsPlan plan.now }
    requires linked { IsLinkedPlan plan.now }
    requires known { IsKnown plan.now known.now }
    requires numbers { AllByRecursion (λ n. n < length plan.now.patterns) numbers.now }
    ensures { IfOk result (λ v. v.items ≡ map (match_view (table_of plan.now)) numbers.now) }
{
    let mut records = Vec::with_capacity(alloc, numbers.len())?;
    for number in numbers {
        let found = match_of(alloc, plan, known, *number)?;
        records.push(found)?;
    }
    Ok(records)
}

fn match_of(
    alloc: Global,
    plan: &Plan,
    known: &Known,
    number: PatternNo,
) -> Result<MatchRecord, NoMemory>
    requires form { IsPlan plan.now }
    requires linked { IsLinkedPlan plan.now }
    requires known { IsKnown plan.now known.now }
    requires number { number < length plan.now.patterns }
    ensures { IfOk result (λ m. m ≡ match_view (table_of plan.now) number) }
{
    let text = Text::from_slice(alloc, known.text(number.0 as usize))?;
    let matches = ids_of(alloc, plan, plan.matches(number))?;
    Ok(MatchRecord { text, matches })
}

/// The identifiers of items.
fn ids_of(alloc: Global, plan: &Plan, items: &[ItemNo]) -> Result<Vec<Identifier>, NoMemory>
    requires { AllByRecursion (λ i. i < length plan.now.items) items.now }
    ensures { IfOk result (λ v. v.items ≡ map (id_at plan.now) items.now) }
{
    let mut ids = Vec::with_capacity(alloc, items.len())?;
    for item in items {
        let id = plan.id(*item).copy(alloc)?;
        ids.push(id)?;
    }
    Ok(ids)
}

/// The marks of a trace.
fn marks_of(
    alloc: Global,
    plan: &Plan,
    known: &Known,
    pages: &[Option<PageRef>],
    trace: &[Mark],
) -> Result<Vec<MarkRecord>, NoMemory>
    requires form { IsPlan plan.now }
    requires known { IsKnown plan.now known.now }
    requires pages { AllByRecursion (HavePages plan.now (at_place pages.now)) (map traces.mark_view trace.now) }
    ensures { IfOk result (λ v. map marks.mark_view v.items
        ≡ map (image.mark_view sha_digests (table_of plan.now) (at_place pages.now)) (map traces.mark_view trace.now)) }
{
    let mut records = Vec::with_capacity(alloc, trace.len())?;
    for mark in trace {
        let found = mark_of(alloc, plan, known, pages, mark)?;
        records.push(found)?;
    }
    Ok(records)
}

fn mark_of(
    alloc: Global,
    plan: &Plan,
    known: &Known,
    pages: &[Option<PageRef>],
    mark: &Mark,
) -> Result<MarkRecord, NoMemory>
    requires form { IsPlan plan.now }
    requires known { IsKnown plan.now known.now }
    requires pages { HavePages plan.now (at_place pages.now) (traces.mark_view mark.now) }
    ensures { IfOk result (λ m. marks.mark_view m ≡ image.mark_view sha_digests (table_of plan.now) (at_place pages.now) (traces.mark_view mark.now)) }
{
    match mark {
        Mark::Asked(pairs) => {
            let asks = asks_of(alloc, plan, known, pages, pairs)?;
            Ok(MarkRecord::Asks(asks))
        }
        Mark::Saved(pair) => {
            let name = Text::from_slice(alloc, plan.pair_name(*pair))?;
            let page = page_of(pages, *pair).try_clone()?;
            Ok(MarkRecord::Save(SaveRecord { name, page }))
        }
    }
}

/// Asked pages, with their digests and those of their items' traits.
fn asks_of(
    alloc: Global,
    plan: &Plan,
    known: &Known,
    pages: &[Option<PageRef>],
    pairs: &[PairNo],
) -> Result<Vec<AskRecord>, NoMemory>
    requires form { IsPlan plan.now }
    requires known { IsKnown plan.now known.now }
    requires pages { AllByRecursion (HasPage plan.now (at_place pages.now)) pairs.now }
    ensures { IfOk result (λ v. v.items ≡ map (ask_view sha_digests (table_of plan.now) (at_place pages.now)) pairs.now) }
{
    let mut asks = Vec::with_capacity(alloc, pairs.len())?;
    for pair in pairs {
        let ask = ask_of(alloc, plan, known, pages, *pair)?;
        asks.push(ask)?;
    }
    Ok(asks)
}

fn ask_of(
    alloc: Global,
    plan: &Plan,
    known: &Known,
    pages: &[Option<PageRef>],
    pair: PairNo,
) -> Result<AskRecord, NoMemory>
    requires form { IsPlan plan.now }
    requires known { IsKnown plan.now known.now }
    requires page { HasPage plan.now (at_place pages.now) pair }
    ensures { IfOk result (λ a. a ≡ ask_view sha_digests (table_of plan.now) (at_place pages.now) pair) }
{
    let item = plan.layout().get().item_of(pair);
    let id = plan.id(item).copy(alloc)?;
    let name = Text::from_slice(alloc, plan.pair_name(pair))?;
    let page = known.digests.digest(alloc, pair, page_of(pages, pair))?;
    let traits = known.traits_of(item);
    Ok(AskRecord {
        id,
        name,
        page,
        traits,
    })
}

/// The page of a pair that has one.
pub(crate) fn page_of(pages: &[Option<PageRef>], pair: PairNo) -> &PageRef
    requires { is_some (at_place pages.now pair) ≡ true }
    ensures { at_place pages.now pair ≡ Some result.now }
{
    match pages.get(pair.0 as usize) {
        Some(Some(page)) => page,
        _ => unreachable!(),
    }
}
