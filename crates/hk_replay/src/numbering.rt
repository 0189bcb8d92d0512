// Records in the numbers of a plan, of a store's entries.
ghost use Rattle.std.specs.Prelude.{◌≡◌, ◌<◌, length, map, option_map, replicate, bytes_eq, None, Some, IfOk, OnOk};
ghost use Rattle.std.specs.List.{position_from};
ghost use Rattle.std.specs.Option.{unwrap_or};
ghost use Rattle.hk_chain.specs.Layout.{final_of};
ghost use Rattle.hk_eval.specs.PlanTable.{table_of};
ghost use Rattle.hk_fix.specs.Deeds.{pair_or as pair_for};
ghost use Rattle.hk_rules.specs.Plan.{id_at};
ghost use Rattle.hk_rules.specs.PlanView.{IsPlan};
ghost use Rattle.hk_store.specs.Marks.{mark_view};
ghost use Rattle.hk_store.specs.Traits.{sha_digests};
ghost use Rattle.hk_reuse.specs.Entries.{entries_in, last_page};
ghost use Rattle.hk_reuse.specs.Replay.{asked_pairs};
ghost use Rattle.hk_replay.specs.Adding.{AddsRecord};
ghost use Rattle.hk_replay.specs.Known.{IsKnown};
ghost use Rattle.hk_replay.specs.Numbered.{AreNumbered, numbered_by, numbered_entry, numbered_step, record_view, step_view};
ghost use Rattle.hk_replay.specs.PlanItems.{items_of};

use crate::fitting::fits;
use crate::known::Known;
use crate::record::{Record, Records, Step};
use hk_base::{Identifier, NoMemory, Shared, Text};
use hk_chain::{ItemNo, Kind, Page, PageRef, PairNo, PatternNo};
use hk_rules::Plan;
use hk_store::{AskRecord, Entry, MarkRecord, MatchRecord, Stored};
use std::alloc::Global;

/// The records of a plan's items: of each that has an entry that fits. `NoMemory` only for want of memory. Linear in the
/// items and in the store but for the bodies of its pages, which are shared; logarithmic for each entry, each asked page
/// and each recorded pattern. Nothing is hashed.
pub(crate) fn records_of(
    alloc: Global,
    plan: &Plan,
    known: &Known,
    stored: &Stored,
) -> Result<Records, NoMemory>
    requires known { IsKnown plan.now known.now }
    ensures { IfOk result (λ r. AreNumbered sha_digests (items_of plan.now) (entries_in stored.now) r) }
{
    plan.linked();
    let mut by_item = no_records(alloc, plan.count())?;
    let mut at = stored.entries.len();
    while at > 0 {
        at -= 1;
        add_record(alloc, plan, known, &stored.entries[at], &mut by_item)?;
    }
    let digests = known.digests.try_clone()?;
    Ok(Records { by_item, digests })
}

fn no_records(alloc: Global, count: u32) -> Result<Vec<Option<Record>>, NoMemory>
    ensures { IfOk result (λ v. v.items ≡ replicate count None) }
{
    let mut records = Vec::with_capacity(alloc, count as usize)?;
    for _ in 0..count {
        records.push(None)?;
    }
    Ok(records)
}

/// Puts the record of an entry in the place of its item, if there is one.
fn add_record(
    alloc: Global,
    plan: &Plan,
    known: &Known,
    entry: &Entry,
    by_item: &mut Vec<Option<Record>>,
) -> Result<(), NoMemory>
    requires known { IsKnown plan.now known.now }
    requires form { IsPlan plan.now }
    requires count { length by_item.old.items ≡ length plan.now.items }
    ensures count { length by_item.new.items ≡ length by_item.old.items }
    ensures added { OnOk result (AddsRecord (items_of plan.now) entry.now by_item.old.items by_item.new.items) }
{
    let Some(item) = plan.find(&entry.id) else {
        return Ok(());
    };
    let made = record_of(alloc, plan, known, item, entry)?;
    by_item[item.0 as usize] = made;
    Ok(())
}

/// The record of an item's entry, where it fits.
fn record_of(
    alloc: Global,
    plan: &Plan,
    known: &Known,
    item: ItemNo,
    entry: &Entry,
) -> Result<Option<Record>, NoMemory>
    requires known { IsKnown plan.now known.now }
    requires item { item < length plan.now.items }
    ensures { IfOk result (λ o. option_map record_view o ≡ numbered_by sha_digests (items_of plan.now) item (Some entry.now)) }
{
    let is_own = fits(alloc, plan, known, item, entry)?;
    if !is_own {
        return Ok(None);
    }
    let made = numbered(alloc, plan, known, item, entry)?;
    Ok(Some(made))
}

/// An item's entry in numbers.
fn numbered(
    alloc: Global,
    plan: &Plan,
    known: &Known,
    item: ItemNo,
    entry: &Entry,
) -> Result<Record, NoMemory>
    requires known { IsKnown plan.now known.now }
    requires item { item < length plan.now.items }
    ensures { IfOk result (λ r. record_view r ≡ numbered_entry (items_of plan.now) item entry.now) }
{
    let count = entry.marks.len().saturating_sub(1);
    let steps = steps_of(alloc, plan, item, &entry.marks[..count])?;
    let patterns = numbers_of(alloc, known, &entry.patterns)?;
    let page = finished_page(alloc, &entry.marks)?;
    let last = last_pair(plan, item);
    Ok(Record {
        steps,
        patterns,
        last,
        page,
    })
}

fn last_pair(plan: &Plan, item: ItemNo) -> PairNo
    requires { item < length plan.now.items }
    ensures { result ≡ final_of (table_of plan.now).layout item }
{
    plan.layout().get().final_of(item)
}

/// The marks of an item's entry in numbers.
fn steps_of(
    alloc: Global,
    plan: &Plan,
    item: ItemNo,
    marks: &[MarkRecord],
) -> Result<Vec<Step>, NoMemory>
    requires item { item < length plan.now.items }
    ensures { IfOk result (λ v. map step_view v.items ≡ map (numbered_step (table_of plan.now) (id_at plan.now item)) (map mark_view marks.now)) }
{
    let mut steps = Vec::with_capacity(alloc, marks.len())?;
    for mark in marks {
        let step = step_of(alloc, plan, item, mark)?;
        steps.push(step)?;
    }
    Ok(steps)
}

fn step_of(alloc: Global, plan: &Plan, item: ItemNo, mark: &MarkRecord) -> Result<Step, NoMemory>
    requires item { item < length plan.now.items }
    ensures { IfOk result (λ s. step_view s ≡ numbered_step (table_of plan.now) (id_at plan.now item) (mark_view mark.now)) }
{
    match mark {
        MarkRecord::Asks(asks) => {
            let pairs = pairs_of(alloc, plan, asks)?;
            let digests = digests_of(alloc, asks)?;
            Ok(Step::Asked(pairs, digests))
        }
        MarkRecord::Save(save) => {
            let pair = pair_or(plan, plan.id(item), save.name.as_slice());
            let page = save.page.try_clone()?;
            Ok(Step::Saved(pair, page))
        }
    }
}

/// The pairs of asked pages.
fn pairs_of(alloc: Global, plan: &Plan, asks: &[AskRecord]) -> Result<Vec<PairNo>, NoMemory>
    ensures { IfOk result (λ v. v.items ≡ asked_pairs (table_of plan.now) asks.now) }
{
    let mut pairs = Vec::with_capacity(alloc, asks.len())?;
    for ask in asks {
        pairs.push(pair_or(plan, &ask.id, ask.name.as_slice()))?;
    }
    Ok(pairs)
}

/// The digests of asked pages.
fn digests_of(alloc: Global, asks: &[AskRecord]) -> Result<Vec<[u8; 32]>, NoMemory>
    ensures { IfOk result (λ v. v.items ≡ map (λ a. a.page) asks.now) }
{
    let mut digests = Vec::with_capacity(alloc, asks.len())?;
    for ask in asks {
        digests.push(ask.page)?;
    }
    Ok(digests)
}

/// The pair of a page, and the first where there is none. Logarithmic, and linear in the item's chain.
fn pair_or(plan: &Plan, id: &Identifier, name: &[u8]) -> PairNo
    ensures { result ≡ pair_for (table_of plan.now) (record { id = id.now; name = name.now }) }
{
    match plan.find(id) {
        Some(item) => plan.pair(item, name).unwrap_or(PairNo(0)),
        None => PairNo(0),
    }
}

/// The numbers of an entry's patterns.
fn numbers_of(
    alloc: Global,
    known: &Known,
    records: &[MatchRecord],
) -> Result<Vec<PatternNo>, NoMemory>
    ensures { IfOk result (λ v. v.items ≡ map (λ m. unwrap_or (position_from (λ own. bytes_eq own m.text) 0 known.now.texts) 0) records.now) }
{
    let mut numbers = Vec::with_capacity(alloc, records.len())?;
    for found in records {
        let number = number_of(known, found);
        numbers.push(number)?;
    }
    Ok(numbers)
}

/// The number of a recorded pattern, and the first where there is none. Logarithmic in the number of patterns.
fn number_of(known: &Known, found: &MatchRecord) -> PatternNo
    ensures { result ≡ unwrap_or (position_from (λ own. bytes_eq own found.now.text) 0 known.now.texts) 0 }
{
    known.place(found.text.as_slice()).unwrap_or(PatternNo(0))
}

/// The page of the last mark, which is empty where that isn't a save.
fn finished_page(alloc: Global, marks: &[MarkRecord]) -> Result<PageRef, NoMemory>
    ensures { IfOk result (λ p. p ≡ last_page (map mark_view marks.now)) }
{
    let count = marks.len();
    if count > 0 {
        if let MarkRecord::Save(save) = &marks[count - 1] {
            return save.page.try_clone();
        }
    }
    let body = Text::from_slice(alloc, b"")?;
    let kind = Kind::Text;
    Shared::new(alloc, Page { kind, body })
}
