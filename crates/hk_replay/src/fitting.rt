// Whether an entry fits an item of a plan.
ghost use Rattle.std.specs.Prelude.{◌≡◌, ◌<◌, ◌&&◌, length, map, bytes_eq, IfOk};
ghost use Rattle.std.specs.List.{AllByRecursion, list_all};
ghost use Rattle.std.specs.Cmp.Lexicographic.{pointwise};
ghost use Rattle.std.specs.Ordering.{eq_by_cmp};
ghost use Rattle.hk_base.specs.Identifier.{ident_cmp};
ghost use Rattle.hk_eval.specs.PlanTable.{table_of};
ghost use Rattle.hk_rules.specs.Plan.{id_at};
ghost use Rattle.hk_rules.specs.Pairs.{page_names};
ghost use Rattle.hk_store.specs.Marks.{mark_view};
ghost use Rattle.hk_store.specs.Traits.{sha_digests};
ghost use Rattle.hk_reuse.specs.Entries.{saved_names};
ghost use Rattle.hk_reuse.specs.Fits as spec;
ghost use Rattle.hk_replay.specs.Known.{IsKnown};
ghost use Rattle.hk_replay.specs.PlanItems.{items_of};

use crate::known::Known;
use hk_base::{Identifier, NoMemory, Text};
use hk_chain::{Chain, ItemNo, Step};
use hk_rules::Plan;
use hk_store::{AskRecord, Entry, MarkRecord, MatchRecord};
use std::alloc::Global;

/// Whether an entry fits an item. `NoMemory` only for want of memory. Linear in the entry but for
/// the bodies of its pages, and logarithmic for each asked page and each recorded pattern.
pub(crate) fn fits(
    alloc: Global,
    plan: &Plan,
    known: &Known,
    item: ItemNo,
    entry: &Entry,
) -> Result<bool, NoMemory>
    requires known { IsKnown plan.now known.now }
    requires item { item < length plan.now.items }
    ensures { IfOk result (λ b. b ≡ spec.fits sha_digests (items_of plan.now) item entry.now) }
{
    let own = known.has_print(item, &entry.print);
    let names = names_fit(alloc, plan.chain(item), &entry.marks)?;
    let patterns = patterns_fit(plan, known, &entry.patterns);
    let marks = marks_fit(plan, known, &entry.marks);
    Ok(all_hold(own, names, patterns, marks))
}

fn all_hold(own: bool, names: bool, patterns: bool, marks: bool) -> bool
    ensures { result ≡ (own && names && patterns && marks) }
{
    own && names && patterns && marks
}

/// Whether an entry saves under the names of a chain.
fn names_fit(alloc: Global, chain: &Chain, marks: &[MarkRecord]) -> Result<bool, NoMemory>
    ensures { IfOk result (λ b. b ≡ pointwise bytes_eq (saved_names (map mark_view marks.now)) (page_names chain.now)) }
{
    let wanted = page_names_of(alloc, &chain.steps)?;
    Ok(are_saved(marks, &wanted))
}

/// The names of a chain's pages.
fn page_names_of(alloc: Global, steps: &[Step]) -> Result<Vec<Text>, NoMemory>
    ensures { IfOk result (λ v. v.items ≡ page_names steps.now) }
{
    let mut names = Vec::new(alloc);
    for step in steps {
        if let Step::Save(name) = step {
            let name = Text::from_slice(alloc, name.as_slice())?;
            names.push(name)?;
        }
    }
    let last = Text::from_slice(alloc, b"_final")?;
    names.push(last)?;
    Ok(names)
}

/// Whether marks save under these names.
fn are_saved(marks: &[MarkRecord], wanted: &[Text]) -> bool
    ensures { result ≡ pointwise bytes_eq (saved_names (map mark_view marks.now)) wanted.now }
{
    let mut at = 0;
    for mark in marks {
        if let MarkRecord::Save(save) = mark {
            if at >= wanted.len() {
                return false;
            }
            if save.name.as_slice() != wanted[at].as_slice() {
                return false;
            }
            at += 1;
        }
    }
    at == wanted.len()
}

/// Whether the recorded patterns are the plan's, with the matches that they have now.
fn patterns_fit(plan: &Plan, known: &Known, records: &[MatchRecord]) -> bool
    requires known { IsKnown plan.now known.now }
    ensures { result ≡ list_all (spec.pattern_fits (items_of plan.now)) records.now }
{
    for found in records {
        if !pattern_fits(plan, known, found) {
            return false;
        }
    }
    true
}

/// Whether a recorded pattern is the plan's, with the matches that it has now. Linear in the text and the matches, with a
/// logarithmic look-up of the text.
fn pattern_fits(plan: &Plan, known: &Known, found: &MatchRecord) -> bool
    requires known { IsKnown plan.now known.now }
    ensures { result ≡ spec.pattern_fits (items_of plan.now) found.now }
{
    match known.place(found.text.as_slice()) {
        Some(number) => are_same(plan, plan.matches(number), &found.matches),
        None => false,
    }
}

/// Whether items have these identifiers.
pub(crate) fn are_same(plan: &Plan, items: &[ItemNo], ids: &[Identifier]) -> bool
    requires { AllByRecursion (λ i. i < length plan.now.items) items.now }
    ensures { result ≡ pointwise (eq_by_cmp ident_cmp) (map (id_at plan.now) items.now) ids.now }
{
    for i in 0..items.len() {
        if i >= ids.len() {
            return false;
        }
        if plan.id(items[i]) != &ids[i] {
            return false;
        }
    }
    items.len() == ids.len()
}

/// Whether each asked page of an entry may be asked for.
fn marks_fit(plan: &Plan, known: &Known, marks: &[MarkRecord]) -> bool
    requires known { IsKnown plan.now known.now }
    ensures { result ≡ list_all (spec.mark_fits sha_digests (table_of plan.now)) (map mark_view marks.now) }
{
    for mark in marks {
        if !mark_fits(plan, known, mark) {
            return false;
        }
    }
    true
}

fn mark_fits(plan: &Plan, known: &Known, mark: &MarkRecord) -> bool
    requires known { IsKnown plan.now known.now }
    ensures { result ≡ spec.mark_fits sha_digests (table_of plan.now) (mark_view mark.now) }
{
    match mark {
        MarkRecord::Asks(asks) => asks_fit(plan, known, asks),
        MarkRecord::Save(_) => true,
    }
}

fn asks_fit(plan: &Plan, known: &Known, asks: &[AskRecord]) -> bool
    requires known { IsKnown plan.now known.now }
    ensures { result ≡ list_all (spec.ask_fits sha_digests (table_of plan.now)) asks.now }
{
    for ask in asks {
        if !ask_fits(plan, known, ask) {
            return false;
        }
    }
    true
}

/// Whether an asked page is one of the plan's, and its item has the recorded traits.
fn ask_fits(plan: &Plan, known: &Known, ask: &AskRecord) -> bool
    requires known { IsKnown plan.now known.now }
    ensures { result ≡ spec.ask_fits sha_digests (table_of plan.now) ask.now }
{
    let Some(item) = plan.find(&ask.id) else {
        return false;
    };
    if plan.pair(item, ask.name.as_slice()).is_none() {
        return false;
    }
    known.has_traits(item, &ask.traits)
}
