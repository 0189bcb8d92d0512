// How far a machine has come.
ghost use Rattle.std.specs.Prelude.{◌≡◌, ◌+◌, ◌<◌, ◌≤◌, ◌++◌, ℕ, true, None, length, nat_eq, option_to_list, IfOk, OnOk, OnErr};
ghost use Rattle.std.specs.List.{AllByRecursion, IsDistinct};
ghost use Rattle.std.specs.Vec.{vec_capacity};
ghost use Rattle.hk_chain.specs.Layout.{final_of};
ghost use Rattle.hk_rules.specs.Plan.{lookups};
ghost use Rattle.hk_machine.specs.Keeping.{Stays, UsesSame};
ghost use Rattle.hk_eval.specs.Noted.{with_save};
ghost use Rattle.hk_eval.specs.Told.{told_pages, is_listed};

use crate::work::Work;
use hk_base::NoMemory;
use hk_chain::{Facts, ItemNo, PairNo};
use hk_eval::{Awaited, Notes, Told};
use hk_fix::Polled;
use hk_rules::Plan;
use std::alloc::Global;
use std::mem;

/// How far a machine has come.
#[derive(Drop)]
pub(crate) struct Way {
    pub work: Work,
    pub told: Told,
    /// The asked pairs that weren't answered, in order.
    pub awaits: Awaited,
    /// How many pages were given on the way.
    pub given: usize,
    /// The pair that the last poll saved.
    pub last: Option<PairNo>,
    /// The pairs that were answered, and those that polls before the last one saved.
    pub used: Vec<PairNo>,
    pub is_ended: bool,
}

/// What the last poll saved is used from now on.
pub(crate) fn settle(last: &mut Option<PairNo>, used: &mut Vec<PairNo>) -> Result<(), NoMemory>
    ensures last { OnOk result (last.new ≡ None) }
    ensures used { OnOk result (used.new.items ≡ used.old.items ++ option_to_list last.old) }
    ensures same { OnErr result ((last.new ≡ last.old) × (used.new.items ≡ used.old.items)) }
{
    if let Some(pair) = *last {
        used.push(pair)?;
        *last = None;
    }
    Ok(())
}

/// Gives the current page for a pair.
pub(crate) fn give(way: &mut Way, pair: PairNo) -> Result<Polled, NoMemory>
    requires { way.old.given < way.old.work.at }
    ensures polled { IfOk result (λ p. p ≡ Polled.Saved pair way.old.work.page) }
    ensures gone { OnOk result (way.new ≡ record way.old { work = record way.old.work { notes = with_save way.old.work.notes pair }; given = way.old.given + 1; last = Some pair }) }
    ensures stays { OnErr result (Stays way.old way.new) }
    ensures uses { OnErr result (UsesSame way.old way.new) }
{
    let page = way.work.page.try_clone()?;
    way.work.notes.note_save(pair)?;
    let _more = way.work.at;
    way.given += 1;
    way.last = Some(pair);
    Ok(Polled::Saved(pair, page))
}

/// Waits for pages.
pub(crate) fn wait(way: &mut Way, pairs: Vec<PairNo>) -> Result<Polled, NoMemory>
    requires untold { AllByRecursion (λ p. told_pages way.old.told p ≡ None) pairs.items }
    requires distinct { IsDistinct nat_eq pairs.items }
    ensures polled { IfOk result (λ p. p ≡ Polled.Ask) }
    ensures gone { OnOk result (way.new ≡ record way.old { told = way.new.told; awaits = pairs.items; used = way.new.used }) }
    ensures pages { (q : ℕ) → told_pages way.new.told q ≡ told_pages way.old.told q }
    ensures listed { OnOk result (AllByRecursion (λ p. is_listed way.new.told p ≡ true) pairs.items) }
    ensures used { way.new.used.items ≡ way.old.used.items }
    ensures room { OnOk result (length way.old.used.items + length pairs.items ≤ vec_capacity way.new.used) }
    ensures stays { OnErr result (Stays way.old way.new) }
    ensures uses { OnErr result (UsesSame way.old way.new) }
{
    way.told.reserve(pairs.as_slice())?;
    way.used.reserve(pairs.len())?;
    way.awaits = Awaited::of(pairs);
    Ok(Polled::Ask)
}

/// Ends with the current page.
pub(crate) fn finish(
    alloc: Global,
    plan: &Plan,
    item: ItemNo,
    way: &mut Way,
) -> Result<Polled, NoMemory>
    requires item { item < (lookups plan.now).layout.items }
    ensures polled { IfOk result (λ p. p ≡ Polled.Done way.old.work.page (with_save way.old.work.notes (final_of (lookups plan.now).layout item))) }
    ensures gone { OnOk result (way.new ≡ record way.old { work = record way.old.work { notes = way.new.work.notes }; is_ended = true }) }
    ensures stays { OnErr result (Stays way.old way.new) }
    ensures uses { OnErr result (UsesSame way.old way.new) }
{
    let page = way.work.page.try_clone()?;
    let layout = plan.layout();
    let last = layout.get().final_of(item);
    let facts = facts_to(alloc, &mut way.work.notes, last)?;
    way.is_ended = true;
    Ok(Polled::Done(page, facts))
}

/// The facts up to the save of the finished page.
fn facts_to(alloc: Global, notes: &mut Notes, pair: PairNo) -> Result<Facts, NoMemory>
    ensures { IfOk result (λ f. f ≡ with_save notes.old pair) }
{
    notes.note_save(pair)?;
    let notes = mem::replace(notes, Notes::new(alloc));
    notes.into_facts(alloc)
}
