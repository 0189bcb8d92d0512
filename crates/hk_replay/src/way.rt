// How far a replay has come.
ghost use Rattle.std.specs.Prelude.{◌≡◌, ◌<◌, ◌++◌, [], true, false, length, None, is_some, option_copied, option_to_list, IfOk, OnOk, OnErr};
ghost use Rattle.hk_fix.specs.Calls.{Goes};
ghost use Rattle.hk_fix.specs.Meaning.{fresh};
ghost use Rattle.hk_replay.specs.Keeping.{Keeps, HasRoom, HasUsed, Stays, UsesSame, over_shape, over_run, way_meaning, open_of};
ghost use Rattle.hk_replay.specs.Replays.{record_at, steps_of as recorded, AreRecords};
ghost use Rattle.hk_replay.specs.Turning.{Turns};

use crate::inner::go_inner;
use crate::kept::{kept_of, none_kept};
use crate::look::{Found, look};
use crate::merging::{facts_broken, facts_through};
use crate::record::{Record, Records, Step};
use hk_base::NoMemory;
use hk_chain::{ItemNo, PairNo};
use hk_eval::{Awaited, Told};
use hk_fix::{Compiler, Polled, laws};
use std::alloc::Global;
use std::collections::BTreeSet;

/// How far a replay has come.
#[derive(Drop)]
pub struct Way<M> {
    pub(crate) inner: M,
    /// The pages that were answered before the break.
    pub(crate) told: Told,
    /// The asked pairs that weren't answered, before the break.
    pub(crate) awaits: Awaited,
    /// The pairs that were answered, and those that polls before the last one saved.
    pub(crate) used: Vec<PairNo>,
    /// How many pages were given on the way.
    pub(crate) given: usize,
    /// The pair that the last poll saved.
    pub(crate) last: Option<PairNo>,
    /// How many steps of the record were passed, with the one at which it broke.
    pub(crate) at: usize,
    /// The pairs whose pages those steps saved, from the break on.
    pub(crate) kept: BTreeSet<u32>,
    pub(crate) is_broken: bool,
    pub(crate) is_ended: bool,
}

/// What the last poll saved is used from now on.
pub(crate) fn settle(last: &mut Option<PairNo>, used: &mut Vec<PairNo>) -> Result<(), NoMemory>
    ensures last { OnOk result (last.new ≡ None) }
    ensures used { OnOk result (used.new.items ≡ used.old.items ++ option_to_list last.old) }
    ensures same { OnErr result ((last.new ≡ last.old) × (used.new.items ≡ used.old.items)) }
{
    if let Some(pair) = *last {
        used.push(pair)?;
        *last = None;
    }
    Ok(())
}

/// The record of an item.
pub(crate) fn record_of(records: &Records, item: ItemNo) -> Option<&Record>
    ensures { option_copied result ≡ record_at records.now item }
{
    match records.by_item.get(item.0 as usize) {
        Some(Some(found)) => Some(found),
        _ => None,
    }
}

/// Goes through the record, up to a page that it saves, to pages that aren't told, or to its end. Nothing where it breaks.
pub(crate) fn go_record<M: Compiler>(
    alloc: Global,
    records: &Records,
    way: &mut Way<M>,
) -> Result<Option<Polled>, NoMemory>
    requires valid { M.valid (M.meaning way.old.inner).common }
    requires fit { AreRecords (M.shape (M.meaning way.old.inner).common) records.now }
    requires item { (M.meaning way.old.inner).item < (M.shape (M.meaning way.old.inner).common).items }
    requires keeps { Keeps M.meaning M.run records.now way.old }
    requires closed { way.old.awaits ≡ [] }
    requires going { way.old.is_ended ≡ false }
    requires whole { way.old.is_broken ≡ false }
    requires settled { way.old.last ≡ None }
    ensures turns { IfOk result (λ o. Turns M.meaning M.shape M.run records.now way.old o way.new) }
    ensures keeps { OnOk result (Keeps M.meaning M.run records.now way.new) }
    ensures room { OnOk result (HasRoom M.meaning way.new) }
    ensures stays { OnErr result (Stays M.meaning way.old way.new) }
    ensures uses { OnErr result (UsesSame M.meaning way.old way.new) }
{
    laws::<M>();
    let Some(found) = record_of(records, way.inner.item()) else {
        unreachable!();
    };
    match look(
        alloc,
        &records.digests,
        found.steps.as_slice(),
        &way.told,
        &mut way.at,
    )? {
        Found::Saves(pair, page) => {
            way.at += 1;
            way.given += 1;
            way.last = Some(pair);
            Ok(Some(Polled::Saved(pair, page)))
        }
        Found::Asks(pairs) => {
            way.told.reserve(pairs.as_slice())?;
            way.used.reserve(pairs.len())?;
            way.awaits = Awaited::of(pairs);
            Ok(Some(Polled::Ask))
        }
        Found::Breaks => {
            way.at += 1;
            let kept = kept_of(alloc, &found.steps.as_slice()[..way.at])?;
            way.kept = kept;
            way.is_broken = true;
            Ok(None)
        }
        Found::Through => {
            let page = found.page.try_clone()?;
            let facts = facts_through(alloc, found)?;
            way.is_ended = true;
            Ok(Some(Polled::Done(page, facts)))
        }
    }
}

/// Goes on as the inner compiler.
pub(crate) fn go_on<M: Compiler>(
    alloc: Global,
    records: &Records,
    way: &mut Way<M>,
) -> Result<Polled, NoMemory>
    requires valid { M.valid (M.meaning way.old.inner).common }
    requires fit { AreRecords (M.shape (M.meaning way.old.inner).common) records.now }
    requires item { (M.meaning way.old.inner).item < (M.shape (M.meaning way.old.inner).common).items }
    requires keeps { Keeps M.meaning M.run records.now way.old }
    requires closed { (M.meaning way.old.inner).awaits ≡ [] }
    requires going { way.old.is_ended ≡ false }
    requires broken { way.old.is_broken ≡ true }
    requires settled { way.old.last ≡ None }
    ensures goes { IfOk result (λ p. Goes (over_shape M.shape) (over_run M.run)
        (way_meaning M.meaning records.now way.old) p (way_meaning M.meaning records.now way.new)) }
    ensures keeps { OnOk result (Keeps M.meaning M.run records.now way.new) }
    ensures room { OnOk result (HasRoom M.meaning way.new) }
    ensures stays { OnErr result (Stays M.meaning way.old way.new) }
    ensures uses { OnErr result (UsesSame M.meaning way.old way.new) }
{
    laws::<M>();
    let steps = steps_of(records, way.inner.item());
    if way.at > steps.len() {
        unreachable!();
    }
    let front = &steps[..way.at];
    match go_inner(alloc, &way.kept, &way.told, &mut way.inner)? {
        Polled::Saved(pair, page) => {
            way.given += 1;
            way.last = Some(pair);
            Ok(Polled::Saved(pair, page))
        }
        Polled::Ask => {
            way.used.reserve(way.inner.open_pairs().len())?;
            Ok(Polled::Ask)
        }
        Polled::Done(page, facts) => {
            let facts = facts_broken(alloc, &way.kept, front, facts)?;
            way.is_ended = true;
            Ok(Polled::Done(page, facts))
        }
        Polled::Failed(fault) => {
            way.is_ended = true;
            Ok(Polled::Failed(fault))
        }
    }
}

/// The steps of an item's record.
fn steps_of(records: &Records, item: ItemNo) -> &[Step]
    ensures { result.now ≡ recorded (record_at records.now item) }
{
    match record_of(records, item) {
        Some(found) => found.steps.as_slice(),
        None => &[],
    }
}

/// Goes on to the next page that is saved, to the pages that are wanted, or to the end.
pub(crate) fn go<M: Compiler>(
    alloc: Global,
    records: &Records,
    way: &mut Way<M>,
) -> Result<Polled, NoMemory>
    requires valid { M.valid (M.meaning way.old.inner).common }
    requires fit { AreRecords (M.shape (M.meaning way.old.inner).common) records.now }
    requires item { (M.meaning way.old.inner).item < (M.shape (M.meaning way.old.inner).common).items }
    requires keeps { Keeps M.meaning M.run records.now way.old }
    requires closed { (way_meaning M.meaning records.now way.old).awaits ≡ [] }
    requires going { way.old.is_ended ≡ false }
    ensures goes { IfOk result (λ p. Goes (over_shape M.shape) (over_run M.run)
        (way_meaning M.meaning records.now way.old) p (way_meaning M.meaning records.now way.new)) }
    ensures keeps { OnOk result (Keeps M.meaning M.run records.now way.new) }
    ensures room { OnOk result (HasRoom M.meaning way.new) }
    ensures stays { OnErr result (Stays M.meaning way.old way.new) }
    ensures saved { OnErr result (is_some way.new.last ≡ true → is_some way.old.last ≡ true) }
    ensures used { OnErr result (HasUsed M.meaning M.run records.now way.new) }
{
    settle(&mut way.last, &mut way.used)?;
    if way.is_broken {
        return go_on(alloc, records, way);
    }
    match go_record(alloc, records, way)? {
        Some(polled) => Ok(polled),
        None => go_on(alloc, records, way),
    }
}

/// A replay's way that hasn't begun.
pub(crate) fn begin<M: Compiler>(alloc: Global, records: &Records, inner: M) -> Way<M>
    requires { M.meaning inner ≡ fresh (M.meaning inner).common (M.meaning inner).item }
    ensures inner { result.inner ≡ inner }
    ensures keeps { Keeps M.meaning M.run records.now result }
    ensures room { HasRoom M.meaning result }
    ensures fresh { way_meaning M.meaning records.now result
        ≡ fresh (record { inner = (M.meaning inner).common; records = records.now }) (M.meaning inner).item }
{
    let is_broken = record_of(records, inner.item()).is_none();
    Way {
        inner,
        told: Told::new(alloc),
        awaits: Awaited::none(alloc),
        used: Vec::new(alloc),
        given: 0,
        last: None,
        at: 0,
        kept: none_kept(alloc),
        is_broken,
        is_ended: false,
    }
}
