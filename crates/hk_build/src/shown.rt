// The events of a build that its trace shows.
ghost use Rattle.std.specs.Prelude.{◌≡◌, ℕ, ◌<◌, ◌++◌, false, true, All, get_or, length, replicate, slice_set, IfOk, OnOk};
ghost use Rattle.hk_chain.specs.Layout.{pairs};
ghost use Rattle.hk_fix.specs.Facts.{is_in};
ghost use Rattle.hk_rules.specs.Plan.{lookups};
ghost use Rattle.hk_texts.specs.TraceText as text;
ghost use Rattle.hk_texts.specs.TraceText.{IsEventWithin};
ghost use Rattle.hk_reuse.specs.Entries.{Entries};
ghost use Rattle.hk_reuse.specs.Histories.{item_of_event};
ghost use Rattle.hk_build.specs.Build.{shown};
ghost use Rattle.hk_build.specs.Ended.{HasBuilt, IsBuild};
ghost use Rattle.hk_build.specs.Shown as spec;

use crate::ended::Build;
use hk_base::{NoMemory, Text};
use hk_chain::{ItemNo, Layout};
use hk_fix::{Event, Results};
use hk_rules::Plan;
use hk_texts::trace_text;
use std::alloc::Global;

/// A line for each event of the items that a build compiled, in their order. `NoMemory` only for want of memory. Linear in
/// the items, the events and the text.
pub fn shown_trace(alloc: Global, plan: &Plan, build: &Build) -> Result<Text, NoMemory>
    requires { HasBuilt plan.now build.now }
    ensures { IfOk result (λ t. (entries : Entries) → IsBuild plan.now entries build.now
        → t ≡ text.trace_text (lookups plan.now) (shown plan.now entries build.now.results.history)) }
{
    let events = shown_history(alloc, plan, build)?;
    trace_text(alloc, plan, &events)
}

/// The events of the items that a build compiled, in their order. `NoMemory` only for want of memory. Linear in the items
/// and the events.
pub fn shown_history(alloc: Global, plan: &Plan, build: &Build) -> Result<Vec<Event>, NoMemory>
    requires { HasBuilt plan.now build.now }
    ensures { IfOk result (λ v. (entries : Entries) → IsBuild plan.now entries build.now
        → v.items ≡ shown plan.now entries build.now.results.history) }
{
    let layout = plan.layout().get();
    let marks = marked(alloc, layout.items(), &build.compiled)?;
    marked_events(alloc, layout, &marks, history_of(&build.results))
}

fn history_of(results: &Results) -> &[Event]
    ensures { result.now ≡ results.now.history }
{
    &results.history
}

/// A mark for each of some items.
fn marked(alloc: Global, count: u32, items: &[ItemNo]) -> Result<Vec<bool>, NoMemory>
    requires { All (λ i. i < count) items.now }
    ensures { IfOk result (λ v. (i : ℕ) → i < count → get_or v.items i false ≡ is_in items.now i) }
{
    let mut marks = no_marks(alloc, count)?;
    for item in items {
        mark(&mut marks, *item);
    }
    Ok(marks)
}

fn no_marks(alloc: Global, count: u32) -> Result<Vec<bool>, NoMemory>
    ensures { IfOk result (λ v. v.items ≡ replicate count false) }
{
    let mut marks = Vec::with_capacity(alloc, count as usize)?;
    for _ in 0..count {
        marks.push(false)?;
    }
    Ok(marks)
}

fn mark(marks: &mut Vec<bool>, item: ItemNo)
    requires { item < length marks.old.items }
    ensures { marks.new.items ≡ slice_set marks.old.items item true }
{
    marks[item.0 as usize] = true;
}

/// The events of the marked items.
fn marked_events(
    alloc: Global,
    layout: &Layout,
    marks: &[bool],
    history: &[Event],
) -> Result<Vec<Event>, NoMemory>
    requires { All (IsEventWithin layout.now.items (pairs layout.now)) history.now }
    ensures { IfOk result (λ v. v.items ≡ spec.marked_events layout.now marks.now history.now) }
{
    let mut events = Vec::new(alloc);
    for event in history {
        show(&mut events, layout, marks, event)?;
    }
    Ok(events)
}

/// Appends an event, if its item is marked.
fn show(
    events: &mut Vec<Event>,
    layout: &Layout,
    marks: &[bool],
    event: &Event,
) -> Result<(), NoMemory>
    requires { IsEventWithin layout.now.items (pairs layout.now) event.now }
    ensures { OnOk result (events.new.items ≡ events.old.items ++ spec.marked_event layout.now marks.now event.now) }
{
    if is_marked(marks, item_of(layout, event)) {
        events.push(*event)?;
    }
    Ok(())
}

fn is_marked(marks: &[bool], item: ItemNo) -> bool
    ensures { result ≡ get_or marks.now item false }
{
    match marks.get(item.0 as usize) {
        Some(mark) => *mark,
        None => false,
    }
}

/// The item of an event.
fn item_of(layout: &Layout, event: &Event) -> ItemNo
    requires { IsEventWithin layout.now.items (pairs layout.now) event.now }
    ensures { result ≡ item_of_event layout.now event.now }
{
    match event {
        Event::Begin(item) => *item,
        Event::Saved(pair) => layout.item_of(*pair),
        Event::Done(item) => *item,
        Event::Failed(item) => *item,
    }
}
