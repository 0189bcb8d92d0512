// The trace of a run.
ghost use Rattle.std.specs.Prelude.{◌≡◌, ◌++◌, ◌<◌, All, IfOk, OnOk, length};
ghost use Rattle.hk_chain.specs.Layout.{pairs};
ghost use Rattle.hk_rules.specs.Pairs.{layout};
ghost use Rattle.hk_rules.specs.Plan.{lookups};
ghost use Rattle.hk_texts.specs.TraceText as spec;
ghost use Rattle.hk_texts.specs.TraceText.{IsEventWithin};

use crate::pieces::{append, write_item};
use hk_base::{NoMemory, Text};
use hk_chain::{ItemNo, PairNo};
use hk_fix::Event;
use hk_rules::Plan;
use std::alloc::Global;

/// A line for each event of a run, in their order. Linear in the events and their text, with the name of each saved page
/// looked up in its item's chain.
pub fn trace_text(alloc: Global, plan: &Plan, history: &[Event]) -> Result<Text, NoMemory>
    requires { All (IsEventWithin (length plan.now.items) (pairs (layout plan.now.items))) history.now }
    ensures { IfOk result (λ text. text ≡ spec.trace_text (lookups plan.now) history.now) }
{
    let mut out = Vec::new(alloc);
    write_events(alloc, &mut out, plan, history)?;
    Ok(Text::from_vec(out))
}

fn write_events(
    alloc: Global,
    out: &mut Vec<u8>,
    plan: &Plan,
    history: &[Event],
) -> Result<(), NoMemory>
    requires { All (IsEventWithin (length plan.now.items) (pairs (layout plan.now.items))) history.now }
    ensures { OnOk result (out.new.items ≡ out.old.items ++ spec.trace_text (lookups plan.now) history.now) }
{
    for event in history {
        write_event(alloc, out, plan, *event)?;
    }
    Ok(())
}

fn write_event(alloc: Global, out: &mut Vec<u8>, plan: &Plan, event: Event) -> Result<(), NoMemory>
    requires { IsEventWithin (length plan.now.items) (pairs (layout plan.now.items)) event }
    ensures { OnOk result (out.new.items ≡ out.old.items ++ spec.event_line (lookups plan.now) event) }
{
    match event {
        Event::Begin(item) => write_line(alloc, out, plan, b"begin ", item),
        Event::Saved(pair) => write_saved(alloc, out, plan, pair),
        Event::Done(item) => write_line(alloc, out, plan, b"done ", item),
        Event::Failed(item) => write_line(alloc, out, plan, b"failed ", item),
    }
}

fn write_line(
    alloc: Global,
    out: &mut Vec<u8>,
    plan: &Plan,
    front: &[u8],
    item: ItemNo,
) -> Result<(), NoMemory>
    requires { item < length plan.now.items }
    ensures { OnOk result (out.new.items ≡ out.old.items ++ spec.item_line (lookups plan.now) front.now item) }
{
    append(out, front)?;
    write_item(alloc, out, plan, item)?;
    append(out, b"\n")
}

#[tactic(auto, unfolding(hk_rules::specs::Plan::lookups))]
fn write_saved(alloc: Global, out: &mut Vec<u8>, plan: &Plan, pair: PairNo) -> Result<(), NoMemory>
    requires { pair < pairs (layout plan.now.items) }
    ensures { OnOk result (out.new.items ≡ out.old.items ++ spec.saved_line (lookups plan.now) pair) }
{
    let item = plan.layout().get().item_of(pair);
    append(out, b"saved ")?;
    write_item(alloc, out, plan, item)?;
    append(out, b" ")?;
    append(out, plan.pair_name(pair))?;
    append(out, b"\n")
}
