// Where a chain stands, and its steps up to a stop.
ghost use Rattle.std.specs.Prelude.{◌≡◌, ◌+◌, ◌^◌, ◌<◌, ◌≤◌, ◌∷◌, None, drop, length, IfOk};
ghost use Rattle.hk_rules.specs.Plan.{lookups};
ghost use Rattle.hk_machine.specs.Acting.{Stops, Turns, saves_by, saves_in};
ghost use Rattle.hk_machine.specs.Runnable.{Runs, IsRunnableStep};
ghost use Rattle.hk_eval.specs.Told.{told_pages};
ghost use Rattle.hk_eval.specs.Within.{Renders};
ghost use Rattle.hk_machine.specs.Working.{left, IsWorkOf};

use crate::act::{Act, Stop};
use crate::making::text_of;
use crate::step::act;
use hk_base::NoMemory;
use hk_chain::{ItemNo, PageRef, Step};
use hk_eval::{Notes, Stack, Stop as Pause, Told};
use hk_rules::Plan;
use std::alloc::Global;

/// Where a chain stands.
#[derive(Drop)]
pub(crate) struct Work {
    /// The number of the next step.
    pub at: usize,
    /// The current page.
    pub page: PageRef,
    /// The rendering under way, whose text is the current page once it is whole.
    pub rendering: Option<Stack>,
    pub notes: Notes,
}

/// The steps of an item's chain up to a stop. A step that wants pages stays the next one, and a rendering that wants pages
/// stays where it stands.
pub(crate) fn work_on(
    alloc: Global,
    plan: &Plan,
    item: ItemNo,
    told: &Told,
    work: &mut Work,
) -> Result<Stop, NoMemory>
    requires plan { Runs plan.now }
    requires item { item < length plan.now.items }
    requires within { IsWorkOf plan.now work.old }
    ensures stops { IfOk result (λ s. Stops (told_pages told.now) (left (lookups plan.now) item work.old) work.old.notes s (left (lookups plan.now) item work.new) work.new.notes work.new.page) }
    ensures moves { IfOk result (λ s. work.old.at + saves_by s ≤ work.new.at) }
    ensures within { IfOk result (λ _. IsWorkOf plan.now work.new) }
{
    if let Some(stop) = render_on(alloc, plan, item, told, work)? {
        return Ok(stop);
    }
    let chain = plan.chain(item);
    let steps = chain.steps.as_slice();
    while work.at < steps.len() {
        let step = &steps[work.at];
        if let Some(stop) = turn(alloc, plan, item, step, told, work)? {
            return Ok(stop);
        }
    }
    Ok(Stop::Done)
}

/// The next step, and its stop if it comes to one.
fn turn(
    alloc: Global,
    plan: &Plan,
    item: ItemNo,
    step: &Step,
    told: &Told,
    work: &mut Work,
) -> Result<Option<Stop>, NoMemory>
    requires plan { Runs plan.now }
    requires item { item < length plan.now.items }
    requires step { IsRunnableStep (length plan.now.contexts) (length plan.now.patterns) step.now }
    requires next { drop work.old.at ((lookups plan.now).chain item) ≡ step.now ∷ drop (work.old.at + 1) ((lookups plan.now).chain item) }
    requires few { work.old.at + 1 < 2 ^ 64 }
    requires idle { work.old.rendering ≡ None }
    ensures turns { IfOk result (λ o. Turns (told_pages told.now) (left (lookups plan.now) item work.old) work.old.notes o (left (lookups plan.now) item work.new) work.new.notes work.new.page) }
    ensures moves { IfOk result (λ o. work.old.at + saves_in o ≤ work.new.at) }
    ensures passed { IfOk result (λ o. o ≡ None → work.old.at < work.new.at) }
    ensures idle { IfOk result (λ o. o ≡ None → work.new.rendering ≡ None) }
    ensures within { IfOk result (λ _. IsWorkOf plan.now work.new) }
{
    match act(alloc, plan, item, step, &work.page, told, &mut work.notes)? {
        Act::Gives(page) => {
            work.page = page;
            work.at += 1;
            Ok(None)
        }
        Act::Renders(stack) => {
            work.rendering = Some(stack);
            work.at += 1;
            let stop = render_on(alloc, plan, item, told, work)?;
            Ok(stop)
        }
        Act::Saves(pair) => {
            work.at += 1;
            Ok(Some(Stop::Saves(pair)))
        }
        Act::Asks(pairs) => Ok(Some(Stop::Asks(pairs))),
        Act::Fails(fault) => Ok(Some(Stop::Fails(fault))),
    }
}

/// Goes on with the rendering under way, if there is one. Where it comes to its text, that is the current page.
fn render_on(
    alloc: Global,
    plan: &Plan,
    item: ItemNo,
    told: &Told,
    work: &mut Work,
) -> Result<Option<Stop>, NoMemory>
    requires plan { Renders plan.now }
    requires within { IsWorkOf plan.now work.old }
    ensures turns { IfOk result (λ o. Turns (told_pages told.now) (left (lookups plan.now) item work.old) work.old.notes o (left (lookups plan.now) item work.new) work.new.notes work.new.page) }
    ensures moves { IfOk result (λ o. work.old.at + saves_in o ≤ work.new.at) }
    ensures idle { IfOk result (λ o. o ≡ None → work.new.rendering ≡ None) }
    ensures within { IfOk result (λ _. IsWorkOf plan.now work.new) }
{
    let Some(mut stack) = work.rendering.take() else {
        return Ok(None);
    };
    match stack.advance(alloc, plan, told, &mut work.notes)? {
        Pause::Asks(pairs) => {
            work.rendering = Some(stack);
            Ok(Some(Stop::Asks(pairs)))
        }
        Pause::Text(text) => {
            work.page = text_of(alloc, text)?;
            Ok(None)
        }
        Pause::Fails(fault) => Ok(Some(Stop::Fails(fault))),
    }
}
