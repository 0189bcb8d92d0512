// How far a rendering has come.
ghost use Rattle.std.specs.Prelude.{◌≡◌, ℕ, [], false, true, None, nat_eq, IfOk, OnOk, OnErr};
ghost use Rattle.std.specs.List.{AllByRecursion, IsDistinct};
ghost use Rattle.hk_eval.specs.Keeping.{Keeps, Stays, Went};
ghost use Rattle.hk_eval.specs.Told.{told_pages, is_listed};

use crate::awaited::Awaited;
use crate::moves::Stop;
use crate::notes::Notes;
use crate::place::Place;
use crate::render_step::RenderStep;
use crate::stack::Stack;
use crate::told::Told;
use hk_base::{NoMemory, Text};
use hk_chain::{Facts, PairNo};
use hk_rules::Plan;
use hk_template::Template;
use std::alloc::Global;
use std::mem;

/// How far a rendering has come.
#[derive(Drop)]
pub(crate) struct Course {
    pub tree: Template,
    pub here: Place,
    pub stack: Stack,
    pub told: Told,
    pub notes: Notes,
    pub awaits: Awaited,
    /// What was used, once the text is whole.
    pub facts: Facts,
    pub has_ended: bool,
}

/// Goes on to the text, to the pages that are wanted, or to a fault.
pub(crate) fn go(alloc: Global, plan: &Plan, course: &mut Course) -> Result<RenderStep, NoMemory>
    requires keeps { Keeps plan.now course.old }
    requires closed { course.old.awaits ≡ [] }
    requires going { course.old.has_ended ≡ false }
    ensures went { IfOk result (λ s. Went plan.now course.old s course.new) }
    ensures stays { OnErr result (Stays course.old course.new) }
{
    match course
        .stack
        .advance(alloc, plan, &course.told, &mut course.notes)?
    {
        Stop::Asks(pairs) => {
            let step = wait(course, pairs)?;
            Ok(step)
        }
        Stop::Text(text) => {
            let step = finish(alloc, course, text)?;
            Ok(step)
        }
        Stop::Fails(fault) => {
            course.has_ended = true;
            Ok(RenderStep::Fail(fault))
        }
    }
}

/// Waits for pages.
fn wait(course: &mut Course, pairs: Vec<PairNo>) -> Result<RenderStep, NoMemory>
    requires untold { AllByRecursion (λ p. told_pages course.old.told p ≡ None) pairs.items }
    requires distinct { IsDistinct nat_eq pairs.items }
    ensures step { IfOk result (λ s. s ≡ RenderStep.Ask) }
    ensures gone { OnOk result (course.new ≡ record course.old { told = course.new.told; awaits = pairs.items }) }
    ensures pages { (q : ℕ) → told_pages course.new.told q ≡ told_pages course.old.told q }
    ensures listed { OnOk result (AllByRecursion (λ p. is_listed course.new.told p ≡ true) pairs.items) }
    ensures stays { OnErr result (Stays course.old course.new) }
{
    course.told.reserve(pairs.as_slice())?;
    course.awaits = Awaited::of(pairs);
    Ok(RenderStep::Ask)
}

/// Ends with the text.
fn finish(alloc: Global, course: &mut Course, text: Text) -> Result<RenderStep, NoMemory>
    ensures step { IfOk result (λ s. s ≡ RenderStep.Text text) }
    ensures gone { OnOk result (course.new ≡ record course.old { notes = course.new.notes; facts = course.old.notes; has_ended = true }) }
    ensures stays { OnErr result (Stays course.old course.new) }
{
    let notes = mem::replace(&mut course.notes, Notes::new(alloc));
    course.facts = notes.into_facts(alloc)?;
    course.has_ended = true;
    Ok(RenderStep::Text(text))
}
