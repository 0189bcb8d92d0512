// The steps of a chain.
ghost use Rattle.std.specs.Prelude.{◌<◌, length, IfOk};
ghost use Rattle.hk_rules.specs.Plan.{lookups};
ghost use Rattle.hk_machine.specs.Acting.{Acts, IsActOf, Makes};
ghost use Rattle.hk_machine.specs.Chain.{step_task};
ghost use Rattle.hk_machine.specs.Runnable.{Runs, IsRunnableStep, NeedsNoPage};
ghost use Rattle.hk_eval.specs.Told.{told_pages};

use crate::act::Act;
use crate::concat::concat;
use crate::loading::load;
use crate::making::{body_of, file_of, made, relative, save, template};
use crate::rendering::{apply, apply_self};
use hk_base::NoMemory;
use hk_chain::{ItemNo, Kind, PageRef, Step};
use hk_eval::{Notes, Told};
use hk_rules::Plan;
use std::alloc::Global;

/// What a step of an item's chain comes to.
pub(crate) fn act(
    alloc: Global,
    plan: &Plan,
    item: ItemNo,
    step: &Step,
    page: &PageRef,
    told: &Told,
    notes: &mut Notes,
) -> Result<Act, NoMemory>
    requires plan { Runs plan.now }
    requires item { item < length plan.now.items }
    requires step { IsRunnableStep (length plan.now.contexts) (length plan.now.patterns) step.now }
    ensures acts { IfOk result (λ a. Acts (lookups plan.now) (told_pages told.now) (step_task (lookups plan.now) item step.now page.now) page.now notes.old a notes.new) }
    ensures within { IfOk result (λ a. IsActOf plan.now a) }
{
    match step {
        Step::Load { id, snapshot } => {
            let act = load(alloc, plan, id, snapshot.as_slice(), told, notes)?;
            Ok(act)
        }
        Step::Apply { id, context } => {
            let act = apply(alloc, plan, item, id, *context, page, told, notes)?;
            Ok(act)
        }
        Step::SelfApply(context) => {
            let act = apply_self(alloc, plan, item, *context, page)?;
            Ok(act)
        }
        Step::Concat(pattern) => {
            let act = concat(alloc, plan, *pattern, told, notes)?;
            Ok(act)
        }
        _ => {
            let act = at_once(alloc, plan, item, step, page)?;
            Ok(act)
        }
    }
}

/// What a step comes to that needs no other page.
fn at_once(
    alloc: Global,
    plan: &Plan,
    item: ItemNo,
    step: &Step,
    page: &PageRef,
) -> Result<Act, NoMemory>
    requires item { item < length plan.now.items }
    requires step { NeedsNoPage step.now }
    ensures { IfOk result (λ a. Makes (step_task (lookups plan.now) item step.now page.now) page.now a) }
{
    match step {
        Step::Body => made(alloc, Kind::Text, body_of(plan, item)),
        Step::Str => made(alloc, Kind::Text, file_of(plan, item)),
        Step::Copy => made(alloc, Kind::File, file_of(plan, item)),
        Step::TemplateBody => template(alloc, body_of(plan, item)),
        Step::Make(text) => made(alloc, Kind::Text, text.as_slice()),
        Step::Save(name) => save(plan, item, name.as_slice(), page),
        Step::Relativize => relative(alloc, plan, item, page),
        Step::Load { .. } => unreachable!(),
        Step::Concat(_) => unreachable!(),
        Step::Apply { .. } => unreachable!(),
        Step::SelfApply(_) => unreachable!(),
    }
}
