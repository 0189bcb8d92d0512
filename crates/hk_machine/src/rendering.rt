// The steps that render the current page.
ghost use Rattle.std.specs.Prelude.{◌<◌, length, IfOk};
ghost use Rattle.hk_chain.specs.Facts.{FactsView};
ghost use Rattle.hk_fix.specs.Pages.{Pages};
ghost use Rattle.hk_rules.specs.Plan.{Lookups, lookups};
ghost use Rattle.hk_rules.specs.PlanView.{PlanView};
ghost use Rattle.hk_eval.specs.Replies.{IsFoundPrintable};
ghost use Rattle.hk_eval.specs.Told.{told_pages};
ghost use Rattle.hk_eval.specs.Within.{Renders, IsPlaceOf};
ghost use Rattle.hk_machine.specs.Acting.{Acts, IsActOf, Begins};
ghost use Rattle.hk_machine.specs.Applying.{apply_task, self_task};

use crate::act::Act;
use crate::loading::one;
use hk_base::{Identifier, NoMemory};
use hk_chain::{ContextNo, Fault, ItemNo, PageRef};
use hk_eval::{Found, Notes, Place, Stack, Told, find_template, is_text, read_template};
use hk_rules::Plan;
use std::alloc::Global;

/// The step that renders the current page, which must be text, by the template that another item ends with. Logarithmic,
/// and linear in that item's chain and in the template, which is parsed unless the notes have it.
pub(crate) fn apply(
    alloc: Global,
    plan: &Plan,
    item: ItemNo,
    id: &Identifier,
    context: ContextNo,
    page: &PageRef,
    told: &Told,
    notes: &mut Notes,
) -> Result<Act, NoMemory>
    requires plan { Renders plan.now }
    requires item { item < length plan.now.items }
    requires context { context < length plan.now.contexts }
    ensures acts { IfOk result (λ a. Acts (lookups plan.now) (told_pages told.now) (apply_task (lookups plan.now) item id.now context page.now) page.now notes.old a notes.new) }
    ensures within { IfOk result (λ a. IsActOf plan.now a) }
{
    if !is_text(page.get()) {
        return Ok(Act::Fails(Fault::WrongKind {
            id: plan.id(item).copy(alloc)?,
        }));
    }
    let found = find_template(alloc, plan, told, id, notes)?;
    let page = page.try_clone()?;
    let act = begin(
        alloc,
        found,
        Place {
            item,
            page,
            context,
        },
    )?;
    Ok(act)
}

/// The step that renders the current page, which must be text, by its own body, which must be a template. Linear in the
/// body.
pub(crate) fn apply_self(
    alloc: Global,
    plan: &Plan,
    item: ItemNo,
    context: ContextNo,
    page: &PageRef,
) -> Result<Act, NoMemory>
    requires item { item < length plan.now.items }
    requires context { context < length plan.now.contexts }
    ensures acts { IfOk result (λ a. (k : Pages) (notes : FactsView) → Acts (lookups plan.now) k (self_task (lookups plan.now) item context page.now) page.now notes a notes) }
    ensures within { IfOk result (λ a. IsActOf plan.now a) }
{
    let text = page.get();
    if !is_text(text) {
        return Ok(Act::Fails(Fault::WrongKind {
            id: plan.id(item).copy(alloc)?,
        }));
    }
    let found = read_template(alloc, text.body.as_slice())?;
    let page = page.try_clone()?;
    let act = begin(
        alloc,
        found,
        Place {
            item,
            page,
            context,
        },
    )?;
    Ok(act)
}

/// The rendering of a template that was found.
fn begin(alloc: Global, found: Found, here: Place) -> Result<Act, NoMemory>
    requires { IsFoundPrintable found }
    ensures begins { IfOk result (λ a. (plan : Lookups) → Begins plan here found a) }
    ensures within { IfOk result (λ a. (plan : PlanView) → IsPlaceOf plan here → IsActOf plan a) }
{
    match found {
        Found::Tree(block) => {
            let stack = Stack::new(alloc, block, here)?;
            Ok(Act::Renders(stack))
        }
        Found::Asks(pair) => Ok(Act::Asks(one(alloc, pair)?)),
        Found::Fails(fault) => Ok(Act::Fails(fault)),
    }
}
