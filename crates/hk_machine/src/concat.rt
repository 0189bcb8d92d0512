// The step that joins the pages of a pattern's items.
ghost use Rattle.std.specs.Prelude.{◌≡◌, ◌<◌, length, IfOk};
ghost use Rattle.std.specs.List.{AllByRecursion};
ghost use Rattle.hk_chain.specs.declared.page.Page.{Page as PageView};
ghost use Rattle.hk_fix.specs.Task.{notes as noting, used, ◌▷◌};
ghost use Rattle.hk_rules.specs.Plan.{lookups};
ghost use Rattle.hk_rules.specs.PlanView.{PlanView};
ghost use Rattle.hk_machine.specs.Acting.{Acts, IsActOf};
ghost use Rattle.hk_eval.specs.Asking.{ask_group};
ghost use Rattle.hk_machine.specs.Chain.{concat_task, joined_pages};
ghost use Rattle.hk_machine.specs.Runnable.{Runs};
ghost use Rattle.hk_eval.specs.Told.{told_pages};

use crate::act::Act;
use crate::joins::{Joined, join};
use crate::making::text_of;
use hk_base::{NoMemory, Text};
use hk_chain::{Fault, ItemNo, PairNo, PatternNo};
use hk_eval::{Group, Notes, Told, lacking, pairs_of};
use hk_rules::Plan;
use std::alloc::Global;

/// The finished pages of a pattern's items, one after another. Linear in the chains of the items that match, which the plan
/// holds, and in the bodies.
pub(crate) fn concat(
    alloc: Global,
    plan: &Plan,
    pattern: PatternNo,
    told: &Told,
    notes: &mut Notes,
) -> Result<Act, NoMemory>
    requires plan { Runs plan.now }
    requires pattern { pattern < length plan.now.patterns }
    ensures acts { IfOk result (λ a. (page : PageView) → Acts (lookups plan.now) (told_pages told.now) (noting (used pattern) (concat_task (lookups plan.now) ((lookups plan.now).matches pattern))) page notes.old a notes.new) }
    ensures within { IfOk result (λ a. (own : PlanView) → IsActOf own a) }
{
    let items = plan.matches(pattern);
    match pairs_of(alloc, plan, items, b"_final")? {
        Group::Pairs(pairs) => all_of(alloc, plan, pattern, items, &pairs, told, notes),
        Group::Lacks(item) => Ok(Act::Fails(Fault::NoSnapshot {
            id: plan.id(item).copy(alloc)?,
            name: Text::from_slice(alloc, b"_final")?,
        })),
    }
}

/// The same, once the pairs are known.
fn all_of(
    alloc: Global,
    plan: &Plan,
    pattern: PatternNo,
    items: &[ItemNo],
    pairs: &[PairNo],
    told: &Told,
    notes: &mut Notes,
) -> Result<Act, NoMemory>
    requires same { length items.now ≡ length pairs.now }
    requires items { AllByRecursion (λ i. i < length plan.now.items) items.now }
    ensures acts { IfOk result (λ a. (page : PageView) → Acts (lookups plan.now) (told_pages told.now) (noting (used pattern) (ask_group pairs.now ▷ joined_pages (lookups plan.now) items.now)) page notes.old a notes.new) }
    ensures within { IfOk result (λ a. (own : PlanView) → IsActOf own a) }
{
    let lacks = lacking(alloc, told, pairs)?;
    if !lacks.is_empty() {
        return Ok(Act::Asks(lacks));
    }
    match join(alloc, told, items, pairs)? {
        Joined::Bodies(bytes) => {
            notes.note_pattern(pattern)?;
            notes.note_group(alloc, pairs)?;
            let text = Text::from_vec(bytes);
            Ok(Act::Gives(text_of(alloc, text)?))
        }
        Joined::Other(item) => Ok(Act::Fails(Fault::WrongKind {
            id: plan.id(item).copy(alloc)?,
        })),
    }
}
