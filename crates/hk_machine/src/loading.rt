// The step that loads one page.
ghost use Rattle.std.specs.Prelude.{◌≡◌, ◌∷◌, [], IfOk};
ghost use Rattle.hk_chain.specs.declared.page.Page.{Page as PageView};
ghost use Rattle.hk_fix.specs.Task.{◌▷◌};
ghost use Rattle.hk_rules.specs.Plan.{Lookups, lookups};
ghost use Rattle.hk_rules.specs.PlanView.{PlanView};
ghost use Rattle.hk_machine.specs.Acting.{Acts, IsActOf};
ghost use Rattle.hk_eval.specs.Asking.{ask, ask_pair, need_text};
ghost use Rattle.hk_machine.specs.Runnable.{Runs};
ghost use Rattle.hk_eval.specs.Told.{told_pages};

use crate::act::Act;
use hk_base::{Identifier, NoMemory, Text};
use hk_chain::{Fault, PairNo};
use hk_eval::{Notes, Told, is_text};
use hk_rules::Plan;
use std::alloc::Global;

/// The page that the item with this identifier saves under a name. Logarithmic, and linear in that item's chain.
pub(crate) fn load(
    alloc: Global,
    plan: &Plan,
    id: &Identifier,
    name: &[u8],
    told: &Told,
    notes: &mut Notes,
) -> Result<Act, NoMemory>
    requires { Runs plan.now }
    ensures acts { IfOk result (λ a. (page : PageView) → Acts (lookups plan.now) (told_pages told.now) (ask (lookups plan.now) id.now name.now ▷ need_text id.now) page notes.old a notes.new) }
    ensures within { IfOk result (λ a. (own : PlanView) → IsActOf own a) }
{
    let Some(item) = plan.find(id) else {
        return Ok(Act::Fails(Fault::Missing {
            id: id.copy(alloc)?,
        }));
    };
    match plan.pair(item, name) {
        Some(pair) => {
            let act = loaded(alloc, id, name, pair, told, notes)?;
            Ok(act)
        }
        None => Ok(Act::Fails(Fault::NoSnapshot {
            id: id.copy(alloc)?,
            name: Text::from_slice(alloc, name)?,
        })),
    }
}

fn loaded(
    alloc: Global,
    id: &Identifier,
    name: &[u8],
    pair: PairNo,
    told: &Told,
    notes: &mut Notes,
) -> Result<Act, NoMemory>
    ensures acts { IfOk result (λ a. (plan : Lookups) (page : PageView) → Acts plan (told_pages told.now) (ask_pair (Fault.NoSnapshot id.now name.now) (Some pair) ▷ need_text id.now) page notes.old a notes.new) }
    ensures within { IfOk result (λ a. (own : PlanView) → IsActOf own a) }
{
    let Some(page) = told.get(pair) else {
        return Ok(Act::Asks(one(alloc, pair)?));
    };
    if !is_text(page.get()) {
        return Ok(Act::Fails(Fault::WrongKind {
            id: id.copy(alloc)?,
        }));
    }
    notes.note_group(alloc, &[pair])?;
    Ok(Act::Gives(page.try_clone()?))
}

/// The list of one pair.
pub(crate) fn one(alloc: Global, pair: PairNo) -> Result<Vec<PairNo>, NoMemory>
    ensures { IfOk result (λ v. v.items ≡ pair ∷ []) }
{
    let mut pairs = Vec::new(alloc);
    pairs.push(pair)?;
    Ok(pairs)
}
