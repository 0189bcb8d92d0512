// Templates of items.
ghost use Rattle.std.specs.Prelude.{◌≡◌, ◌∷◌, [], length, IfOk, Some};
ghost use Rattle.hk_fix.specs.Pages.{Pages};
ghost use Rattle.hk_fix.specs.Task.{run, ◌▷◌};
ghost use Rattle.hk_chain.specs.Names.{final_name};
ghost use Rattle.hk_rules.specs.Plan.{lookups};
ghost use Rattle.hk_eval.specs.Asking.{ask_pair};
ghost use Rattle.hk_eval.specs.Renderable.{IsRenderable};
ghost use Rattle.hk_eval.specs.Replies.{found_end, Comes, IsFoundPrintable};
ghost use Rattle.hk_eval.specs.Templates as spec;
ghost use Rattle.hk_eval.specs.Told.{told_pages};

use crate::block::Block;
use crate::found::Found;
use crate::notes::Notes;
use crate::told::Told;
use hk_base::{Identifier, NoMemory, Refusal, Text};
use hk_chain::{Fault, Kind, PageRef, PairNo};
use hk_rules::Plan;
use hk_template::{grammar_laws, parse};
use std::alloc::Global;

/// The template that the item with this identifier ends with. `Missing` where there is no such item, `WrongKind` where its
/// page is no template, and `BadTemplate` with the first fault's place where the page's body has no tree. Where the page is
/// wanted and isn't told, nothing is noted, and else the pair is. After `NoMemory` nothing is said of the notes.
/// Logarithmic, and linear in the item's chain; the body is parsed once for these notes, so once for each machine that uses
/// the template, and compared after that. The machines of a plan could share the nodes beside the page inside its `Shared`.
pub fn find_template(
    alloc: Global,
    plan: &Plan,
    told: &Told,
    id: &Identifier,
    notes: &mut Notes,
) -> Result<Found, NoMemory>
    requires { IsRenderable (lookups plan.now) (length plan.now.items) (length plan.now.contexts) (length plan.now.patterns) }
    ensures comes { IfOk result (λ r. Comes (told_pages told.now) (spec.template_task (lookups plan.now) id.now) notes.old (found_end r) notes.new) }
    ensures printable { IfOk result IsFoundPrintable }
{
    let Some(item) = plan.find(id) else {
        return Ok(Found::Fails(Fault::Missing {
            id: id.copy(alloc)?,
        }));
    };
    match plan.pair(item, b"_final") {
        Some(pair) => template_in(alloc, told, id, pair, notes),
        None => Ok(Found::Fails(Fault::NoSnapshot {
            id: id.copy(alloc)?,
            name: Text::from_slice(alloc, b"_final")?,
        })),
    }
}

/// The template that is the page of this pair.
fn template_in(
    alloc: Global,
    told: &Told,
    id: &Identifier,
    pair: PairNo,
    notes: &mut Notes,
) -> Result<Found, NoMemory>
    ensures comes { IfOk result (λ r. Comes (told_pages told.now) (ask_pair (Fault.NoSnapshot id.now final_name) (Some pair) ▷ spec.need_template id.now) notes.old (found_end r) notes.new) }
    ensures printable { IfOk result IsFoundPrintable }
{
    let Some(page) = told.get(pair) else {
        return Ok(Found::Asks(pair));
    };
    notes.note_group(alloc, &[pair])?;
    let found = template_of(alloc, id, pair, page, notes)?;
    Ok(found)
}

/// The page of a pair of the item with this identifier, which must be a template.
fn template_of(
    alloc: Global,
    id: &Identifier,
    pair: PairNo,
    page: &PageRef,
    notes: &mut Notes,
) -> Result<Found, NoMemory>
    ensures comes { IfOk result (λ r. (k : Pages) → run (spec.need_template id.now page.now) k ≡ record { log = []; end = found_end r }) }
    ensures printable { IfOk result IsFoundPrintable }
    ensures same { notes.new ≡ notes.old }
{
    match page.get().kind {
        Kind::Template => tree_of(alloc, pair, page, notes),
        _ => Ok(Found::Fails(Fault::WrongKind {
            id: id.copy(alloc)?,
        })),
    }
}

/// The tree of a pair's page, which is parsed unless the notes have it.
fn tree_of(
    alloc: Global,
    pair: PairNo,
    page: &PageRef,
    notes: &mut Notes,
) -> Result<Found, NoMemory>
    ensures comes { IfOk result (λ r. (k : Pages) → run (spec.tree_task page.now.body) k ≡ record { log = []; end = found_end r }) }
    ensures printable { IfOk result IsFoundPrintable }
    ensures same { notes.new ≡ notes.old }
{
    let text = page.get().body.as_slice();
    if let Some(block) = notes.nodes(pair, text)? {
        return Ok(Found::Tree(block));
    }
    let found = read_template(alloc, text)?;
    if let Found::Tree(block) = &found {
        notes.keep(pair, page, block)?;
    }
    Ok(found)
}

/// The tree of a text that must be a template: the tree, or `BadTemplate` with the first fault's place. Linear.
pub fn read_template(alloc: Global, text: &[u8]) -> Result<Found, NoMemory>
    ensures comes { IfOk result (λ r. (k : Pages) → run (spec.tree_task text.now) k ≡ record { log = []; end = found_end r }) }
    ensures printable { IfOk result IsFoundPrintable }
{
    grammar_laws();
    match parse(alloc, text) {
        Ok(template) => {
            let block = Block::of_template(alloc, &template)?;
            Ok(Found::Tree(block))
        }
        Err(Refusal::Fault(fault)) => Ok(Found::Fails(Fault::BadTemplate {
            place: fault.place(),
        })),
        Err(Refusal::NoMemory) => Err(NoMemory),
    }
}
