// Asks of one page under the pages that are told.
ghost use Rattle.std.specs.Prelude.{◌≡◌, ◌<◌, [], length, IfOk};
ghost use Rattle.hk_fix.specs.Pages.{Pages};
ghost use Rattle.hk_fix.specs.Task.{run};
ghost use Rattle.hk_rules.specs.Plan.{lookups};
ghost use Rattle.hk_eval.specs.Asking as spec;
ghost use Rattle.hk_eval.specs.Renderable.{IsRenderable};
ghost use Rattle.hk_eval.specs.Replies.{reply_end, RunsOn};
ghost use Rattle.hk_eval.specs.Told.{told_pages};

use crate::told::Told;
use hk_base::{NoMemory, Text};
use hk_chain::{Fault, ItemNo, Kind, Page, PageRef, PairNo};
use hk_rules::Plan;
use std::alloc::Global;

/// What came of an ask.
#[derive(Drop)]
pub(crate) enum Reply<'a> {
    Page(&'a PageRef),
    Asks(PairNo),
    Fails(Fault),
}

/// Whether a page is text. Constant.
pub fn is_text(page: &Page) -> bool
    ensures { result ≡ spec.is_text page.now.kind }
{
    matches!(page.kind, Kind::Text)
}

/// The text that an item saves under a name. The pair that is asked for is added to `asked`.
pub(crate) fn text_of_item<'a>(
    alloc: Global,
    plan: &Plan,
    told: &'a Told,
    item: ItemNo,
    name: &[u8],
    asked: &mut Vec<PairNo>,
) -> Result<Reply<'a>, NoMemory>
    requires plan { IsRenderable (lookups plan.now) (length plan.now.items) (length plan.now.contexts) (length plan.now.patterns) }
    requires item { item < length plan.now.items }
    ensures { IfOk result (λ r. RunsOn asked.old.items asked.new.items (run (spec.ask_text (lookups plan.now) ((lookups plan.now).id item) name.now) (told_pages told.now)) (reply_end r)) }
{
    let Some(pair) = plan.pair(item, name) else {
        return Ok(Reply::Fails(Fault::NoSnapshot {
            id: plan.id(item).copy(alloc)?,
            name: Text::from_slice(alloc, name)?,
        }));
    };
    asked.push(pair)?;
    match told.get(pair) {
        Some(page) => text_page(alloc, plan, item, page),
        None => Ok(Reply::Asks(pair)),
    }
}

/// A page of an item, which must be text.
fn text_page<'a>(
    alloc: Global,
    plan: &Plan,
    item: ItemNo,
    page: &'a PageRef,
) -> Result<Reply<'a>, NoMemory>
    requires item { item < length plan.now.items }
    ensures { IfOk result (λ r. (k : Pages) → run (spec.need_text ((lookups plan.now).id item) page.now) k ≡ record { log = []; end = reply_end r }) }
{
    if is_text(page.get()) {
        Ok(Reply::Page(page))
    } else {
        Ok(Reply::Fails(Fault::WrongKind {
            id: plan.id(item).copy(alloc)?,
        }))
    }
}
