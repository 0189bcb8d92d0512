// Steps that make a page of what is at hand.
ghost use Rattle.std.specs.Prelude.{◌≡◌, ◌<◌, length, IfOk};
ghost use Rattle.hk_chain.specs.declared.page.Page.{Page as PageView};
ghost use Rattle.hk_fix.specs.Task.{◌▷◌, gives};
ghost use Rattle.hk_rules.specs.Plan.{lookups};
ghost use Rattle.hk_html.specs.Root.{root_of};
ghost use Rattle.hk_html.specs.Relative.{with_roots};
ghost use Rattle.hk_machine.specs.Acting.{Makes};
ghost use Rattle.hk_eval.specs.Asking.{need_text, text_page};
ghost use Rattle.hk_machine.specs.Chain as spec;

use crate::act::Act;
use hk_base::{NoMemory, Refusal, Text};
use hk_chain::{Fault, ItemNo, Kind, Page, PageRef};
use hk_eval::is_text;
use hk_html::relativize;
use hk_rules::Plan;
use hk_template::parse;
use std::alloc::Global;

/// A page with a copy of these bytes.
pub(crate) fn page_of(alloc: Global, kind: Kind, bytes: &[u8]) -> Result<PageRef, NoMemory>
    ensures { IfOk result (λ p. p ≡ record { kind = kind; body = bytes.now }) }
{
    let body = Text::from_slice(alloc, bytes)?;
    PageRef::new(alloc, Page { kind, body })
}

/// The page of a text.
pub(crate) fn text_of(alloc: Global, text: Text) -> Result<PageRef, NoMemory>
    ensures { IfOk result (λ p. p ≡ text_page text) }
{
    let page = Page {
        kind: Kind::Text,
        body: text,
    };
    PageRef::new(alloc, page)
}

/// A step that makes a page of these bytes.
pub(crate) fn made(alloc: Global, kind: Kind, bytes: &[u8]) -> Result<Act, NoMemory>
    ensures { IfOk result (λ a. a ≡ Act.Gives (record { kind = kind; body = bytes.now })) }
{
    Ok(Act::Gives(page_of(alloc, kind, bytes)?))
}

/// What an item's file holds.
pub(crate) fn file_of(plan: &Plan, item: ItemNo) -> &[u8]
    requires { item < length plan.now.items }
    ensures { result.now ≡ spec.file_of (lookups plan.now) item }
{
    match plan.resource(item) {
        Some(bytes) => bytes,
        None => b"",
    }
}

/// What an item's file holds after its header.
pub(crate) fn body_of(plan: &Plan, item: ItemNo) -> &[u8]
    requires { item < length plan.now.items }
    ensures { result.now ≡ spec.body_of (lookups plan.now) item }
{
    match file_of(plan, item).get(plan.body_start(item)..) {
        Some(rest) => rest,
        None => b"",
    }
}

/// A step that makes a template of these bytes, if they are one. Linear.
pub(crate) fn template(alloc: Global, bytes: &[u8]) -> Result<Act, NoMemory>
    ensures { IfOk result (λ a. (page : PageView) → Makes (spec.template_of bytes.now) page a) }
{
    match parse(alloc, bytes) {
        Ok(_) => made(alloc, Kind::Template, bytes),
        Err(Refusal::Fault(fault)) => Ok(Act::Fails(Fault::BadTemplate {
            place: fault.place(),
        })),
        Err(Refusal::NoMemory) => Err(NoMemory),
    }
}

/// A step that makes the links of a text relative, where the item has a target. Linear.
pub(crate) fn relative(
    alloc: Global,
    plan: &Plan,
    item: ItemNo,
    page: &PageRef,
) -> Result<Act, NoMemory>
    requires { item < length plan.now.items }
    ensures { IfOk result (λ a. Makes (need_text ((lookups plan.now).id item) page.now ▷ (λ text. gives (spec.relative_page text ((lookups plan.now).target_of item)))) page.now a) }
{
    if !is_text(page.get()) {
        return Ok(Act::Fails(Fault::WrongKind {
            id: plan.id(item).copy(alloc)?,
        }));
    }
    match plan.target_of(item) {
        Some(target) => Ok(Act::Gives(rooted(alloc, page, target)?)),
        None => Ok(Act::Gives(page.try_clone()?)),
    }
}

fn rooted(alloc: Global, page: &PageRef, target: &[u8]) -> Result<PageRef, NoMemory>
    ensures { IfOk result (λ p. p ≡ text_page (with_roots (root_of target.now) page.now.body)) }
{
    let body = relativize(alloc, page.get().body.as_slice(), target)?;
    text_of(alloc, body)
}

/// A step that saves the page under a name of the item's chain. Linear in the chain.
pub(crate) fn save(plan: &Plan, item: ItemNo, name: &[u8], page: &PageRef) -> Result<Act, NoMemory>
    requires { item < length plan.now.items }
    ensures { IfOk result (λ a. Makes (spec.save_task page.now ((lookups plan.now).pair item name.now)) page.now a) }
{
    match plan.pair(item, name) {
        Some(pair) => Ok(Act::Saves(pair)),
        None => Ok(Act::Gives(page.try_clone()?)),
    }
}
