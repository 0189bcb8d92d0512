// What one field has for a key.
ghost use Rattle.std.specs.Prelude.{◌≡◌, ◌<◌, [], true, length, option_map, IfOk};
ghost use Rattle.std.specs.Option.{option_copied};
ghost use Rattle.hk_fix.specs.Pages.{Pages};
ghost use Rattle.hk_fix.specs.Task.{run, done};
ghost use Rattle.hk_html.specs.Url.{url_of as url_by};
ghost use Rattle.hk_meta.specs.DatePattern.{pattern_ok};
ghost use Rattle.hk_rules.specs.Plan.{lookups};
ghost use Rattle.hk_eval.specs.Fields as spec;
ghost use Rattle.hk_eval.specs.Renderable.{IsRenderable, IsRenderableField};
ghost use Rattle.hk_eval.specs.Replies.{look_end, RunsOn};
ghost use Rattle.hk_eval.specs.Told.{told_pages};

use crate::asking::{Reply, is_text, text_of_item};
use crate::look::{Listing, Look};
use crate::place::Place;
use crate::title::title_of;
use crate::told::Told;
use hk_base::NoMemory;
use hk_chain::{Fault, Field, ItemNo, PairNo};
use hk_html::{teaser, url_of};
use hk_meta::{date_of, format_date};
use hk_rules::Plan;
use std::alloc::Global;

/// Whether a field may have a value for a key. Linear in the key.
pub(crate) fn fits(field: &Field, key: &[u8]) -> bool
    ensures { result ≡ spec.fits field.now key.now }
{
    match field {
        Field::Body => b"body".as_slice() == key,
        Field::Metadata => true,
        Field::Url => b"url".as_slice() == key,
        Field::Path => b"path".as_slice() == key,
        Field::Title => b"title".as_slice() == key,
        Field::Const(own, _) => own.as_slice() == key,
        Field::Date(own, _) => own.as_slice() == key,
        Field::Bool(own, _) => own.as_slice() == key,
        Field::Teaser(own, _) => own.as_slice() == key,
        Field::List { key: own, .. } => own.as_slice() == key,
    }
}

/// What a field has for a key that fits it. The pairs that are asked for are added to `asked`. Constant but for the text
/// that is made or searched, and for a teaser logarithmic in the told pages and linear in the item's chain.
pub(crate) fn own_value<'a>(
    alloc: Global,
    plan: &'a Plan,
    told: &'a Told,
    here: &'a Place,
    key: &[u8],
    field: &'a Field,
    asked: &mut Vec<PairNo>,
) -> Result<Look<'a>, NoMemory>
    requires plan { IsRenderable (lookups plan.now) (length plan.now.items) (length plan.now.contexts) (length plan.now.patterns) }
    requires item { here.now.item < length plan.now.items }
    requires field { IsRenderableField (length plan.now.contexts) (length plan.now.patterns) field.now }
    ensures { IfOk result (λ r. RunsOn asked.old.items asked.new.items (run (spec.own_task (lookups plan.now) here.now key.now field.now) (told_pages told.now)) (look_end r)) }
{
    match field {
        Field::Body => body(alloc, plan, here),
        Field::Metadata => Ok(lent(plan.meta(here.item).get(key))),
        Field::Url => url(alloc, plan.target_of(here.item)),
        Field::Path => Ok(Look::Lent(plan.id(here.item).path())),
        Field::Title => Ok(Look::Lent(title_of(plan.id(here.item).path()))),
        Field::Const(_, text) => Ok(Look::Lent(text.as_slice())),
        Field::Date(_, pattern) => date(alloc, plan, here.item, pattern.as_slice()),
        Field::Bool(_, set) => Ok(flag(*set)),
        Field::Teaser(_, name) => teaser_of(alloc, plan, told, here, name.as_slice(), asked),
        Field::List {
            key: _,
            of,
            snapshot,
            order,
            limit,
            context,
        } => Ok(Look::List(Listing {
            pattern: *of,
            snapshot: snapshot.as_slice(),
            order: *order,
            limit: *limit,
            context: *context,
        })),
    }
}

/// The body of the place's page.
fn body<'a>(alloc: Global, plan: &Plan, here: &'a Place) -> Result<Look<'a>, NoMemory>
    requires { here.now.item < length plan.now.items }
    ensures { IfOk result (λ r. (k : Pages) → run (spec.body_task (lookups plan.now) here.now) k ≡ record { log = []; end = look_end r }) }
{
    let page = here.page.get();
    if is_text(page) {
        Ok(Look::Lent(page.body.as_slice()))
    } else {
        Ok(Look::Fails(Fault::WrongKind {
            id: plan.id(here.item).copy(alloc)?,
        }))
    }
}

/// A text, where there is one.
fn lent(text: Option<&[u8]>) -> Look<'_>
    ensures { look_end result ≡ done (spec.text_if_any (option_map (λ t. t.now) text.entry)) }
{
    match text {
        Some(text) => Look::Lent(text),
        None => Look::Absent,
    }
}

/// The URL of a target, where there is one.
fn url<'a>(alloc: Global, target: Option<&[u8]>) -> Result<Look<'a>, NoMemory>
    ensures { IfOk result (λ r. look_end r ≡ done (spec.text_if_any (option_map url_by (option_map (λ t. t.now) target.entry)))) }
{
    match target {
        Some(target) => Ok(Look::Made(url_of(alloc, target)?)),
        None => Ok(Look::Absent),
    }
}

/// The date of an item by a pattern, where it has one. The pattern is one that `pattern_ok` accepts.
fn date<'a>(alloc: Global, plan: &Plan, item: ItemNo, pattern: &[u8]) -> Result<Look<'a>, NoMemory>
    requires item { item < length plan.now.items }
    requires pattern { pattern_ok pattern.now ≡ true }
    ensures { IfOk result (λ r. look_end r ≡ done (spec.text_if_any (option_map (spec.printed_by pattern.now) (spec.date_at (lookups plan.now) item)))) }
{
    match date_of(plan.meta(item), plan.id(item).path()) {
        Some(date) => Ok(Look::Made(format_date(alloc, &date, pattern)?)),
        None => Ok(Look::Absent),
    }
}

/// A flag, where it is set.
fn flag<'a>(set: bool) -> Look<'a>
    ensures { look_end result ≡ done (spec.flag_if set) }
{
    if set { Look::Flag } else { Look::Absent }
}

/// The teaser of the text that the place's item saves under a name.
fn teaser_of<'a>(
    alloc: Global,
    plan: &Plan,
    told: &'a Told,
    here: &Place,
    name: &[u8],
    asked: &mut Vec<PairNo>,
) -> Result<Look<'a>, NoMemory>
    requires plan { IsRenderable (lookups plan.now) (length plan.now.items) (length plan.now.contexts) (length plan.now.patterns) }
    requires item { here.now.item < length plan.now.items }
    ensures { IfOk result (λ r. RunsOn asked.old.items asked.new.items (run (spec.teaser_task (lookups plan.now) here.now name.now) (told_pages told.now)) (look_end r)) }
{
    match text_of_item(alloc, plan, told, here.item, name, asked)? {
        Reply::Page(page) => Ok(lent(teaser(page.get().body.as_slice()))),
        Reply::Asks(pair) => Ok(Look::Asks(pair)),
        Reply::Fails(fault) => Ok(Look::Fails(fault)),
    }
}
