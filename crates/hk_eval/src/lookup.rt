// The value of a key at a place.
ghost use Rattle.std.specs.Prelude.{◌≡◌, ◌<◌, length, IfOk, OnOk};
ghost use Rattle.hk_fix.specs.Task.{run};
ghost use Rattle.hk_rules.specs.Plan.{lookups};
ghost use Rattle.hk_eval.specs.Fields as spec;
ghost use Rattle.hk_eval.specs.Noted.{noted};
ghost use Rattle.hk_eval.specs.Renderable.{IsRenderable, IsRenderableField};
ghost use Rattle.hk_eval.specs.Replies.{look_end, singles, RunsOn, Comes, IsListingWithin, IsPlaceWithin};
ghost use Rattle.hk_eval.specs.Told.{told_pages};

use crate::field::{fits, own_value};
use crate::look::Look;
use crate::notes::Notes;
use crate::place::Place;
use crate::told::Told;
use hk_base::NoMemory;
use hk_chain::{Field, PairNo};
use hk_rules::Plan;
use std::alloc::Global;

/// The value of a key: that of the first field of the place's context that has one. Where a page is wanted that isn't told,
/// nothing is noted, and else the pairs that were asked for are. After `NoMemory` nothing is said of the notes. Linear in
/// the context's fields, and for each teaser that is looked at logarithmic in the told pages; texts are lent where they
/// stand in the plan or in a page.
pub fn look_up<'a>(
    alloc: Global,
    plan: &'a Plan,
    told: &'a Told,
    here: &'a Place,
    key: &[u8],
    notes: &mut Notes,
) -> Result<Look<'a>, NoMemory>
    requires plan { IsRenderable (lookups plan.now) (length plan.now.items) (length plan.now.contexts) (length plan.now.patterns) }
    requires here { IsPlaceWithin (length plan.now.items) (length plan.now.contexts) here.now }
    ensures comes { IfOk result (λ r. Comes (told_pages told.now) (spec.field_task (lookups plan.now) here.now key.now) notes.old (look_end r) notes.new) }
    ensures within { IfOk result (λ r. IsListingWithin (length plan.now.contexts) (length plan.now.patterns) r) }
{
    let mut asked = Vec::new(alloc);
    let look = first_value(alloc, plan, told, here, key, &mut asked)?;
    if !matches!(look, Look::Asks(_)) {
        note_all(alloc, notes, &asked)?;
    }
    Ok(look)
}

/// What the first field that has a value has for a key. The pairs that are asked for are added to `asked`.
fn first_value<'a>(
    alloc: Global,
    plan: &'a Plan,
    told: &'a Told,
    here: &'a Place,
    key: &[u8],
    asked: &mut Vec<PairNo>,
) -> Result<Look<'a>, NoMemory>
    requires plan { IsRenderable (lookups plan.now) (length plan.now.items) (length plan.now.contexts) (length plan.now.patterns) }
    requires here { IsPlaceWithin (length plan.now.items) (length plan.now.contexts) here.now }
    ensures { IfOk result (λ r. RunsOn asked.old.items asked.new.items (run (spec.field_task (lookups plan.now) here.now key.now) (told_pages told.now)) (look_end r)) }
{
    for field in &plan.context(here.context).fields {
        match value(alloc, plan, told, here, key, field, asked)? {
            Look::Absent => {}
            found => return Ok(found),
        }
    }
    Ok(Look::Absent)
}

/// What one field has for a key.
fn value<'a>(
    alloc: Global,
    plan: &'a Plan,
    told: &'a Told,
    here: &'a Place,
    key: &[u8],
    field: &'a Field,
    asked: &mut Vec<PairNo>,
) -> Result<Look<'a>, NoMemory>
    requires plan { IsRenderable (lookups plan.now) (length plan.now.items) (length plan.now.contexts) (length plan.now.patterns) }
    requires item { here.now.item < length plan.now.items }
    requires field { IsRenderableField (length plan.now.contexts) (length plan.now.patterns) field.now }
    ensures { IfOk result (λ r. RunsOn asked.old.items asked.new.items (run (spec.value_task (lookups plan.now) here.now key.now field.now) (told_pages told.now)) (look_end r)) }
{
    if fits(field, key) {
        own_value(alloc, plan, told, here, key, field, asked)
    } else {
        Ok(Look::Absent)
    }
}

/// Notes pairs that were asked for one after another.
fn note_all(alloc: Global, notes: &mut Notes, pairs: &[PairNo]) -> Result<(), NoMemory>
    ensures { OnOk result (notes.new ≡ noted notes.old (singles pairs.now)) }
{
    for pair in pairs {
        notes.note_group(alloc, &[*pair])?;
    }
    Ok(())
}
