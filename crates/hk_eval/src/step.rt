// One step of a stack of frames.
ghost use Rattle.std.specs.Prelude.{◌≡◌, ◌∷◌, [], ◌++◌, ℕ, List, drop, IfOk, OnOk};
ghost use Rattle.hk_base.specs.Bytes.{Bytes};
ghost use Rattle.hk_fix.specs.Task.{◌▷◌};
ghost use Rattle.hk_rules.specs.Plan.{Lookups, lookups};
ghost use Rattle.hk_eval.specs.Going.{Steps};
ghost use Rattle.hk_eval.specs.Rest.{rest};
ghost use Rattle.hk_eval.specs.Told.{told_pages};
ghost use Rattle.hk_eval.specs.Within.{Renders, IsFrameOf, AreFramesOf, IsWantedOf, IsRepeatOf};

use crate::frame::{Frame, Places, Repeat, Section, Stage, Wanted};
use crate::list::list_of;
use crate::listed::Listed;
use crate::making::{listing, next};
use crate::moves::{Act, Move};
use crate::node::node_move;
use crate::notes::Notes;
use crate::series::series_step;
use crate::told::Told;
use hk_base::NoMemory;
use hk_rules::Plan;
use std::alloc::Global;

/// One step of the frame that stands last.
pub(crate) fn step(
    alloc: Global,
    plan: &Plan,
    told: &Told,
    notes: &mut Notes,
    frames: &mut Vec<Frame>,
    out: &mut Vec<u8>,
) -> Result<Act, NoMemory>
    requires plan { Renders plan.now }
    requires frames { AreFramesOf plan.now frames.old.items }
    ensures steps { IfOk result (λ s. Steps (told_pages told.now) (rest (lookups plan.now) frames.old.items out.old.items) notes.old s (rest (lookups plan.now) frames.new.items out.new.items) notes.new out.new.items) }
    ensures within { IfOk result (λ _. AreFramesOf plan.now frames.new.items) }
{
    match frames.pop() {
        None => Ok(Act::Done),
        Some(Frame::Nodes(section)) => {
            let step = nodes_step(alloc, plan, told, notes, frames, out, section)?;
            Ok(step)
        }
        Some(Frame::Make(wanted, repeat)) => {
            let step = make_step(alloc, plan, told, notes, frames, wanted, repeat)?;
            Ok(step)
        }
        Some(Frame::List(places, stage, repeat)) => {
            series_step(alloc, frames, out, places, stage, repeat)?;
            Ok(Act::Goes)
        }
    }
}

/// The next node of a block.
fn nodes_step(
    alloc: Global,
    plan: &Plan,
    told: &Told,
    notes: &mut Notes,
    frames: &mut Vec<Frame>,
    out: &mut Vec<u8>,
    section: Section,
) -> Result<Act, NoMemory>
    requires plan { Renders plan.now }
    requires frame { IsFrameOf plan.now (Frame.Nodes section) }
    requires frames { AreFramesOf plan.now frames.old.items }
    ensures steps { IfOk result (λ s. Steps (told_pages told.now) (rest (lookups plan.now) (frames.old.items ++ Frame.Nodes section ∷ []) out.old.items) notes.old s (rest (lookups plan.now) frames.new.items out.new.items) notes.new out.new.items) }
    ensures within { IfOk result (λ _. AreFramesOf plan.now frames.new.items) }
{
    let left = section.left;
    let moved = match section.block.part(section.at) {
        None => return Ok(Act::Goes),
        Some(part) => node_move(alloc, plan, told, notes, out, part, left, &section.here)?,
    };
    match moved {
        Move::Wrote => {
            frames.push(next(section))?;
            Ok(Act::Goes)
        }
        Move::Push(frame) => {
            frames.push(next(section))?;
            frames.push(frame)?;
            Ok(Act::Goes)
        }
        Move::Asks(pairs) => {
            frames.push(Frame::Nodes(section))?;
            Ok(Act::Asks(pairs))
        }
        Move::Fails(fault) => Ok(Act::Fails(fault)),
    }
}

/// The places of a list.
fn make_step(
    alloc: Global,
    plan: &Plan,
    told: &Told,
    notes: &mut Notes,
    frames: &mut Vec<Frame>,
    wanted: Wanted,
    repeat: Repeat,
) -> Result<Act, NoMemory>
    requires plan { Renders plan.now }
    requires frame { IsFrameOf plan.now (Frame.Make wanted repeat) }
    requires frames { AreFramesOf plan.now frames.old.items }
    ensures steps { IfOk result (λ s. (out : Bytes) → Steps (told_pages told.now) (rest (lookups plan.now) (frames.old.items ++ Frame.Make wanted repeat ∷ []) out) notes.old s (rest (lookups plan.now) frames.new.items out) notes.new out) }
    ensures within { IfOk result (λ _. AreFramesOf plan.now frames.new.items) }
{
    let found = list_of(alloc, plan, told, &listing(&wanted), notes)?;
    match found {
        Listed::Places(places) => {
            let places = Places { places, next: 0 };
            frames.push(Frame::List(places, Stage::First, repeat))?;
            Ok(Act::Goes)
        }
        Listed::Asks(pairs) => {
            frames.push(Frame::Make(wanted, repeat))?;
            Ok(Act::Asks(pairs))
        }
        Listed::Fails(fault) => Ok(Act::Fails(fault)),
    }
}
