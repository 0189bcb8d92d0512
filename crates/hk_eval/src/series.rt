// One step of a list that is rendered.
ghost use Rattle.std.specs.Prelude.{◌≡◌, ◌<◌, ◌+◌, ◌∷◌, [], ◌++◌, length, drop, OnOk};
ghost use Rattle.hk_base.specs.Bytes.{Bytes};
ghost use Rattle.hk_fix.specs.Task.{◌▷◌};
ghost use Rattle.hk_rules.specs.Plan.{Lookups};
ghost use Rattle.hk_rules.specs.PlanView.{PlanView};
ghost use Rattle.hk_eval.specs.Rest.{rest, onto, frame_rest, each_of};
ghost use Rattle.hk_eval.specs.declared.place.Place.{Place};
ghost use Rattle.hk_eval.specs.Within.{IsFrameOf, AreFramesOf};

use crate::frame::{Frame, Places, Repeat, Stage};
use crate::making::entered;
use hk_base::{NoMemory, Text};
use std::alloc::Global;

/// The next place of a list, or what stands before it.
pub(crate) fn series_step(
    alloc: Global,
    frames: &mut Vec<Frame>,
    out: &mut Vec<u8>,
    places: Places,
    stage: Stage,
    repeat: Repeat,
) -> Result<(), NoMemory>
    ensures same { OnOk result ((plan : Lookups) → rest plan (frames.old.items ++ Frame.List places stage repeat ∷ []) out.old.items ≡ rest plan frames.new.items out.new.items) }
    ensures within { OnOk result ((plan : PlanView) → IsFrameOf plan (Frame.List places stage repeat) → AreFramesOf plan frames.old.items → AreFramesOf plan frames.new.items) }
{
    if places.next >= places.places.len() {
        return Ok(());
    }
    match stage {
        Stage::First => place_step(frames, places, Stage::Second, repeat)?,
        Stage::Second => sep_step(frames, out, places, repeat)?,
        Stage::Third(start) => {
            let between = Text::from_slice(alloc, tail(out, start))?;
            place_step(frames, places, Stage::Later(between), repeat)?;
        }
        Stage::Later(between) => {
            out.extend_from_slice(between.as_slice())?;
            place_step(frames, places, Stage::Later(between), repeat)?;
        }
    }
    Ok(())
}

/// The end of a text, from a byte on.
fn tail(out: &Vec<u8>, start: usize) -> &[u8]
    ensures { result.now ≡ drop start out.now.items }
{
    match out.as_slice().get(start..) {
        Some(bytes) => bytes,
        None => b"",
    }
}

/// The place that comes next, before the rest of its list.
fn place_step(
    frames: &mut Vec<Frame>,
    places: Places,
    stage: Stage,
    repeat: Repeat,
) -> Result<(), NoMemory>
    requires { places.next < length places.places.items }
    ensures same { OnOk result ((p : Place) × (drop places.next places.places.items ≡ p ∷ drop (places.next + 1) places.places.items)
        × ((plan : Lookups) (out : Bytes) → rest plan frames.new.items out ≡ onto out (each_of plan repeat p) ▷ (λ x. frame_rest plan (Frame.List (record places { next = places.next + 1 }) stage repeat) x ▷ rest plan frames.old.items))) }
    ensures within { OnOk result ((plan : PlanView) → IsFrameOf plan (Frame.List places stage repeat) → AreFramesOf plan frames.old.items → AreFramesOf plan frames.new.items) }
{
    let place = entered(&repeat.each, repeat.left, &places.places[places.next])?;
    let places = Places {
        places: places.places,
        next: places.next + 1,
    };
    frames.push(Frame::List(places, stage, repeat))?;
    frames.push(place)?;
    Ok(())
}

/// What stands between two places, after the first.
fn sep_step(
    frames: &mut Vec<Frame>,
    out: &Vec<u8>,
    places: Places,
    repeat: Repeat,
) -> Result<(), NoMemory>
    requires { places.next < length places.places.items }
    ensures same { OnOk result ((plan : Lookups) → rest plan (frames.old.items ++ Frame.List places Stage.Second repeat ∷ []) out.now.items ≡ rest plan frames.new.items out.now.items) }
    ensures within { OnOk result ((plan : PlanView) → IsFrameOf plan (Frame.List places Stage.Second repeat) → AreFramesOf plan frames.old.items → AreFramesOf plan frames.new.items) }
{
    let between = entered(&repeat.sep, repeat.left, &repeat.here)?;
    let stage = Stage::Third(out.len());
    frames.push(Frame::List(places, stage, repeat))?;
    frames.push(between)?;
    Ok(())
}
