// A rendering under way.
ghost use Rattle.std.specs.Prelude.{◌≡◌, [], ◌∷◌, IfOk};
ghost use Rattle.hk_rules.specs.Plan.{Lookups, lookups};
ghost use Rattle.hk_rules.specs.PlanView.{PlanView};
ghost use Rattle.hk_template.specs.Template.{IsPrintable};
ghost use Rattle.hk_eval.specs.Blocks.{block_nodes};
ghost use Rattle.hk_eval.specs.Going.{Stops};
ghost use Rattle.hk_eval.specs.Left.{left_of, IsStackOf};
ghost use Rattle.hk_eval.specs.Rendering.{render};
ghost use Rattle.hk_eval.specs.Rest.{rest};
ghost use Rattle.hk_eval.specs.Told.{told_pages};
ghost use Rattle.hk_eval.specs.Within.{Renders, IsPlaceOf, AreFramesOf};

use crate::block::Block;
use crate::frame::Frame;
use crate::making::whole;
use crate::moves::{Act, Stop};
use crate::notes::Notes;
use crate::place::Place;
use crate::step::step;
use crate::told::Told;
use hk_base::{NoMemory, Text};
use hk_rules::Plan;
use std::alloc::Global;
use std::mem;

/// How many levels of templates may stand below a template that is rendered.
const LEVELS: u32 = 32;

/// A rendering under way: what is left to do, and the text so far.
#[derive(Drop)]
pub struct Stack {
    pub(crate) frames: Vec<Frame>,
    pub(crate) out: Vec<u8>,
}

impl Stack {
    /// No rendering. Constant.
    pub fn none(alloc: Global) -> Stack
        ensures { (plan : PlanView) → IsStackOf plan result }
    {
        Stack {
            frames: Vec::new(alloc),
            out: Vec::new(alloc),
        }
    }

    /// The rendering of a template's nodes at a place, which hasn't begun. `NoMemory` only for want of memory. Constant.
    pub fn new(alloc: Global, block: Block, here: Place) -> Result<Stack, NoMemory>
        requires { IsPrintable (block_nodes block) }
        ensures left { IfOk result (λ s. (plan : Lookups) → left_of plan s ≡ render plan (block_nodes block) here) }
        ensures within { IfOk result (λ s. (plan : PlanView) → IsPlaceOf plan here → IsStackOf plan s) }
    {
        let mut frames = Vec::new(alloc);
        frames.push(whole(block, LEVELS, here))?;
        Ok(Stack {
            frames,
            out: Vec::new(alloc),
        })
    }

    /// Goes on to its text, to the pages that it wants, or to a fault, under the told pages. Where it wants pages, it goes on
    /// from there. After a text or a fault nothing is left. After `NoMemory`, only for want of memory, it may only be
    /// dropped; 2^64 - 1 steps without a stop count as that. Linear in the work up to there: of what an earlier call did,
    /// only what had to wait is done again.
    pub fn advance(
        &mut self,
        alloc: Global,
        plan: &Plan,
        told: &Told,
        notes: &mut Notes,
    ) -> Result<Stop, NoMemory>
        requires plan { Renders plan.now }
        requires stack { IsStackOf plan.now self.old }
        ensures stops { IfOk result (λ s. Stops (told_pages told.now) (left_of (lookups plan.now) self.old) notes.old s (left_of (lookups plan.now) self.new) notes.new) }
        ensures within { IfOk result (λ _. IsStackOf plan.now self.new) }
    {
        let stop = advance(alloc, plan, told, notes, &mut self.frames, &mut self.out)?;
        Ok(stop)
    }
}

/// Steps up to a stop.
fn advance(
    alloc: Global,
    plan: &Plan,
    told: &Told,
    notes: &mut Notes,
    frames: &mut Vec<Frame>,
    out: &mut Vec<u8>,
) -> Result<Stop, NoMemory>
    requires plan { Renders plan.now }
    requires frames { AreFramesOf plan.now frames.old.items }
    ensures stops { IfOk result (λ s. Stops (told_pages told.now) (rest (lookups plan.now) frames.old.items out.old.items) notes.old s (rest (lookups plan.now) frames.new.items out.new.items) notes.new) }
    ensures within { IfOk result (λ _. AreFramesOf plan.now frames.new.items) }
{
    for _turn in 0..u64::MAX {
        match step(alloc, plan, told, notes, frames, out)? {
            Act::Goes => {}
            Act::Asks(pairs) => return Ok(Stop::Asks(pairs)),
            Act::Done => {
                let text = mem::replace(out, Vec::new(alloc));
                return Ok(Stop::Text(Text::from_vec(text)));
            }
            Act::Fails(fault) => return Ok(Stop::Fails(fault)),
        }
    }
    Err(NoMemory)
}
