// Makes frames.
ghost use Rattle.std.specs.Prelude.{◌≡◌, ◌+◌, ◌^◌, ◌<◌, IfOk, option_map};
ghost use Rattle.hk_base.specs.Bytes.{Bytes};
ghost use Rattle.hk_rules.specs.Plan.{Lookups};
ghost use Rattle.hk_rules.specs.PlanView.{PlanView};
ghost use Rattle.hk_eval.specs.Blocks.{block_nodes, nodes_or_none};
ghost use Rattle.hk_eval.specs.Rendering.{nodes_task, partial_at};
ghost use Rattle.hk_eval.specs.Replies.{listing_of};
ghost use Rattle.hk_eval.specs.Rest.{onto, frame_rest, wanted_list};
ghost use Rattle.hk_eval.specs.Within.{NameTemplates, IsPlaceOf, IsFrameOf};
ghost use Rattle.hk_eval.specs.Making.{Repeats};

use crate::block::Block;
use crate::frame::{Frame, Repeat, Section, Wanted};
use crate::look::Listing;
use crate::place::Place;
use hk_base::{NoMemory, Text};
use std::alloc::Global;

/// The nodes of a block at a place.
pub(crate) fn whole(block: Block, left: u32, here: Place) -> Frame
    ensures rest { (plan : Lookups) (out : Bytes) → frame_rest plan result out ≡ onto out (nodes_task plan (partial_at plan left) (block_nodes block) here) }
    ensures within { (plan : PlanView) → NameTemplates (block_nodes block) → IsPlaceOf plan here → IsFrameOf plan result }
{
    Frame::Nodes(Section {
        block,
        at: 0,
        left,
        here,
    })
}

/// The nodes of a block that has one more owner.
pub(crate) fn entered(block: &Block, left: u32, here: &Place) -> Result<Frame, NoMemory>
    ensures rest { IfOk result (λ f. (plan : Lookups) (out : Bytes) → frame_rest plan f out ≡ onto out (nodes_task plan (partial_at plan left) (block_nodes block.now) here.now)) }
    ensures within { IfOk result (λ f. (plan : PlanView) → NameTemplates (block_nodes block.now) → IsPlaceOf plan here.now → IsFrameOf plan f) }
{
    let block = block.try_clone()?;
    let here = here.try_clone()?;
    Ok(whole(block, left, here))
}

/// One more owner of a block, or one without nodes where there is none.
pub(crate) fn owned(alloc: Global, block: &Option<Block>) -> Result<Block, NoMemory>
    ensures { IfOk result (λ b. block_nodes b ≡ nodes_or_none (option_map block_nodes block.now)) }
{
    match block {
        Some(block) => block.try_clone(),
        None => Block::new(alloc, Vec::new(alloc)),
    }
}

/// What is rendered at each place of a list, and between two.
pub(crate) fn repeat(
    alloc: Global,
    each: &Block,
    sep: &Option<Block>,
    left: u32,
    here: &Place,
) -> Result<Repeat, NoMemory>
    ensures { IfOk result (λ r. Repeats r (block_nodes each.now) (nodes_or_none (option_map block_nodes sep.now)) left here.now) }
{
    Ok(Repeat {
        each: each.try_clone()?,
        sep: owned(alloc, sep)?,
        left,
        here: here.try_clone()?,
    })
}

/// A list that is to be made, with a copy of its name.
pub(crate) fn wanted(alloc: Global, listing: &Listing<'_>) -> Result<Wanted, NoMemory>
    ensures { IfOk result (λ w. wanted_list w ≡ listing_of listing.now) }
{
    Ok(Wanted {
        pattern: listing.pattern,
        snapshot: Text::from_slice(alloc, listing.snapshot)?,
        order: listing.order,
        limit: listing.limit,
        context: listing.context,
    })
}

/// The list, with its name lent.
pub(crate) fn listing(wanted: &Wanted) -> Listing<'_>
    ensures { listing_of result ≡ wanted_list wanted.now }
{
    Listing {
        pattern: wanted.pattern,
        snapshot: wanted.snapshot.as_slice(),
        order: wanted.order,
        limit: wanted.limit,
        context: wanted.context,
    }
}

/// The same nodes from the next one on.
pub(crate) fn next(section: Section) -> Frame
    requires { section.at + 1 < 2 ^ 64 }
    ensures { result ≡ Frame.Nodes (record section { at = section.at + 1 }) }
{
    Frame::Nodes(Section {
        block: section.block,
        at: section.at + 1,
        left: section.left,
        here: section.here,
    })
}
