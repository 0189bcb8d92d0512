// Pieces that the texts are made of.
ghost use Rattle.std.specs.Prelude.{◌≡◌, ◌++◌, ◌<◌, OnOk, length};
ghost use Rattle.hk_chain.specs.Layout.{pairs};
ghost use Rattle.hk_rules.specs.Pairs.{layout};
ghost use Rattle.hk_rules.specs.Plan.{lookups};
ghost use Rattle.hk_texts.specs.ReportText as spec;

use hk_base::NoMemory;
use hk_chain::{ItemNo, PairNo};
use hk_rules::Plan;
use std::alloc::Global;

/// The printed identifier of an item.
pub fn write_item(
    alloc: Global,
    out: &mut Vec<u8>,
    plan: &Plan,
    item: ItemNo,
) -> Result<(), NoMemory>
    requires { item < length plan.now.items }
    ensures { OnOk result (out.new.items ≡ out.old.items ++ spec.item_text (lookups plan.now) item) }
{
    let printed = plan.id(item).print(alloc)?;
    append(out, printed.as_slice())
}

/// A pair: its item, and the name of its page.
#[tactic(auto, unfolding(hk_rules::specs::Plan::lookups))]
pub fn write_pair(
    alloc: Global,
    out: &mut Vec<u8>,
    plan: &Plan,
    pair: PairNo,
) -> Result<(), NoMemory>
    requires { pair < pairs (layout plan.now.items) }
    ensures { OnOk result (out.new.items ≡ out.old.items ++ spec.pair_text (lookups plan.now) pair) }
{
    let item = plan.layout().get().item_of(pair);
    write_item(alloc, out, plan, item)?;
    append_two(out, b" at ", plan.pair_name(pair))
}

pub fn append_two(out: &mut Vec<u8>, front: &[u8], back: &[u8]) -> Result<(), NoMemory>
    ensures { OnOk result (out.new.items ≡ out.old.items ++ (front.now ++ back.now)) }
{
    append(out, front)?;
    append(out, back)
}

pub fn append(out: &mut Vec<u8>, bytes: &[u8]) -> Result<(), NoMemory>
    ensures { OnOk result (out.new.items ≡ out.old.items ++ bytes.now) }
{
    out.extend_from_slice(bytes)?;
    Ok(())
}
