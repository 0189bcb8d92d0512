// What a build gives.
ghost use Rattle.std.specs.Prelude.{◌≡◌, IfOk};
ghost use Rattle.std.specs.Option.{option_copied};
ghost use Rattle.hk_chain.specs.Kept.{at_place};
ghost use Rattle.hk_fix.specs.Report.{ending_at};
ghost use Rattle.hk_reuse.specs.Entries.{Entries};
ghost use Rattle.hk_reuse.specs.Image.{entry_list};
ghost use Rattle.hk_replay.specs.Known.{IsKnown};
ghost use Rattle.hk_replay.specs.PlanItems.{items_of};
ghost use Rattle.hk_replay.specs.Storing.{CanStore};
ghost use Rattle.hk_store.specs.Stored.{IsStored};
ghost use Rattle.hk_store.specs.StoreText.{sealed, store_text};
ghost use Rattle.hk_store.specs.Traits.{sha_digests};
ghost use Rattle.hk_build.specs.Ended.{AreBytesOf, IsBuild, IsReplayed, HasReplayed};

use hk_base::{NoMemory, Text};
use hk_chain::ItemNo;
use hk_fix::Results;
use hk_machine::PlanMaker;
use hk_replay::ReplayMaker;
use hk_rules::Plan;
use hk_store::{Stored, print_store};
use std::alloc::Global;

/// What a build of a plan over stored entries gives: the results of its items, the items that were compiled, in order, and
/// the bytes of the store that it leaves.
#[derive(Drop)]
pub struct Build {
    pub results: Results,
    pub compiled: Vec<ItemNo>,
    pub store: Text,
}

/// What a build gives whose compilers have all ended, and which began with a store of these entries and bytes.
pub(crate) fn ended(
    alloc: Global,
    plan: &Plan,
    maker: &ReplayMaker<PlanMaker>,
    results: Results,
    stored: &Stored,
    bytes: Option<&[u8]>,
) -> Result<Build, NoMemory>
    requires known { IsKnown plan.now maker.now.known }
    requires replayed { HasReplayed plan.now maker.now.records results }
    requires bytes { AreBytesOf stored.now (option_copied bytes) }
    ensures { IfOk result (λ b. (entries : Entries) → IsReplayed plan.now entries maker.now.records results → IsBuild plan.now entries b) }
{
    let compiled = maker.out_of_date(alloc, plan, &results)?;
    let store = bytes_left(alloc, plan, maker, &results, stored, bytes)?;
    Ok(Build {
        results,
        compiled,
        store,
    })
}

/// The bytes of the store that a build leaves. Where it leaves the entries with which it began, these are the bytes that
/// were there, and no entry is made, printed or hashed.
fn bytes_left(
    alloc: Global,
    plan: &Plan,
    maker: &ReplayMaker<PlanMaker>,
    results: &Results,
    stored: &Stored,
    bytes: Option<&[u8]>,
) -> Result<Text, NoMemory>
    requires known { IsKnown plan.now maker.now.known }
    requires results { CanStore plan.now results.now }
    requires left { IsStored (entry_list sha_digests (items_of plan.now) (ending_at results.now.outcomes) (at_place results.now.pages)) }
    requires bytes { AreBytesOf stored.now (option_copied bytes) }
    ensures { IfOk result (λ t. t ≡ sealed (store_text (entry_list sha_digests (items_of plan.now) (ending_at results.now.outcomes) (at_place results.now.pages)))) }
{
    if let Some(bytes) = bytes {
        let leaves_same = maker.leaves(alloc, plan, results, stored)?;
        if leaves_same {
            return Text::from_slice(alloc, bytes);
        }
    }
    let left = maker.make_stored(alloc, plan, results)?;
    print_store(alloc, &left)
}
