// The pairs whose pages a replay gave before its break.
ghost use Rattle.std.specs.Prelude.{◌≡◌, ◌||◌, ℕ, [], nat_eq, IfOk, OnOk};
ghost use Rattle.std.specs.BTreeSet.{contains};
ghost use Rattle.std.specs.Ordering.{nat_cmp};
ghost use Rattle.hk_fix.specs.Facts.{is_in};
ghost use Rattle.hk_replay.specs.Replays.{kept_by};

use crate::record::Step;
use hk_base::NoMemory;
use hk_chain::PairNo;
use std::alloc::Global;
use std::collections::BTreeSet;

/// No pair. Constant.
pub(crate) fn none_kept(alloc: Global) -> BTreeSet<u32>
    ensures { contains nat_cmp result ≡ is_in [] }
{
    BTreeSet::new(alloc)
}

/// The pairs whose pages some steps save. `NoMemory` only for want of memory. Logarithmic for each.
pub(crate) fn kept_of(alloc: Global, steps: &[Step]) -> Result<BTreeSet<u32>, NoMemory>
    ensures { IfOk result (λ s. contains nat_cmp s ≡ is_in (kept_by [] steps.now)) }
{
    let mut kept = BTreeSet::new(alloc);
    for step in steps {
        match step {
            Step::Saved(pair, _) => keep(&mut kept, *pair)?,
            Step::Asked(_, _) => {}
        }
    }
    Ok(kept)
}

/// One more pair.
fn keep(kept: &mut BTreeSet<u32>, pair: PairNo) -> Result<(), NoMemory>
    ensures { OnOk result ((q : ℕ) → contains nat_cmp kept.new q ≡ (nat_eq q pair || contains nat_cmp kept.old q)) }
{
    let _is_new = kept.insert(pair.0)?;
    Ok(())
}

/// Whether a pair is one of these. Logarithmic.
pub(crate) fn is_kept(kept: &BTreeSet<u32>, pair: PairNo) -> bool
    ensures { result ≡ contains nat_cmp kept.now pair }
{
    kept.contains(&pair.0)
}
