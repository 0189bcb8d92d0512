// The inner compiler, once the record is broken.
ghost use Rattle.std.specs.Prelude.{◌≡◌, ◌<◌, ◌≤◌, [], None, nat_eq, false, length, IfOk, OnOk};
ghost use Rattle.std.specs.BTreeSet.{contains};
ghost use Rattle.std.specs.List.{AllByRecursion, IsDistinct};
ghost use Rattle.std.specs.Ordering.{nat_cmp};
ghost use Rattle.hk_replay.specs.Going.{InnerGoes, SameKnown, all_saves, tell_all};
ghost use Rattle.hk_eval.specs.Told.{told_pages};

use crate::kept::is_kept;
use hk_base::NoMemory;
use hk_chain::PairNo;
use hk_eval::Told;
use hk_fix::{Compiler, Polled, laws};
use std::alloc::Global;
use std::collections::BTreeSet;

/// Polls the inner compiler up to a page that wasn't saved yet, to pages that aren't told, or to its end.
pub(crate) fn go_inner<M: Compiler>(
    alloc: Global,
    kept: &BTreeSet<u32>,
    told: &Told,
    inner: &mut M,
) -> Result<Polled, NoMemory>
    requires valid { M.valid (M.meaning inner.old).common }
    requires item { (M.meaning inner.old).item < (M.shape (M.meaning inner.old).common).items }
    requires closed { (M.meaning inner.old).awaits ≡ [] }
    requires going { (M.meaning inner.old).has_ended ≡ false }
    requires few { (M.meaning inner.old).given ≤ length (all_saves M.run (told_pages told.now) (M.meaning inner.old)) }
    ensures goes { IfOk result (λ p. InnerGoes M.run (told_pages told.now) M.shape (contains nat_cmp kept.now) (M.meaning inner.old) p (M.meaning inner.new)) }
    ensures same { SameKnown (told_pages told.now) (M.meaning inner.old) (M.meaning inner.new) }
{
    laws::<M>();
    loop {
        match inner.poll(alloc)? {
            Polled::Saved(pair, page) => {
                if !is_kept(kept, pair) {
                    return Ok(Polled::Saved(pair, page));
                }
            }
            Polled::Ask => {
                tell(alloc, told, inner)?;
                if !inner.open_pairs().is_empty() {
                    return Ok(Polled::Ask);
                }
            }
            Polled::Done(page, facts) => return Ok(Polled::Done(page, facts)),
            Polled::Failed(fault) => return Ok(Polled::Failed(fault)),
        }
    }
}

/// Answers those of its open pairs that are told.
fn tell<M: Compiler>(alloc: Global, told: &Told, inner: &mut M) -> Result<(), NoMemory>
    requires distinct { IsDistinct nat_eq (M.meaning inner.old).awaits }
    requires untold { AllByRecursion (λ p. (M.meaning inner.old).told p ≡ None) (M.meaning inner.old).awaits }
    ensures told { OnOk result (M.meaning inner.new ≡ tell_all (told_pages told.now) (M.meaning inner.old) (M.meaning inner.old).awaits) }
    ensures same { SameKnown (told_pages told.now) (M.meaning inner.old) (M.meaning inner.new) }
{
    let open: Vec<PairNo> = Vec::from_slice(alloc, inner.open_pairs())?;
    for pair in open.as_slice() {
        match told.get(*pair) {
            Some(page) => {
                let page = page.try_clone()?;
                inner.answer(*pair, page);
            }
            None => {}
        }
    }
    Ok(())
}
