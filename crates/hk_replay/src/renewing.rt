// Which items are out of date once a build has ended.
ghost use Rattle.std.specs.Prelude.{◌≡◌, ◌∷◌, [], option_copied, IfOk};
ghost use Rattle.hk_chain.specs.Kept.{at_place};
ghost use Rattle.hk_fix.specs.Pages.{all_pages};
ghost use Rattle.hk_replay.specs.Renewing.{agree, is_passed, is_kept, others_below};

use crate::hashing::PageDigests;
use crate::record::{Record, Records, Step};
use crate::way::record_of;
use hk_base::NoMemory;
use hk_chain::{ItemNo, PageRef, PairNo};
use std::alloc::Global;

/// The items below a number whose record isn't there, or doesn't go through under the pages that are known in the end.
pub(crate) fn others_of(
    alloc: Global,
    records: &Records,
    pages: &[Option<PageRef>],
    count: u32,
) -> Result<Vec<ItemNo>, NoMemory>
    ensures { IfOk result (λ v. v.items ≡ others_below (at_place pages.now) records.now count) }
{
    let mut others = Vec::new(alloc);
    for number in 0..count {
        let has_kept = goes_through(
            alloc,
            &records.digests,
            record_of(records, ItemNo(number)),
            pages,
        )?;
        if !has_kept {
            others.push(ItemNo(number))?;
        }
    }
    Ok(others)
}

/// Whether there is a record, and it goes through.
fn goes_through(
    alloc: Global,
    known: &PageDigests,
    recorded: Option<&Record>,
    pages: &[Option<PageRef>],
) -> Result<bool, NoMemory>
    ensures { IfOk result (λ b. b ≡ is_kept (at_place pages.now) (option_copied recorded.entry)) }
{
    match recorded {
        Some(recorded) => are_passed(alloc, known, &recorded.steps, pages),
        None => Ok(false),
    }
}

/// Whether the pages of all groups are known and have the recorded digests.
fn are_passed(
    alloc: Global,
    known: &PageDigests,
    steps: &[Step],
    pages: &[Option<PageRef>],
) -> Result<bool, NoMemory>
    ensures { IfOk result (λ b. b ≡ is_passed (at_place pages.now) steps.now) }
{
    for step in steps {
        let is_same = step_passes(alloc, known, step, pages)?;
        if !is_same {
            return Ok(false);
        }
    }
    Ok(true)
}

fn step_passes(
    alloc: Global,
    known: &PageDigests,
    step: &Step,
    pages: &[Option<PageRef>],
) -> Result<bool, NoMemory>
    ensures { IfOk result (λ b. b ≡ is_passed (at_place pages.now) (step.now ∷ [])) }
{
    match step {
        Step::Asked(pairs, digests) => group_agrees(alloc, known, pairs, digests, pages),
        Step::Saved(_, _) => Ok(true),
    }
}

/// Whether the pages of a group are known and have these digests.
fn group_agrees(
    alloc: Global,
    known: &PageDigests,
    pairs: &[PairNo],
    digests: &[[u8; 32]],
    pages: &[Option<PageRef>],
) -> Result<bool, NoMemory>
    ensures { IfOk result (λ b. b ≡ agree (all_pages (at_place pages.now) pairs.now) digests.now) }
{
    for i in 0..pairs.len() {
        if i >= digests.len() {
            return Ok(false);
        }
        let is_same = page_agrees(alloc, known, pairs[i], &digests[i], pages)?;
        if !is_same {
            return Ok(false);
        }
    }
    Ok(pairs.len() == digests.len())
}

/// Whether the page of a pair is known and has this digest.
fn page_agrees(
    alloc: Global,
    known: &PageDigests,
    pair: PairNo,
    wanted: &[u8; 32],
    pages: &[Option<PageRef>],
) -> Result<bool, NoMemory>
    ensures { IfOk result (λ b. b ≡ agree (all_pages (at_place pages.now) (pair ∷ [])) (wanted.now ∷ [])) }
{
    match pages.get(pair.0 as usize) {
        Some(Some(page)) => {
            let now = known.digest(alloc, pair, page)?;
            Ok(now.as_slice() == wanted.as_slice())
        }
        _ => Ok(false),
    }
}
