// What comes next in a record.
ghost use Rattle.std.specs.Prelude.{◌≡◌, ◌≤◌, [], true, length, map, take, is_some, bytes_eq, IfOk};
ghost use Rattle.hk_fix.specs.Run.{saves_of};
ghost use Rattle.hk_replay.specs.Finding.{Finds, told_page};
ghost use Rattle.hk_replay.specs.Replays.{digest, same_pages, passed, kept_by, Passes};
ghost use Rattle.hk_eval.specs.Told.{told_pages, AllTold};

use crate::hashing::PageDigests;
use crate::record::Step;
use hk_base::NoMemory;
use hk_chain::{PageRef, PairNo};
use hk_eval::{Told, lacking};
use std::alloc::Global;

/// What comes next in a record.
#[derive(Drop)]
pub(crate) enum Found {
    /// A page that is saved.
    Saves(PairNo, PageRef),
    /// Pages that aren't told.
    Asks(Vec<PairNo>),
    /// A told page with another digest.
    Breaks,
    /// The end.
    Through,
}

/// Passes over the groups whose pages are told and have the recorded digests.
pub(crate) fn look(
    alloc: Global,
    known: &PageDigests,
    steps: &[Step],
    told: &Told,
    at: &mut usize,
) -> Result<Found, NoMemory>
    requires within { at.old ≤ length steps.now }
    requires passes { Passes (told_pages told.now) (take at.old steps.now) }
    ensures found { IfOk result (λ f. Finds (told_pages told.now) steps.now at.new f) }
    ensures quiet { IfOk result (λ f. saves_of (passed (take at.new steps.now)) ≡ saves_of (passed (take at.old steps.now))) }
    ensures kept { IfOk result (λ f. kept_by [] (take at.new steps.now) ≡ kept_by [] (take at.old steps.now)) }
{
    while *at < steps.len() {
        match &steps[*at] {
            Step::Saved(pair, page) => {
                let page = page.try_clone()?;
                return Ok(Found::Saves(*pair, page));
            }
            Step::Asked(pairs, digests) => {
                let lacks = lacking(alloc, told, pairs.as_slice())?;
                if !lacks.is_empty() {
                    return Ok(Found::Asks(lacks));
                }
                let is_same = are_same(alloc, known, told, pairs.as_slice(), digests.as_slice())?;
                if !is_same {
                    return Ok(Found::Breaks);
                }
                *at += 1;
            }
        }
    }
    Ok(Found::Through)
}

/// Whether the told pages of some pairs have these digests. `NoMemory` only for want of memory.
fn are_same(
    alloc: Global,
    known: &PageDigests,
    told: &Told,
    pairs: &[PairNo],
    digests: &[[u8; 32]],
) -> Result<bool, NoMemory>
    requires { AllTold (told_pages told.now) pairs.now }
    ensures { IfOk result (λ b. b ≡ same_pages (map (told_page (told_pages told.now)) pairs.now) digests.now) }
{
    for i in 0..pairs.len() {
        if i >= digests.len() {
            return Ok(false);
        }
        let is_same = has_digest(alloc, known, told, pairs[i], &digests[i])?;
        if !is_same {
            return Ok(false);
        }
    }
    Ok(pairs.len() == digests.len())
}

/// Whether the told page of a pair has this digest.
fn has_digest(
    alloc: Global,
    known: &PageDigests,
    told: &Told,
    pair: PairNo,
    wanted: &[u8; 32],
) -> Result<bool, NoMemory>
    requires { is_some (told_pages told.now pair) ≡ true }
    ensures { IfOk result (λ b. b ≡ bytes_eq (digest (told_page (told_pages told.now) pair)) wanted.now) }
{
    let Some(page) = told.get(pair) else {
        unreachable!();
    };
    let now = known.digest(alloc, pair, page)?;
    Ok(now.as_slice() == wanted.as_slice())
}
