// What a report says.
ghost use Rattle.std.specs.Prelude.{◌≡◌, ◌<◌, IfOk, false, map};
ghost use Rattle.std.specs.Bool.{OnTrue};
ghost use Rattle.hk_chain.specs.Layout.{pairs, item_of};
ghost use Rattle.hk_fix.specs.Fix.{Blocks, is_finished};
ghost use Rattle.hk_fix.specs.Outcomes.{outcome_view};
ghost use Rattle.hk_fix.specs.Report.{CanReport, WaitsFor, ending_at};

use crate::texts::no_facts;
use hk_base::NoMemory;
use hk_chain::{Fault, Layout, PairNo};
use hk_fix::{Outcome, Report, Results, report};
use std::alloc::Global;
use std::test::Fail;

/// A layout where each item has one pair, of its own number.
fn plain(alloc: Global, items: usize) -> Result<Layout, Fail> {
    let counts = vec![in alloc; 0; items]?;
    if counts.len() > 70_000 {
        return Err(Fail::new("too many items"));
    }
    Ok(Layout::of_counts(alloc, &counts)?)
}

/// Whether each item has an outcome, and waits only for pairs of items that aren't done.
fn can_report(layout: &Layout, outcomes: &[Outcome]) -> bool
    ensures { OnTrue result (CanReport layout.now (map outcome_view outcomes.now)) }
{
    if outcomes.len() != layout.items() as usize {
        return false;
    }
    for outcome in outcomes {
        if !waits_for(layout, outcomes, outcome) {
            return false;
        }
    }
    true
}

fn waits_for(layout: &Layout, outcomes: &[Outcome], outcome: &Outcome) -> bool
    ensures { OnTrue result (WaitsFor layout.now (map outcome_view outcomes.now) (outcome_view outcome.now)) }
{
    match outcome {
        Outcome::Waiting(pairs) => block(layout, outcomes, pairs),
        _ => true,
    }
}

fn block(layout: &Layout, outcomes: &[Outcome], pairs: &[PairNo]) -> bool
    ensures { OnTrue result (Blocks layout.now (ending_at (map outcome_view outcomes.now)) pairs.now) }
{
    for pair in pairs {
        if !is_open(layout, outcomes, *pair) {
            return false;
        }
    }
    !pairs.is_empty()
}

fn is_open(layout: &Layout, outcomes: &[Outcome], pair: PairNo) -> bool
    ensures { OnTrue result ((pair < pairs layout.now) × (is_finished (ending_at (map outcome_view outcomes.now) (item_of layout.now pair)) ≡ false)) }
{
    if pair.0 >= layout.pairs() {
        return false;
    }
    let at = layout.item_of(pair).0 as usize;
    at < outcomes.len() && is_unfinished(&outcomes[at])
}

fn is_unfinished(outcome: &Outcome) -> bool
    ensures { OnTrue result (is_finished (outcome_view outcome.now) ≡ false) }
{
    !matches!(outcome, Outcome::Done(_))
}

/// Done for a dot, a fault for `!`, and else the digits are the pairs that it waits for.
fn outcome(alloc: Global, word: &str) -> Result<Outcome, NoMemory> {
    match word {
        "." => Ok(Outcome::Done(no_facts(alloc))),
        "!" => Ok(Outcome::Failed(Fault::TooDeep)),
        _ => Ok(Outcome::Waiting(digits(alloc, word.as_bytes())?)),
    }
}

fn digits(alloc: Global, word: &[u8]) -> Result<Vec<PairNo>, NoMemory> {
    let mut pairs = Vec::new(alloc);
    for digit in word {
        pairs.push(PairNo(digit.wrapping_sub(b'0') as u32))?;
    }
    Ok(pairs)
}

fn outcomes(alloc: Global, line: &str) -> Result<Vec<Outcome>, NoMemory> {
    let mut outcomes = Vec::new(alloc);
    for word in line.split_whitespace() {
        outcomes.push(outcome(alloc, word)?)?;
    }
    Ok(outcomes)
}

/// Results with these outcomes alone.
fn ended(alloc: Global, outcomes: Vec<Outcome>) -> Results
    ensures { result.outcomes ≡ map outcome_view outcomes.items }
{
    Results {
        outcomes,
        pages: Vec::new(alloc),
        history: Vec::new(alloc),
    }
}

/// What is left to report of these outcomes.
fn left(alloc: Global, outcomes: Vec<Outcome>) -> Result<Report, Fail> {
    let layout = plain(alloc, outcomes.len())?;
    if !can_report(&layout, &outcomes) {
        return Err(Fail::new("no outcomes of a run"));
    }
    Ok(report(alloc, &layout, &ended(alloc, outcomes))?)
}

/// What is left to report of the outcomes of a row.
pub fn reported(alloc: Global, line: &str) -> Result<String, Fail> {
    let left = left(alloc, outcomes(alloc, line)?)?;
    Ok(format!(in alloc; "{left:?}")?)
}

/// Each of these waits for the next, and the last one failed.
fn line_of(alloc: Global, count: u32) -> Result<Vec<Outcome>, NoMemory> {
    let mut outcomes = Vec::new(alloc);
    for item in 1..count {
        let pairs = vec![in alloc; PairNo(item)]?;
        outcomes.push(Outcome::Waiting(pairs))?;
    }
    outcomes.push(Outcome::Failed(Fault::TooDeep))?;
    Ok(outcomes)
}

/// How many failures, cycles and blocked items there are in a long line.
pub fn long_line(alloc: Global) -> Result<String, Fail> {
    let left = left(alloc, line_of(alloc, 65_535)?)?;
    let (failed, cycles, blocked) = (left.failed.len(), left.cycles.len(), left.blocked.len());
    Ok(format!(in alloc; "{failed} {cycles} {blocked}")?)
}
