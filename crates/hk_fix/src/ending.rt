// What the end of a run leaves to report.
ghost use Rattle.std.specs.Prelude.{◌≡◌, ◌↔◌, ℕ, ◌+◌, ◌^◌, ◌<◌, ◌≤◌, true, Some, All, IfOk, length, map};
ghost use Rattle.hk_fix.specs.Fix.{is_finished, waiting};
ghost use Rattle.hk_fix.specs.Outcomes.{outcome_view};
ghost use Rattle.hk_fix.specs.Report.{report_of, failed_of, cycles_of, blocked_of, lead_of, CanReport, FirstIn, IsEmptyReport, is_faulted};
ghost use Rattle.hk_fix.specs.Walks.{LeadsIn, place_at, place_on_cycle};

use crate::cycles::{Place, members, places};
use crate::reported::Report;
use crate::results::{Outcome, Results};
use hk_base::NoMemory;
use hk_chain::{ItemNo, Layout, PairNo};
use std::alloc::Global;

/// What is left to report: a waiting item leads to the item of the first pair that it waits for. The report is empty
/// exactly where every item is done. `NoMemory` only for want of memory. Linear in the items and the pairs that they
/// wait for.
pub fn report(alloc: Global, layout: &Layout, results: &Results) -> Result<Report, NoMemory>
    requires { CanReport layout.now results.now.outcomes }
    ensures value { IfOk result (λ r. r ≡ report_of layout.now results.now.outcomes) }
    ensures empty { IfOk result (λ r. IsEmptyReport r ↔ All (λ e. is_finished e ≡ true) results.now.outcomes) }
{
    report_on(alloc, layout, &results.outcomes)
}

pub(crate) fn report_on(
    alloc: Global,
    layout: &Layout,
    outcomes: &[Outcome],
) -> Result<Report, NoMemory>
    requires count { length outcomes.now ≡ layout.now.items }
    requires firsts { All (λ o. FirstIn layout.now (outcome_view o)) outcomes.now }
    ensures { IfOk result (λ r. r ≡ report_of layout.now (map outcome_view outcomes.now)) }
{
    let _items = layout.items();
    let leads = leads(alloc, layout, outcomes)?;
    let places = places(alloc, &leads)?;
    Ok(Report {
        failed: failed(alloc, outcomes)?,
        cycles: cycles(alloc, &leads, &places)?,
        blocked: blocked(alloc, &leads, outcomes, &places)?,
    })
}

/// The item that each item leads to.
fn leads(alloc: Global, layout: &Layout, outcomes: &[Outcome]) -> Result<Vec<Option<u32>>, NoMemory>
    requires { All (λ o. FirstIn layout.now (outcome_view o)) outcomes.now }
    ensures { IfOk result (λ v. v.items ≡ map (λ o. lead_of layout.now (outcome_view o)) outcomes.now) }
{
    let mut leads = Vec::with_capacity(alloc, outcomes.len())?;
    for outcome in outcomes {
        leads.push(lead(layout, outcome))?;
    }
    Ok(leads)
}

fn lead(layout: &Layout, outcome: &Outcome) -> Option<u32>
    requires { FirstIn layout.now (outcome_view outcome.now) }
    ensures { result ≡ lead_of layout.now (outcome_view outcome.now) }
{
    match outcome {
        Outcome::Waiting(pairs) => first(layout, pairs),
        _ => None,
    }
}

fn first(layout: &Layout, pairs: &[PairNo]) -> Option<u32>
    requires { FirstIn layout.now (waiting pairs.now) }
    ensures { result ≡ lead_of layout.now (waiting pairs.now) }
{
    if pairs.is_empty() {
        None
    } else {
        Some(layout.item_of(pairs[0]).0)
    }
}

fn is_failed(outcome: &Outcome) -> bool
    ensures { result ≡ is_faulted (Some (outcome_view outcome.now)) }
{
    match outcome {
        Outcome::Failed(_) => true,
        _ => false,
    }
}

fn failed(alloc: Global, outcomes: &[Outcome]) -> Result<Vec<ItemNo>, NoMemory>
    requires { length outcomes.now < 2 ^ 32 }
    ensures { IfOk result (λ v. v.items ≡ failed_of (map outcome_view outcomes.now)) }
{
    let mut failed = Vec::new(alloc);
    for i in 0..outcomes.len() {
        if is_failed(&outcomes[i]) {
            failed.push(ItemNo(i as u32))?;
        }
    }
    Ok(failed)
}

fn cycles(
    alloc: Global,
    leads: &[Option<u32>],
    places: &[Place],
) -> Result<Vec<Vec<ItemNo>>, NoMemory>
    requires few { length leads.now < 2 ^ 32 }
    requires range { LeadsIn leads.now }
    requires count { length places.now ≡ length leads.now }
    requires each { (q : ℕ) → q < length leads.now → place_at places.now q ≡ place_on_cycle leads.now q }
    ensures { IfOk result (λ v. map (λ c. c.items) v.items ≡ cycles_of leads.now) }
{
    let mut cycles = Vec::new(alloc);
    for i in 0..places.len() {
        if places[i] == Place::First {
            cycles.push(members(alloc, leads, i as u32)?)?;
        }
    }
    Ok(cycles)
}

fn blocked(
    alloc: Global,
    leads: &[Option<u32>],
    outcomes: &[Outcome],
    places: &[Place],
) -> Result<Vec<(ItemNo, Vec<PairNo>)>, NoMemory>
    requires few { length outcomes.now < 2 ^ 32 }
    requires leads { length leads.now ≡ length outcomes.now }
    requires count { length places.now ≡ length outcomes.now }
    requires each { (q : ℕ) → q < length leads.now → place_at places.now q ≡ place_on_cycle leads.now q }
    ensures { IfOk result (λ v. map (λ b. (b.0, b.1.items)) v.items ≡ blocked_of leads.now (map outcome_view outcomes.now)) }
{
    let mut blocked = Vec::new(alloc);
    for i in 0..outcomes.len() {
        if places[i] == Place::Off {
            if let Outcome::Waiting(pairs) = &outcomes[i] {
                blocked.push((ItemNo(i as u32), Vec::from_slice(alloc, pairs)?))?;
            }
        }
    }
    Ok(blocked)
}
