// The report of a build.
ghost use Rattle.std.specs.Prelude.{◌≡◌, IfOk};
ghost use Rattle.hk_reuse.specs.Entries.{Entries};
ghost use Rattle.hk_build.specs.Build as spec;
ghost use Rattle.hk_build.specs.Built.{AreResults};
ghost use Rattle.hk_build.specs.Reported.{HasEntries, IsReported};

use hk_base::{NoMemory, Text};
use hk_fix::{Report, Results, report};
use hk_rules::Plan;
use hk_texts::report_text;
use std::alloc::Global;

/// The lines of a report; `None` exactly where each item is done. `NoMemory` only for want of memory. Linear in the items
/// and the pairs that they wait for, with each blocked pair's name looked up in its item's chain.
pub fn report_lines(alloc: Global, plan: &Plan, results: &Results) -> Result<Option<Text>, NoMemory>
    requires { HasEntries plan.now results.now }
    ensures { IfOk result (λ lines. (entries : Entries) → AreResults plan.now entries results.now → IsReported plan.now entries lines) }
{
    let left = report(alloc, plan.layout().get(), results)?;
    if is_empty(&left) {
        return Ok(None);
    }
    let text = report_text(alloc, plan, &results.outcomes, &left)?;
    Ok(Some(text))
}

fn is_empty(report: &Report) -> bool
    ensures { result ≡ spec.is_empty report.now }
{
    report.failed.as_slice().is_empty()
        && report.cycles.as_slice().is_empty()
        && report.blocked.as_slice().is_empty()
}
