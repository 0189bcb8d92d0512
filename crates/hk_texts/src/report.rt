// The text of a report.
ghost use Rattle.std.specs.Prelude.{◌≡◌, ◌++◌, ◌<◌, All, IfOk, OnOk, codes, length, map};
ghost use Rattle.std.specs.List.{flat_map};
ghost use Rattle.std.specs.Fmt.{decimal};
ghost use Rattle.hk_base.specs.Identifier.{print_ident};
ghost use Rattle.hk_chain.specs.Layout.{pairs};
ghost use Rattle.hk_fix.specs.Outcomes.{outcome_view};
ghost use Rattle.hk_fix.specs.Report.{CanReport, ending_at, report_of};
ghost use Rattle.hk_rules.specs.Pairs.{layout};
ghost use Rattle.hk_rules.specs.Plan.{lookups};
ghost use Rattle.hk_texts.specs.ReportText as spec;
ghost use Rattle.hk_texts.specs.ReportText.{IsReportWithin, IsBlockedWithin};

use crate::pieces::{append, append_two, write_item, write_pair};
use hk_base::{Identifier, NoMemory, Text};
use hk_chain::{Fault, ItemNo, PairNo};
use hk_fix::{Outcome, Report};
use hk_rules::Plan;
use std::alloc::Global;

/// A line for each failed item, each cycle and each blocked item, and one that counts them. Linear in the report, with
/// each blocked pair's name looked up in its item's chain.
pub fn report_text(
    alloc: Global,
    plan: &Plan,
    outcomes: &[Outcome],
    report: &Report,
) -> Result<Text, NoMemory>
    requires ended { CanReport (layout plan.now.items) (map outcome_view outcomes.now) }
    requires report { report.now ≡ report_of (layout plan.now.items) (map outcome_view outcomes.now) }
    ensures { IfOk result (λ text. text ≡ spec.report_text (lookups plan.now) (map outcome_view outcomes.now) report.now) }
{
    let _items = plan.layout().get().items();
    write_report(alloc, plan, outcomes, report)
}

fn write_report(
    alloc: Global,
    plan: &Plan,
    outcomes: &[Outcome],
    report: &Report,
) -> Result<Text, NoMemory>
    requires { IsReportWithin (length plan.now.items) (pairs (layout plan.now.items)) report.now }
    ensures { IfOk result (λ text. text ≡ spec.report_text (lookups plan.now) (map outcome_view outcomes.now) report.now) }
{
    let mut out = Vec::new(alloc);
    write_failed(alloc, &mut out, plan, outcomes, &report.failed)?;
    write_cycles(alloc, &mut out, plan, &report.cycles)?;
    write_blocked(alloc, &mut out, plan, &report.blocked)?;
    write_counts(alloc, &mut out, report)?;
    Ok(Text::from_vec(out))
}

fn write_failed(
    alloc: Global,
    out: &mut Vec<u8>,
    plan: &Plan,
    outcomes: &[Outcome],
    failed: &[ItemNo],
) -> Result<(), NoMemory>
    requires { All (λ item. item < length plan.now.items) failed.now }
    ensures { OnOk result (out.new.items ≡ out.old.items ++ flat_map (spec.failed_line (lookups plan.now) (map outcome_view outcomes.now)) failed.now) }
{
    for item in failed {
        append(out, b"failed ")?;
        write_item(alloc, out, plan, *item)?;
        append(out, b": ")?;
        write_failure(alloc, out, outcomes, *item)?;
        append(out, b"\n")?;
    }
    Ok(())
}

fn write_failure(
    alloc: Global,
    out: &mut Vec<u8>,
    outcomes: &[Outcome],
    item: ItemNo,
) -> Result<(), NoMemory>
    ensures { OnOk result (out.new.items ≡ out.old.items ++ spec.failure_text (ending_at (map outcome_view outcomes.now) item)) }
{
    match outcomes.get(item.0 as usize) {
        Some(Outcome::Failed(fault)) => write_fault(alloc, out, fault),
        _ => Ok(()),
    }
}

fn write_fault(alloc: Global, out: &mut Vec<u8>, fault: &Fault) -> Result<(), NoMemory>
    ensures { OnOk result (out.new.items ≡ out.old.items ++ spec.fault_text fault.now) }
{
    match fault {
        Fault::Missing { id } => write_with_id(alloc, out, b"missing ", id),
        Fault::NoSnapshot { id, name } => {
            append_two(out, b"no snapshot ", name.as_slice())?;
            write_with_id(alloc, out, b" of ", id)
        }
        Fault::WrongKind { id } => write_with_id(alloc, out, b"wrong kind of ", id),
        Fault::BadTemplate { place } => write_with_number(alloc, out, b"bad template at ", *place),
        Fault::NoKey { key } => append_two(out, b"no key ", key.as_slice()),
        Fault::NotList { key } => append_two(out, b"no list ", key.as_slice()),
        Fault::NotText { key } => append_two(out, b"no text ", key.as_slice()),
        Fault::TooDeep => append(out, b"partials too deep"),
        Fault::NoDate { id } => write_with_id(alloc, out, b"no date of ", id),
    }
}

fn write_cycles(
    alloc: Global,
    out: &mut Vec<u8>,
    plan: &Plan,
    cycles: &[Vec<ItemNo>],
) -> Result<(), NoMemory>
    requires { All (All (λ item. item < length plan.now.items)) (map (λ c. c.items) cycles.now) }
    ensures { OnOk result (out.new.items ≡ out.old.items ++ flat_map (spec.cycle_line (lookups plan.now)) (map (λ c. c.items) cycles.now)) }
{
    for items in cycles {
        append(out, b"cycle ")?;
        write_cycle(alloc, out, plan, items)?;
        append(out, b"\n")?;
    }
    Ok(())
}

fn write_cycle(
    alloc: Global,
    out: &mut Vec<u8>,
    plan: &Plan,
    items: &[ItemNo],
) -> Result<(), NoMemory>
    requires { All (λ item. item < length plan.now.items) items.now }
    ensures { OnOk result (out.new.items ≡ out.old.items ++ spec.cycle_text (lookups plan.now) items.now) }
{
    let Some((first, others)) = items.split_first() else {
        return Ok(());
    };
    write_item(alloc, out, plan, *first)?;
    write_arrows(alloc, out, plan, others)?;
    append(out, b" -> ")?;
    write_item(alloc, out, plan, *first)
}

fn write_arrows(
    alloc: Global,
    out: &mut Vec<u8>,
    plan: &Plan,
    items: &[ItemNo],
) -> Result<(), NoMemory>
    requires { All (λ item. item < length plan.now.items) items.now }
    ensures { OnOk result (out.new.items ≡ out.old.items ++ flat_map (λ item. codes " -> " ++ spec.item_text (lookups plan.now) item) items.now) }
{
    for item in items {
        append(out, b" -> ")?;
        write_item(alloc, out, plan, *item)?;
    }
    Ok(())
}

fn write_blocked(
    alloc: Global,
    out: &mut Vec<u8>,
    plan: &Plan,
    blocked: &[(ItemNo, Vec<PairNo>)],
) -> Result<(), NoMemory>
    requires { All (IsBlockedWithin (length plan.now.items) (pairs (layout plan.now.items))) (map (λ b. (b.0, b.1.items)) blocked.now) }
    ensures { OnOk result (out.new.items ≡ out.old.items ++ flat_map (spec.blocked_line (lookups plan.now)) (map (λ b. (b.0, b.1.items)) blocked.now)) }
{
    for (item, waits) in blocked {
        write_blocked_item(alloc, out, plan, *item, waits)?;
    }
    Ok(())
}

fn write_blocked_item(
    alloc: Global,
    out: &mut Vec<u8>,
    plan: &Plan,
    item: ItemNo,
    waits: &[PairNo],
) -> Result<(), NoMemory>
    requires item { item < length plan.now.items }
    requires pairs { All (λ pair. pair < pairs (layout plan.now.items)) waits.now }
    ensures { OnOk result (out.new.items ≡ out.old.items ++ spec.blocked_line (lookups plan.now) (item, waits.now)) }
{
    append(out, b"blocked ")?;
    write_item(alloc, out, plan, item)?;
    append(out, b": waits for ")?;
    write_pairs(alloc, out, plan, waits)?;
    append(out, b"\n")?;
    Ok(())
}

fn write_pairs(
    alloc: Global,
    out: &mut Vec<u8>,
    plan: &Plan,
    waits: &[PairNo],
) -> Result<(), NoMemory>
    requires { All (λ pair. pair < pairs (layout plan.now.items)) waits.now }
    ensures { OnOk result (out.new.items ≡ out.old.items ++ spec.pairs_text (lookups plan.now) waits.now) }
{
    let Some((first, others)) = waits.split_first() else {
        return Ok(());
    };
    write_pair(alloc, out, plan, *first)?;
    write_others(alloc, out, plan, others)
}

fn write_others(
    alloc: Global,
    out: &mut Vec<u8>,
    plan: &Plan,
    waits: &[PairNo],
) -> Result<(), NoMemory>
    requires { All (λ pair. pair < pairs (layout plan.now.items)) waits.now }
    ensures { OnOk result (out.new.items ≡ out.old.items ++ flat_map (λ pair. codes ", " ++ spec.pair_text (lookups plan.now) pair) waits.now) }
{
    for pair in waits {
        append(out, b", ")?;
        write_pair(alloc, out, plan, *pair)?;
    }
    Ok(())
}

fn write_counts(alloc: Global, out: &mut Vec<u8>, report: &Report) -> Result<(), NoMemory>
    ensures { OnOk result (out.new.items ≡ out.old.items ++ spec.counts_line report.now) }
{
    let line = format!(in alloc;
        "failed {}, cycles {}, blocked {}\n",
        report.failed.len(),
        report.cycles.len(),
        report.blocked.len()
    )?;
    append(out, line.as_bytes())
}

fn write_with_id(
    alloc: Global,
    out: &mut Vec<u8>,
    front: &[u8],
    id: &Identifier,
) -> Result<(), NoMemory>
    ensures { OnOk result (out.new.items ≡ out.old.items ++ (front.now ++ print_ident id.now)) }
{
    let printed = id.print(alloc)?;
    append_two(out, front, printed.as_slice())
}

fn write_with_number(
    alloc: Global,
    out: &mut Vec<u8>,
    front: &[u8],
    number: u64,
) -> Result<(), NoMemory>
    ensures { OnOk result (out.new.items ≡ out.old.items ++ (front.now ++ decimal number)) }
{
    let digits = format!(in alloc; "{number}")?;
    append_two(out, front, digits.as_bytes())
}
