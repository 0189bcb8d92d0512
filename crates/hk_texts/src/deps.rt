// The text of what each item asked for and which patterns it used.
ghost use Rattle.std.specs.Prelude.{◌≡◌, ◌++◌, ◌<◌, All, IfOk, OnOk, length, map, option_copied};
ghost use Rattle.std.specs.List.{flat_map};
ghost use Rattle.hk_chain.specs.Layout.{pairs};
ghost use Rattle.hk_fix.specs.Outcomes.{outcome_view};
ghost use Rattle.hk_fix.specs.Report.{ending_at};
ghost use Rattle.hk_rules.specs.Pairs.{layout};
ghost use Rattle.hk_rules.specs.Plan.{lookups};
ghost use Rattle.hk_texts.specs.DepsText as spec;
ghost use Rattle.hk_texts.specs.DepsText.{AreWithin, CanTell, facts_by};

use crate::pieces::{append, write_item, write_pair};
use hk_base::{NoMemory, Text};
use hk_chain::{Facts, ItemNo, PairNo, PatternNo};
use hk_fix::Outcome;
use hk_rules::Plan;
use std::alloc::Global;

/// A line for each item, and below it one for each page that it asked for and one for each pattern that it used, with the
/// number of items that the pattern matches. Linear in the text, but that each asked page's name is looked up in its
/// item's chain.
pub fn deps_text(alloc: Global, plan: &Plan, outcomes: &[Outcome]) -> Result<Text, NoMemory>
    requires { CanTell (length plan.now.items) (pairs (layout plan.now.items)) (length plan.now.patterns) (map outcome_view outcomes.now) }
    ensures { IfOk result (λ text. text ≡ spec.deps_text (lookups plan.now) (length plan.now.items) (map outcome_view outcomes.now)) }
{
    let mut out = Vec::new(alloc);
    for number in 0..plan.count() {
        let item = ItemNo(number);
        write_item(alloc, &mut out, plan, item)?;
        append(&mut out, b"\n")?;
        write_used(alloc, &mut out, plan, outcomes, item)?;
    }
    Ok(Text::from_vec(out))
}

fn write_used(
    alloc: Global,
    out: &mut Vec<u8>,
    plan: &Plan,
    outcomes: &[Outcome],
    item: ItemNo,
) -> Result<(), NoMemory>
    requires item { item < length plan.now.items }
    requires told { CanTell (length plan.now.items) (pairs (layout plan.now.items)) (length plan.now.patterns) (map outcome_view outcomes.now) }
    ensures { OnOk result (out.new.items ≡ out.old.items ++ spec.used_lines (lookups plan.now) (facts_by (ending_at (map outcome_view outcomes.now) item))) }
{
    match done_facts(outcomes, item) {
        Some(facts) => write_facts(alloc, out, plan, facts),
        None => Ok(()),
    }
}

/// The facts of an item that is done.
fn done_facts(outcomes: &[Outcome], item: ItemNo) -> Option<&Facts>
    ensures { option_copied result ≡ facts_by (ending_at (map outcome_view outcomes.now) item) }
{
    match outcomes.get(item.0 as usize) {
        Some(Outcome::Done(facts)) => Some(facts),
        _ => None,
    }
}

fn write_facts(alloc: Global, out: &mut Vec<u8>, plan: &Plan, facts: &Facts) -> Result<(), NoMemory>
    requires { AreWithin (pairs (layout plan.now.items)) (length plan.now.patterns) facts.now }
    ensures { OnOk result (out.new.items ≡ out.old.items ++ spec.facts_lines (lookups plan.now) facts.now) }
{
    write_loads(alloc, out, plan, &facts.asks)?;
    write_patterns(alloc, out, plan, &facts.patterns)
}

fn write_loads(
    alloc: Global,
    out: &mut Vec<u8>,
    plan: &Plan,
    asks: &[PairNo],
) -> Result<(), NoMemory>
    requires { All (λ pair. pair < pairs (layout plan.now.items)) asks.now }
    ensures { OnOk result (out.new.items ≡ out.old.items ++ flat_map (spec.loads_line (lookups plan.now)) asks.now) }
{
    for pair in asks {
        write_load(alloc, out, plan, *pair)?;
    }
    Ok(())
}

fn write_load(alloc: Global, out: &mut Vec<u8>, plan: &Plan, pair: PairNo) -> Result<(), NoMemory>
    requires { pair < pairs (layout plan.now.items) }
    ensures { OnOk result (out.new.items ≡ out.old.items ++ spec.loads_line (lookups plan.now) pair) }
{
    append(out, b"  loads ")?;
    write_pair(alloc, out, plan, pair)?;
    append(out, b"\n")
}

fn write_patterns(
    alloc: Global,
    out: &mut Vec<u8>,
    plan: &Plan,
    patterns: &[PatternNo],
) -> Result<(), NoMemory>
    requires { All (λ pattern. pattern < length plan.now.patterns) patterns.now }
    ensures { OnOk result (out.new.items ≡ out.old.items ++ spec.pattern_lines (lookups plan.now) 0 patterns.now) }
{
    let mut place = 0;
    for pattern in patterns {
        place += 1;
        write_pattern(alloc, out, plan, place, *pattern)?;
    }
    Ok(())
}

fn write_pattern(
    alloc: Global,
    out: &mut Vec<u8>,
    plan: &Plan,
    place: u64,
    pattern: PatternNo,
) -> Result<(), NoMemory>
    requires { pattern < length plan.now.patterns }
    ensures { OnOk result (out.new.items ≡ out.old.items ++ spec.pattern_line (lookups plan.now) place pattern) }
{
    let count = plan.matches(pattern).len();
    let line = format!(in alloc; "  pattern {place}: {count} matches\n")?;
    append(out, line.as_bytes())
}
