// The contexts that a chain reaches.
ghost use Rattle.std.specs.Prelude.{◌≡◌, ◌<◌, [], length, map, IfOk, OnOk};
ghost use Rattle.std.specs.List.{AllByRecursion, flat_map};
ghost use Rattle.hk_rules_file.specs.Linked.{AreLinked, IsStepWithin};
ghost use Rattle.hk_rules.specs.LinkedPlan.{IsLinkedPlan};
ghost use Rattle.hk_rules.specs.Plan.{lookups};
ghost use Rattle.hk_rules.specs.Recipe as spec;
ghost use Rattle.hk_store.specs.Reached.{put, puts};

use hk_base::NoMemory;
use hk_chain::{ContextNo, Field, Step};
use hk_rules::Plan;
use std::alloc::Global;

/// The numbers of the contexts that a chain reaches, ascending: a step names them, or a list of one that it reaches
/// does. `NoMemory` only for want of memory. One pass over the contexts for each level of lists.
pub(crate) fn reached(alloc: Global, plan: &Plan, steps: &[Step]) -> Result<Vec<u32>, NoMemory>
    requires linked { IsLinkedPlan plan.now }
    requires within { AllByRecursion (IsStepWithin (length plan.now.contexts) (length plan.now.patterns)) steps.now }
    ensures { IfOk result (λ v. v.items ≡ spec.reached (lookups plan.now) (length plan.now.contexts) steps.now) }
{
    let mut numbers = Vec::new(alloc);
    put_named(&mut numbers, steps)?;
    loop {
        let mut more = Vec::from_slice(alloc, &numbers)?;
        put_listed(&mut more, plan, &numbers)?;
        if more.len() == numbers.len() {
            return Ok(numbers);
        }
        numbers = more;
    }
}

/// Adds the contexts that the steps name.
fn put_named(numbers: &mut Vec<u32>, steps: &[Step]) -> Result<(), NoMemory>
    ensures { OnOk result (numbers.new.items ≡ puts numbers.old.items (flat_map spec.step_contexts steps.now)) }
{
    for step in steps {
        match step {
            Step::Apply { context, .. } => put_number(numbers, context.0)?,
            Step::SelfApply(context) => put_number(numbers, context.0)?,
            _ => (),
        }
    }
    Ok(())
}

/// Adds the contexts that lists of these contexts name.
fn put_listed(numbers: &mut Vec<u32>, plan: &Plan, named: &[u32]) -> Result<(), NoMemory>
    requires { AllByRecursion (λ c. c < length plan.now.contexts) named.now }
    ensures { OnOk result (numbers.new.items ≡ puts numbers.old.items (flat_map (spec.list_contexts (lookups plan.now)) named.now)) }
{
    for number in named {
        put_fields(numbers, &plan.context(ContextNo(*number)).fields)?;
    }
    Ok(())
}

fn put_fields(numbers: &mut Vec<u32>, fields: &[Field]) -> Result<(), NoMemory>
    ensures { OnOk result (numbers.new.items ≡ puts numbers.old.items (flat_map spec.field_contexts fields.now)) }
{
    for field in fields {
        if let Field::List { context, .. } = field {
            put_number(numbers, context.0)?;
        }
    }
    Ok(())
}

/// Adds a number to ascending ones, unless it is there.
fn put_number(numbers: &mut Vec<u32>, number: u32) -> Result<(), NoMemory>
    ensures { OnOk result (numbers.new.items ≡ put number numbers.old.items) }
{
    let mut place = 0;
    while place < numbers.len() && numbers[place] < number {
        place += 1;
    }
    if place < numbers.len() && numbers[place] == number {
        return Ok(());
    }
    numbers.insert(place, number)?;
    Ok(())
}
