// Rules whose contexts are numbered in the order of their names.
ghost use Rattle.std.specs.Prelude.{◌≡◌, IfOk, OnOk, map};
ghost use Rattle.std.specs.List.Sorted.{IsSortedBy};
ghost use Rattle.hk_rules_file.specs.Linked.{context_names};
ghost use Rattle.hk_tags.specs.NameOrder as spec;

use crate::copying::copy_text;
use crate::growing::{Growing, number_of};
use hk_base::{NoMemory, Text};
use hk_chain::{Chain, Context, ContextNo, Field, Step};
use hk_rules::Rule;
use std::alloc::Global;

/// The rules with their contexts in the order of their names, and with each number of a context changed to that of the
/// same context there. One sort of the contexts and one search among them for each; then linear in the steps and fields.
#[tactic(auto, unfolding(crate::specs::NameOrder::in_name_order))]
pub(crate) fn in_name_order(alloc: Global, growing: Growing) -> Result<Growing, NoMemory>
    ensures { IfOk result (λ g. g ≡ spec.in_name_order growing) }
{
    let Growing {
        rules,
        contexts,
        pool,
    } = growing;
    let names = names_of(alloc, &contexts)?;
    let contexts = by_name(contexts)?;
    let numbers = numbers_of(alloc, &names, &contexts)?;
    let contexts = renumbered_contexts(alloc, &numbers, contexts)?;
    let rules = renumbered_rules(alloc, &numbers, rules)?;
    Ok(Growing {
        rules,
        contexts,
        pool,
    })
}

fn names_of(alloc: Global, contexts: &[Context]) -> Result<Vec<Text>, NoMemory>
    ensures { IfOk result (λ v. v.items ≡ context_names contexts.now) }
{
    let mut names = Vec::with_capacity(alloc, contexts.len())?;
    for context in contexts {
        names.push(copy_text(alloc, &context.name)?)?;
    }
    Ok(names)
}

/// The contexts in the order of their names.
fn by_name(contexts: Vec<Context>) -> Result<Vec<Context>, NoMemory>
    ensures value { IfOk result (λ v. v.items ≡ spec.by_name contexts.items) }
    ensures sorted { IfOk result (λ v. IsSortedBy spec.is_named_before v.items) }
{
    let mut contexts = contexts;
    sort(&mut contexts)?;
    Ok(contexts)
}

fn sort(contexts: &mut Vec<Context>) -> Result<(), NoMemory>
    ensures value { OnOk result (contexts.new.items ≡ spec.by_name contexts.old.items) }
    ensures sorted { OnOk result (IsSortedBy spec.is_named_before contexts.new.items) }
{
    contexts.sort_by(|a, b| a.name.cmp(&b.name))?;
    Ok(())
}

/// The number of each name among the contexts, which are in order.
fn numbers_of(
    alloc: Global,
    names: &[Text],
    contexts: &[Context],
) -> Result<Vec<ContextNo>, NoMemory>
    requires { IsSortedBy spec.is_named_before contexts.now }
    ensures { IfOk result (λ v. v.items ≡ map (spec.number_of contexts.now) names.now) }
{
    let mut numbers = Vec::with_capacity(alloc, names.len())?;
    for name in names {
        numbers.push(number_of(place_of_context(contexts, name))?)?;
    }
    Ok(numbers)
}

/// How many contexts have a name before this one.
fn place_of_context(contexts: &[Context], name: &Text) -> usize
    requires { IsSortedBy spec.is_named_before contexts.now }
    ensures { result ≡ spec.number_of contexts.now name.now }
{
    contexts.partition_point(|context| context.name.cmp(name).is_lt())
}

fn renumbered_contexts(
    alloc: Global,
    numbers: &[ContextNo],
    contexts: Vec<Context>,
) -> Result<Vec<Context>, NoMemory>
    ensures { IfOk result (λ v. v.items ≡ map (spec.context_by numbers.now) contexts.items) }
{
    let mut renumbered = Vec::with_capacity(alloc, contexts.len())?;
    for context in contexts {
        renumbered.push(renumbered_context(alloc, numbers, context)?)?;
    }
    Ok(renumbered)
}

fn renumbered_context(
    alloc: Global,
    numbers: &[ContextNo],
    context: Context,
) -> Result<Context, NoMemory>
    ensures { IfOk result (λ c. c ≡ spec.context_by numbers.now context) }
{
    let Context { name, fields } = context;
    let mut renumbered = Vec::with_capacity(alloc, fields.len())?;
    for field in fields {
        renumbered.push(renumbered_field(numbers, field))?;
    }
    Ok(Context {
        name,
        fields: renumbered,
    })
}

fn renumbered_field(numbers: &[ContextNo], field: Field) -> Field
    ensures { result ≡ spec.field_by numbers.now field }
{
    match field {
        Field::List {
            key,
            of,
            snapshot,
            order,
            limit,
            context,
        } => Field::List {
            key,
            of,
            snapshot,
            order,
            limit,
            context: new_number(numbers, context),
        },
        field => field,
    }
}

/// A number of no context stays.
fn new_number(numbers: &[ContextNo], number: ContextNo) -> ContextNo
    ensures { result ≡ spec.new_number numbers.now number }
{
    match numbers.get(number.0 as usize) {
        Some(new) => *new,
        None => number,
    }
}

fn renumbered_rules(
    alloc: Global,
    numbers: &[ContextNo],
    rules: Vec<Rule>,
) -> Result<Vec<Rule>, NoMemory>
    ensures { IfOk result (λ v. v.items ≡ map (spec.rule_by numbers.now) rules.items) }
{
    let mut renumbered = Vec::with_capacity(alloc, rules.len())?;
    for rule in rules {
        renumbered.push(renumbered_rule(alloc, numbers, rule)?)?;
    }
    Ok(renumbered)
}

fn renumbered_rule(alloc: Global, numbers: &[ContextNo], rule: Rule) -> Result<Rule, NoMemory>
    ensures { IfOk result (λ r. r ≡ spec.rule_by numbers.now rule) }
{
    let Rule {
        source,
        version,
        route,
        chain,
    } = rule;
    let chain = renumbered_chain(alloc, numbers, chain)?;
    Ok(Rule {
        source,
        version,
        route,
        chain,
    })
}

fn renumbered_chain(alloc: Global, numbers: &[ContextNo], chain: Chain) -> Result<Chain, NoMemory>
    ensures { IfOk result (λ c. c ≡ map (spec.step_by numbers.now) chain) }
{
    let mut steps = Vec::with_capacity(alloc, chain.steps.len())?;
    for step in chain.steps {
        steps.push(renumbered_step(numbers, step))?;
    }
    Ok(Chain { steps })
}

fn renumbered_step(numbers: &[ContextNo], step: Step) -> Step
    ensures { result ≡ spec.step_by numbers.now step }
{
    match step {
        Step::Apply { id, context } => Step::Apply {
            id,
            context: new_number(numbers, context),
        },
        Step::SelfApply(context) => Step::SelfApply(new_number(numbers, context)),
        step => step,
    }
}
