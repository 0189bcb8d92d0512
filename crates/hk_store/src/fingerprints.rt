// The fingerprint of an item: the text of what its compiler is made of.
ghost use Rattle.std.specs.Prelude.{◌≡◌, ◌<◌, ◌++◌, length, map, codes, IfOk, OnOk};
ghost use Rattle.std.specs.List.{AllByRecursion, flat_map};
ghost use Rattle.hk_rules_file.specs.Linked.{IsLinkedField, IsStepWithin};
ghost use Rattle.hk_rules.specs.LinkedPlan.{IsLinkedPlan};
ghost use Rattle.hk_rules.specs.Plan.{lookups};
ghost use Rattle.hk_forms.specs.PatternText.{num, str};
ghost use Rattle.hk_rules.specs.Recipe.{context_name, named_context, named_field, named_step, pattern_text, recipe_of};
ghost use Rattle.hk_store.specs.RecipeText as spec;
ghost use Rattle.hk_store.specs.Told.{many};

use crate::fields::{append, write_ident, write_num, write_opt, write_str};
use crate::reached::reached;
use hk_base::{NoMemory, Text};
use hk_chain::{ContextNo, Field, ItemNo, Order, PatternNo, Step};
use hk_rules::{Plan, text_of_pattern};
use std::alloc::Global;

/// The fingerprint of an item: its chain, the contexts that this reaches, its target, its file and that file's companion.
/// `NoMemory` only for want of memory. Linear in the text.
pub fn fingerprint(alloc: Global, plan: &Plan, item: ItemNo) -> Result<Text, NoMemory>
    requires { item < length plan.now.items }
    ensures { IfOk result (λ t. t ≡ spec.recipe_text (recipe_of plan.now item)) }
{
    plan.linked();
    let mut out = Vec::new(alloc);
    write_chain(alloc, &mut out, plan, item)?;
    write_opt(&mut out, plan.target_of(item))?;
    write_opt(&mut out, plan.resource(item))?;
    write_opt(&mut out, plan.companion(item))?;
    Ok(Text::from_vec(out))
}

/// The chain, and the contexts that it reaches.
pub(crate) fn write_chain(
    alloc: Global,
    out: &mut Vec<u8>,
    plan: &Plan,
    item: ItemNo,
) -> Result<(), NoMemory>
    requires item { item < length plan.now.items }
    requires linked { IsLinkedPlan plan.now }
    ensures { OnOk result (out.new.items ≡ out.old.items ++ spec.chain_text (recipe_of plan.now item)) }
{
    let steps = &plan.chain(item).steps;
    write_str(out, b"chain")?;
    write_steps(alloc, out, plan, steps)?;
    let numbers = reached(alloc, plan, steps)?;
    write_contexts(alloc, out, plan, &numbers)
}

fn write_steps(
    alloc: Global,
    out: &mut Vec<u8>,
    plan: &Plan,
    steps: &[Step],
) -> Result<(), NoMemory>
    requires { AllByRecursion (IsStepWithin (length plan.now.contexts) (length plan.now.patterns)) steps.now }
    ensures { OnOk result (out.new.items ≡ out.old.items ++ many spec.step_text (map (named_step (lookups plan.now)) steps.now)) }
{
    write_num(out, steps.len())?;
    write_each_step(alloc, out, plan, steps)
}

fn write_each_step(
    alloc: Global,
    out: &mut Vec<u8>,
    plan: &Plan,
    steps: &[Step],
) -> Result<(), NoMemory>
    requires { AllByRecursion (IsStepWithin (length plan.now.contexts) (length plan.now.patterns)) steps.now }
    ensures { OnOk result (out.new.items ≡ out.old.items ++ flat_map spec.step_text (map (named_step (lookups plan.now)) steps.now)) }
{
    for step in steps {
        write_step(alloc, out, plan, step)?;
    }
    Ok(())
}

fn write_step(alloc: Global, out: &mut Vec<u8>, plan: &Plan, step: &Step) -> Result<(), NoMemory>
    requires { IsStepWithin (length plan.now.contexts) (length plan.now.patterns) step.now }
    ensures { OnOk result (out.new.items ≡ out.old.items ++ spec.step_text (named_step (lookups plan.now) step.now)) }
{
    match step {
        Step::Body => write_str(out, b"body"),
        Step::Str => write_str(out, b"string"),
        Step::Copy => write_str(out, b"copy"),
        Step::TemplateBody => write_str(out, b"template"),
        Step::Relativize => write_str(out, b"relativize"),
        Step::Make(text) => write_pair(out, b"make", text.as_slice()),
        Step::Save(name) => write_pair(out, b"save", name.as_slice()),
        Step::SelfApply(context) => write_pair(out, b"self", name_of(plan, *context)),
        Step::Concat(pattern) => {
            write_str(out, b"concat")?;
            write_pattern(alloc, out, plan, *pattern)
        }
        Step::Load { id, snapshot } => {
            write_str(out, b"load")?;
            write_ident(out, id)?;
            write_str(out, snapshot.as_slice())
        }
        Step::Apply { id, context } => {
            write_str(out, b"apply")?;
            write_ident(out, id)?;
            write_str(out, name_of(plan, *context))
        }
    }
}

fn write_pair(out: &mut Vec<u8>, word: &[u8], text: &[u8]) -> Result<(), NoMemory>
    ensures { OnOk result (out.new.items ≡ out.old.items ++ (str word.now ++ str text.now)) }
{
    write_str(out, word)?;
    write_str(out, text)
}

/// The text of a pattern, as it is.
fn write_pattern(
    alloc: Global,
    out: &mut Vec<u8>,
    plan: &Plan,
    number: PatternNo,
) -> Result<(), NoMemory>
    requires { number < length plan.now.patterns }
    ensures { OnOk result (out.new.items ≡ out.old.items ++ pattern_text (lookups plan.now) number) }
{
    let text = text_of_pattern(alloc, plan.pattern(number))?;
    append(out, text.as_slice())
}

fn name_of(plan: &Plan, number: ContextNo) -> &[u8]
    requires { number < length plan.now.contexts }
    ensures { result.now ≡ context_name (lookups plan.now) number }
{
    plan.context(number).name.as_slice()
}

fn write_contexts(
    alloc: Global,
    out: &mut Vec<u8>,
    plan: &Plan,
    numbers: &[u32],
) -> Result<(), NoMemory>
    requires linked { IsLinkedPlan plan.now }
    requires within { AllByRecursion (λ c. c < length plan.now.contexts) numbers.now }
    ensures { OnOk result (out.new.items ≡ out.old.items ++ many spec.context_text (map (named_context (lookups plan.now)) numbers.now)) }
{
    write_num(out, numbers.len())?;
    write_each_context(alloc, out, plan, numbers)
}

fn write_each_context(
    alloc: Global,
    out: &mut Vec<u8>,
    plan: &Plan,
    numbers: &[u32],
) -> Result<(), NoMemory>
    requires linked { IsLinkedPlan plan.now }
    requires within { AllByRecursion (λ c. c < length plan.now.contexts) numbers.now }
    ensures { OnOk result (out.new.items ≡ out.old.items ++ flat_map spec.context_text (map (named_context (lookups plan.now)) numbers.now)) }
{
    for number in numbers {
        write_context(alloc, out, plan, ContextNo(*number))?;
    }
    Ok(())
}

fn write_context(
    alloc: Global,
    out: &mut Vec<u8>,
    plan: &Plan,
    number: ContextNo,
) -> Result<(), NoMemory>
    requires linked { IsLinkedPlan plan.now }
    requires within { number < length plan.now.contexts }
    ensures { OnOk result (out.new.items ≡ out.old.items ++ spec.context_text (named_context (lookups plan.now) number)) }
{
    let named = plan.context(number);
    write_str(out, named.name.as_slice())?;
    write_num(out, named.fields.len())?;
    write_each_field(alloc, out, plan, &named.fields)
}

fn write_each_field(
    alloc: Global,
    out: &mut Vec<u8>,
    plan: &Plan,
    fields: &[Field],
) -> Result<(), NoMemory>
    requires { AllByRecursion (IsLinkedField (length plan.now.contexts) (length plan.now.patterns)) fields.now }
    ensures { OnOk result (out.new.items ≡ out.old.items ++ flat_map spec.field_text (map (named_field (lookups plan.now)) fields.now)) }
{
    for field in fields {
        write_field(alloc, out, plan, field)?;
    }
    Ok(())
}

fn write_field(alloc: Global, out: &mut Vec<u8>, plan: &Plan, field: &Field) -> Result<(), NoMemory>
    requires { IsLinkedField (length plan.now.contexts) (length plan.now.patterns) field.now }
    ensures { OnOk result (out.new.items ≡ out.old.items ++ spec.field_text (named_field (lookups plan.now) field.now)) }
{
    match field {
        Field::Body => write_str(out, b"body"),
        Field::Metadata => write_str(out, b"metadata"),
        Field::Url => write_str(out, b"url"),
        Field::Path => write_str(out, b"path"),
        Field::Title => write_str(out, b"title"),
        Field::Const(key, text) => write_keyed(out, b"const", key, text.as_slice()),
        Field::Date(key, pattern) => write_keyed(out, b"date", key, pattern.as_slice()),
        Field::Teaser(key, name) => write_keyed(out, b"teaser", key, name.as_slice()),
        Field::Bool(key, set) => write_keyed(out, b"bool", key, flag_word(*set)),
        Field::List {
            key,
            of,
            snapshot,
            order,
            limit,
            context,
        } => {
            write_pair(out, b"list", key.as_slice())?;
            write_pattern(alloc, out, plan, *of)?;
            write_str(out, snapshot.as_slice())?;
            write_str(out, order_word(*order))?;
            write_num(out, most_of(*limit))?;
            write_str(out, name_of(plan, *context))
        }
    }
}

fn write_keyed(out: &mut Vec<u8>, word: &[u8], key: &Text, text: &[u8]) -> Result<(), NoMemory>
    ensures { OnOk result (out.new.items ≡ out.old.items ++ (str word.now ++ (str key.now ++ str text.now))) }
{
    write_str(out, word)?;
    write_pair(out, key.as_slice(), text)
}

fn flag_word(set: bool) -> &'static [u8]
    ensures { str result.now ≡ spec.flag_text set }
{
    if set { b"true" } else { b"false" }
}

fn order_word(order: Order) -> &'static [u8]
    ensures { str result.now ≡ spec.order_text order }
{
    match order {
        Order::Id => b"id",
        Order::Chronological => b"chronological",
        Order::Recent => b"recent",
    }
}

/// The most items that a list gives, and 0 where it gives all.
fn most_of(limit: Option<u32>) -> usize
    ensures { num result ≡ spec.limit_text limit }
{
    match limit {
        Some(most) => most as usize,
        None => 0,
    }
}
