// The form of a step, and of a whole chain.
ghost use Rattle.std.specs.Prelude.{◌≡◌, IfOk, Some, option_map};
ghost use Rattle.toml.specs.Data.{as_str, as_array, as_table};
ghost use Rattle.toml.specs.View.{view, table_view, items_view};
ghost use Rattle.hk_forms.specs.Members as members;
ghost use Rattle.hk_forms.specs.IdForm as ids;
ghost use Rattle.hk_chain.specs.Names as built_in;
ghost use Rattle.hk_steps.specs.StepForm as spec;
ghost use Rattle.hk_steps.specs.declared.draft.DraftStep.TheVariants as made;
ghost use Rattle.hk_chain.specs.declared.chain.Step.TheVariants as step;

use crate::draft::{DraftStep, Drafts};
use hk_base::{Identifier, NoMemory, Text};
use hk_chain::Step;
use hk_forms::{
    both, id_of, is_context_name, is_snapshot_name, items_in, only, pattern_of, table_in, text_in,
};
use hk_pattern::Pattern;
use std::alloc::Global;
use toml::{Table, Value};

/// The most steps of a chain.
const MOST_STEPS: usize = 64;

/// How many steps of a chain may save.
const MOST_SAVES: usize = 16;

/// The name of the page that an item ends with.
pub(crate) fn final_name(alloc: Global) -> Result<Text, NoMemory>
    ensures { IfOk result (λ t. t ≡ built_in.final_name) }
{
    Text::from_slice(alloc, b"_final")
}

/// The name of the context that is built in. `NoMemory` only for want of memory. Constant.
pub fn default_name(alloc: Global) -> Result<Text, NoMemory>
    ensures { IfOk result (λ t. t ≡ spec.default_name) }
{
    Text::from_slice(alloc, b"default")
}

/// The text as the name of a context.
pub(crate) fn context_by(alloc: Global, text: Option<&str>) -> Result<Option<Text>, NoMemory>
    ensures { IfOk result (λ o. o ≡ spec.context_by (option_map (λ s. s.now) text.entry)) }
{
    match text {
        Some(text) if is_context_name(text.as_bytes()) => {
            Ok(Some(Text::from_slice(alloc, text.as_bytes())?))
        }
        _ => Ok(None),
    }
}

/// The text as the name of a snapshot.
pub(crate) fn snapshot_by(alloc: Global, text: Option<&str>) -> Result<Option<Text>, NoMemory>
    ensures { IfOk result (λ o. o ≡ spec.snapshot_by (option_map (λ s. s.now) text.entry)) }
{
    match text {
        Some(text) if is_snapshot_name(text.as_bytes()) => {
            Ok(Some(Text::from_slice(alloc, text.as_bytes())?))
        }
        _ => Ok(None),
    }
}

/// The steps of a chain, of an item that is created or not, by the value at its key, where there is one.
/// `NoMemory` only for want of memory. Linear in the value.
pub fn chain_by(
    alloc: Global,
    created: bool,
    value: Option<&Value>,
) -> Result<Option<Drafts<DraftStep>>, NoMemory>
    ensures { IfOk result (λ o. o ≡ spec.chain_by created (option_map (λ v. view v.now) value.entry)) }
{
    match value {
        Some(value) => steps_by(alloc, created, items_in(value)),
        None => Ok(None),
    }
}

fn steps_by(
    alloc: Global,
    created: bool,
    items: Option<&[Value]>,
) -> Result<Option<Drafts<DraftStep>>, NoMemory>
    ensures { IfOk result (λ o. o ≡ spec.steps_by created (option_map (λ s. items_view s.now) items.entry)) }
{
    match items {
        Some(items) => steps_in(alloc, created, items),
        None => Ok(None),
    }
}

fn steps_in(
    alloc: Global,
    created: bool,
    items: &[Value],
) -> Result<Option<Drafts<DraftStep>>, NoMemory>
    ensures { IfOk result (λ o. o ≡ spec.steps_in created (items_view items.now)) }
{
    if fits_chain(items.len()) {
        return Ok(few_saves(each_step(alloc, created, items)?));
    }
    Ok(None)
}

fn fits_chain(count: usize) -> bool
    ensures { result ≡ spec.fits_chain count }
{
    1 <= count && count <= MOST_STEPS
}

fn few_saves(steps: Option<Drafts<DraftStep>>) -> Option<Drafts<DraftStep>>
    ensures { result ≡ spec.few_saves steps }
{
    match steps {
        Some(steps) if saves_fit(steps.as_slice()) => Some(steps),
        _ => None,
    }
}

fn saves_fit(steps: &[DraftStep]) -> bool
    ensures { result ≡ members.fits spec.saves_of spec.most_saves steps.now }
{
    let mut room = MOST_SAVES;
    for step in steps {
        let weight = saves_of(step);
        if room < weight {
            return false;
        }
        room -= weight;
    }
    true
}

#[tactic(auto, unfolding(crate::specs::StepForm::saves_of))]
fn saves_of(step: &DraftStep) -> usize
    ensures { result ≡ spec.saves_of step.now }
{
    match step {
        DraftStep::Ready(Step::Save(_)) => 1,
        _ => 0,
    }
}

fn each_step(
    alloc: Global,
    created: bool,
    items: &[Value],
) -> Result<Option<Drafts<DraftStep>>, NoMemory>
    ensures { IfOk result (λ o. o ≡ members.each (spec.step_of created) (items_view items.now)) }
{
    let mut steps = Drafts::new(alloc);
    for item in items {
        match step_of(alloc, created, item)? {
            Some(step) => steps.push(step)?,
            None => return Ok(None),
        }
    }
    Ok(Some(steps))
}

fn step_of(alloc: Global, created: bool, value: &Value) -> Result<Option<DraftStep>, NoMemory>
    ensures { IfOk result (λ o. o ≡ spec.step_of created (view value.now)) }
{
    step_by(alloc, created, text_in(value), table_in(value))
}

fn step_by(
    alloc: Global,
    created: bool,
    text: Option<&str>,
    table: Option<&Table>,
) -> Result<Option<DraftStep>, NoMemory>
    ensures { IfOk result (λ o. o ≡ spec.step_by created (option_map (λ s. s.now) text.entry) (option_map (λ m. table_view m.now) table.entry)) }
{
    match text {
        Some(word) => Ok(ready(word_step(created, word))),
        None => in_table(alloc, table),
    }
}

fn ready(step: Option<Step>) -> Option<DraftStep>
    ensures { result ≡ option_map made.Ready step }
{
    match step {
        Some(step) => Some(DraftStep::Ready(step)),
        None => None,
    }
}

fn word_step(created: bool, word: &str) -> Option<Step>
    ensures { result ≡ spec.word_step created word.now }
{
    if word == "relativize" {
        return Some(Step::Relativize);
    }
    if created {
        return None;
    }
    match word {
        "body" => Some(Step::Body),
        "string" => Some(Step::Str),
        "copy" => Some(Step::Copy),
        "template" => Some(Step::TemplateBody),
        _ => None,
    }
}

fn in_table(alloc: Global, table: Option<&Table>) -> Result<Option<DraftStep>, NoMemory>
    ensures { IfOk result (λ o. o ≡ spec.in_table (option_map (λ m. table_view m.now) table.entry)) }
{
    match table {
        Some(table) => {
            let loaded = both(table, "load", "snapshot");
            let applied = both(table, "apply", "context");
            table_by(alloc, only(table), loaded, applied)
        }
        None => Ok(None),
    }
}

fn table_by(
    alloc: Global,
    member: Option<(&str, &Value)>,
    loaded: Option<(&Value, &Value)>,
    applied: Option<(&Value, &Value)>,
) -> Result<Option<DraftStep>, NoMemory>
    ensures { IfOk result (λ o. o ≡ spec.table_by (option_map (λ p. (p.0.now, view p.1.now)) member.entry) (option_map (λ p. (view p.0.now, view p.1.now)) loaded.entry) (option_map (λ p. (view p.0.now, view p.1.now)) applied.entry)) }
{
    match member {
        Some((key, value)) => keyed(alloc, key, value),
        None => paired(alloc, loaded, applied),
    }
}

fn paired(
    alloc: Global,
    loaded: Option<(&Value, &Value)>,
    applied: Option<(&Value, &Value)>,
) -> Result<Option<DraftStep>, NoMemory>
    ensures { IfOk result (λ o. o ≡ spec.paired (option_map (λ p. (view p.0.now, view p.1.now)) loaded.entry) (option_map (λ p. (view p.0.now, view p.1.now)) applied.entry)) }
{
    match loaded {
        Some((id, snapshot)) => {
            let id = id_of(alloc, id)?;
            let snapshot = snapshot_by(alloc, text_in(snapshot))?;
            Ok(load_by(id, snapshot))
        }
        None => apply_pair(alloc, applied),
    }
}

fn apply_pair(
    alloc: Global,
    applied: Option<(&Value, &Value)>,
) -> Result<Option<DraftStep>, NoMemory>
    ensures { IfOk result (λ o. o ≡ spec.apply_pair (option_map (λ p. (view p.0.now, view p.1.now)) applied.entry)) }
{
    match applied {
        Some((id, context)) => {
            let id = id_of(alloc, id)?;
            let context = context_by(alloc, text_in(context))?;
            Ok(apply_by(id, context))
        }
        None => Ok(None),
    }
}

fn load_by(id: Option<Identifier>, snapshot: Option<Text>) -> Option<DraftStep>
    ensures { result ≡ spec.load_by id snapshot }
{
    let Some(id) = id else {
        return None;
    };
    let Some(snapshot) = snapshot else {
        return None;
    };
    Some(DraftStep::Ready(Step::Load { id, snapshot }))
}

fn apply_by(id: Option<Identifier>, context: Option<Text>) -> Option<DraftStep>
    ensures { result ≡ spec.apply_by id context }
{
    let Some(id) = id else {
        return None;
    };
    let Some(context) = context else {
        return None;
    };
    Some(DraftStep::Apply { id, context })
}

fn keyed(alloc: Global, key: &str, value: &Value) -> Result<Option<DraftStep>, NoMemory>
    ensures { IfOk result (λ o. o ≡ spec.keyed key.now (view value.now)) }
{
    if key == "make" {
        return make_of(alloc, text_in(value));
    }
    if key == "load" {
        return load_of(alloc, value);
    }
    if key == "concat" {
        return Ok(concat_of(pattern_of(alloc, value)?));
    }
    if key == "apply" {
        return apply_of(alloc, value);
    }
    if key == "self" {
        return Ok(self_of(context_by(alloc, text_in(value))?));
    }
    if key == "save" {
        return Ok(save_of(snapshot_by(alloc, text_in(value))?));
    }
    Ok(None)
}

fn make_of(alloc: Global, text: Option<&str>) -> Result<Option<DraftStep>, NoMemory>
    ensures { IfOk result (λ o. o ≡ option_map (λ text. made.Ready (step.Make text)) (option_map (λ s. s.now) text.entry)) }
{
    let Some(text) = text else {
        return Ok(None);
    };
    let text = Text::from_slice(alloc, text.as_bytes())?;
    Ok(Some(DraftStep::Ready(Step::Make(text))))
}

fn load_of(alloc: Global, value: &Value) -> Result<Option<DraftStep>, NoMemory>
    ensures { IfOk result (λ o. o ≡ spec.load_by (ids.id_of (view value.now)) (Some built_in.final_name)) }
{
    let id = id_of(alloc, value)?;
    let snapshot = final_name(alloc)?;
    Ok(load_by(id, Some(snapshot)))
}

fn apply_of(alloc: Global, value: &Value) -> Result<Option<DraftStep>, NoMemory>
    ensures { IfOk result (λ o. o ≡ spec.apply_by (ids.id_of (view value.now)) (Some spec.default_name)) }
{
    let id = id_of(alloc, value)?;
    let context = default_name(alloc)?;
    Ok(apply_by(id, Some(context)))
}

fn concat_of(pattern: Option<Pattern>) -> Option<DraftStep>
    ensures { result ≡ option_map made.Concat pattern }
{
    match pattern {
        Some(pattern) => Some(DraftStep::Concat(pattern)),
        None => None,
    }
}

fn self_of(context: Option<Text>) -> Option<DraftStep>
    ensures { result ≡ option_map made.SelfApply context }
{
    match context {
        Some(context) => Some(DraftStep::SelfApply(context)),
        None => None,
    }
}

fn save_of(name: Option<Text>) -> Option<DraftStep>
    ensures { result ≡ option_map (λ name. made.Ready (step.Save name)) name }
{
    match name {
        Some(name) => Some(DraftStep::Ready(Step::Save(name))),
        None => None,
    }
}
