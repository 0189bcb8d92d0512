// Whether two chains are the same.
ghost use Rattle.std.specs.Prelude.{◌≡◌};
ghost use Rattle.std.specs.Bool.{OnTrue};
ghost use Rattle.hk_chain.specs.declared.chain.Step.TheVariants as steps;

use hk_base::{Identifier, Text};
use hk_chain::{Chain, ContextNo, PatternNo, Step};

/// Whether two chains have the same steps. Linear in the shorter one's text.
pub(crate) fn is_same_chain(one: &Chain, other: &Chain) -> bool
    ensures { OnTrue result (one.now ≡ other.now) }
{
    are_same_steps(&one.steps, &other.steps)
}

fn are_same_steps(one: &[Step], other: &[Step]) -> bool
    ensures { OnTrue result (one.now ≡ other.now) }
{
    if one.len() != other.len() {
        return false;
    }
    for i in 0..one.len() {
        if !is_same_step(&one[i], &other[i]) {
            return false;
        }
    }
    true
}

fn is_same_step(one: &Step, other: &Step) -> bool
    ensures { OnTrue result (one.now ≡ other.now) }
{
    match one {
        Step::Body => matches!(other, Step::Body),
        Step::Str => matches!(other, Step::Str),
        Step::Copy => matches!(other, Step::Copy),
        Step::TemplateBody => matches!(other, Step::TemplateBody),
        Step::Relativize => matches!(other, Step::Relativize),
        Step::Make(text) => makes(other, text),
        Step::Save(name) => saves(other, name),
        Step::SelfApply(context) => applies_self(other, *context),
        Step::Concat(pattern) => concats(other, *pattern),
        Step::Load { id, snapshot } => loads(other, id, snapshot),
        Step::Apply { id, context } => applies(other, id, *context),
    }
}

fn makes(step: &Step, text: &Text) -> bool
    ensures { OnTrue result (steps.Make text.now ≡ step.now) }
{
    match step {
        Step::Make(own) => text.as_slice() == own.as_slice(),
        _ => false,
    }
}

fn saves(step: &Step, name: &Text) -> bool
    ensures { OnTrue result (steps.Save name.now ≡ step.now) }
{
    match step {
        Step::Save(own) => name.as_slice() == own.as_slice(),
        _ => false,
    }
}

fn applies_self(step: &Step, context: ContextNo) -> bool
    ensures { OnTrue result (steps.SelfApply context ≡ step.now) }
{
    match step {
        Step::SelfApply(own) => context.0 == own.0,
        _ => false,
    }
}

fn concats(step: &Step, pattern: PatternNo) -> bool
    ensures { OnTrue result (steps.Concat pattern ≡ step.now) }
{
    match step {
        Step::Concat(own) => pattern.0 == own.0,
        _ => false,
    }
}

fn loads(step: &Step, wanted: &Identifier, name: &Text) -> bool
    ensures { OnTrue result (steps.Load wanted.now name.now ≡ step.now) }
{
    match step {
        Step::Load { id, snapshot } => is_same_id(wanted, id) && is_same_text(name, snapshot),
        _ => false,
    }
}

fn applies(step: &Step, wanted: &Identifier, number: ContextNo) -> bool
    ensures { OnTrue result (steps.Apply wanted.now number ≡ step.now) }
{
    match step {
        Step::Apply { id, context } => is_same_id(wanted, id) && number.0 == context.0,
        _ => false,
    }
}

fn is_same_id(one: &Identifier, other: &Identifier) -> bool
    ensures { OnTrue result (one.now ≡ other.now) }
{
    one == other
}

fn is_same_text(one: &Text, other: &Text) -> bool
    ensures { OnTrue result (one.now ≡ other.now) }
{
    one.as_slice() == other.as_slice()
}
