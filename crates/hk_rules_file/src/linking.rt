// Steps, with numbers in place of the contexts and the patterns that they name.
ghost use Rattle.std.specs.Prelude.{◌≡◌, [], Ok};
ghost use Rattle.std.specs.List.{list_any};
ghost use Rattle.hk_base.specs.Answers.{Answers};
ghost use Rattle.hk_rules_file.specs.Numbering as numbering;
ghost use Rattle.hk_rules_file.specs.Linking as spec;
ghost use Rattle.hk_rules_file.specs.Saves as saves;

use crate::fault::RulesFault;
use crate::numbering::{Names, Pool};
use crate::saves::saved;
use hk_base::{Identifier, Refusal, Text};
use hk_chain::{Chain, Step};
use hk_pattern::Pattern;
use hk_steps::{DraftStep, Drafts};
use std::alloc::Global;

/// The chain of the steps of the rule with this number, and the patterns then.
pub(crate) fn link_steps(
    alloc: Global,
    number: u32,
    names: &Names,
    pool: Pool,
    drafts: Drafts<DraftStep>,
) -> Result<(Chain, Pool), Refusal<RulesFault>>
    ensures { Answers (spec.link_steps number names.now drafts pool []) result }
{
    let mut pool = pool;
    let mut steps = Vec::new(alloc);
    for draft in drafts.into_vec() {
        let (step, next) = link_step(alloc, number, names, pool, &steps, draft)?;
        pool = next;
        steps.push(step)?;
    }
    Ok((Chain { steps }, pool))
}

fn link_step(
    alloc: Global,
    number: u32,
    names: &Names,
    pool: Pool,
    done: &[Step],
    draft: DraftStep,
) -> Result<(Step, Pool), Refusal<RulesFault>>
    ensures { Answers (spec.link_step number names.now pool done.now draft) result }
{
    match draft {
        DraftStep::Ready(step) => ready_step(alloc, number, pool, done, step),
        DraftStep::Concat(pattern) => concat_step(alloc, pool, pattern),
        DraftStep::Apply { id, context } => apply_step(number, names, pool, id, context),
        DraftStep::SelfApply(context) => self_step(number, names, pool, context),
    }
}

fn ready_step(
    alloc: Global,
    number: u32,
    pool: Pool,
    done: &[Step],
    step: Step,
) -> Result<(Step, Pool), Refusal<RulesFault>>
    ensures { Answers (spec.ready_by number pool done.now step (saves.saved step)) result }
{
    if let Some(name) = saved(&step) {
        if has_save(done, name) {
            let name = Text::from_slice(alloc, name)?;
            return Err(Refusal::Fault(RulesFault::DoubleSnapshot { number, name }));
        }
    }
    Ok((step, pool))
}

fn has_save(done: &[Step], name: &[u8]) -> bool
    ensures { result ≡ list_any (spec.saves_as name.now) done.now }
{
    done.iter().any(|step| saves_as(name, step))
}

fn saves_as(name: &[u8], step: &Step) -> bool
    ensures { result ≡ spec.saves_as name.now step.now }
{
    match saved(step) {
        Some(other) => other == name,
        None => false,
    }
}

fn concat_step(
    alloc: Global,
    pool: Pool,
    pattern: Pattern,
) -> Result<(Step, Pool), Refusal<RulesFault>>
    ensures { Answers (Ok (spec.concat_step (numbering.numbered pool pattern))) result }
{
    let (number, pool) = pool.number(alloc, pattern)?;
    Ok((Step::Concat(number), pool))
}

fn apply_step(
    number: u32,
    names: &Names,
    pool: Pool,
    id: Identifier,
    name: Text,
) -> Result<(Step, Pool), Refusal<RulesFault>>
    ensures { Answers (spec.apply_step number pool id name (numbering.place_of name names.now)) result }
{
    match names.find(&name) {
        Some(context) => Ok((Step::Apply { id, context }, pool)),
        None => Err(Refusal::Fault(RulesFault::UnknownContext { number, name })),
    }
}

fn self_step(
    number: u32,
    names: &Names,
    pool: Pool,
    name: Text,
) -> Result<(Step, Pool), Refusal<RulesFault>>
    ensures { Answers (spec.self_step number pool name (numbering.place_of name names.now)) result }
{
    match names.find(&name) {
        Some(context) => Ok((Step::SelfApply(context), pool)),
        None => Err(Refusal::Fault(RulesFault::UnknownContext { number, name })),
    }
}
