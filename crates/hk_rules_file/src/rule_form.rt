// The form of a rule.
ghost use Rattle.std.specs.Prelude.{◌≡◌, ◌≤◌, [], length, IfOk, Ok, option_map, is_some};
ghost use Rattle.toml.specs.View.{view, table_view, items_view};
ghost use Rattle.hk_base.specs.Answers.{Answers};
ghost use Rattle.hk_forms.specs.IdForm as ids;
ghost use Rattle.hk_forms.specs.PatternForm as patterns;
ghost use Rattle.hk_forms.specs.RouteForm as routes;
ghost use Rattle.hk_rules_file.specs.RuleForm as spec;

use crate::draft_rule::DraftRule;
use crate::fault::RulesFault;
use crate::linking::link_steps;
use crate::numbering::{Names, Pool};
use crate::rules::{Rule, RuleSource};
use hk_base::{Identifier, NoMemory, Refusal, Text};
use hk_forms::{items_in, paths_listed, pattern_of, route_of, table_in, value_at, version_of};
use hk_pattern::{Items, Pattern};
use hk_route::Route;
use hk_steps::{DraftStep, Drafts, chain_by};
use std::alloc::Global;
use toml::{Table, Value};

/// The rules that the values are, numbered from 1, and the patterns then, or the first fault.
pub(crate) fn rules_from(
    alloc: Global,
    names: &Names,
    pool: Pool,
    items: &[Value],
) -> Result<(Drafts<Rule>, Pool), Refusal<RulesFault>>
    requires { length items.now ≤ 1024 }
    ensures { Answers (spec.rules_from names.now (items_view items.now) 1 pool []) result }
{
    let mut pool = pool;
    let mut rules = Drafts::new(alloc);
    for (index, item) in items.iter().enumerate() {
        let number = index as u32 + 1;
        let (rule, next) = rule_by(alloc, number, names, pool, table_in(item))?;
        rules.push(rule)?;
        pool = next;
    }
    Ok((rules, pool))
}

fn rule_by(
    alloc: Global,
    number: u32,
    names: &Names,
    pool: Pool,
    table: Option<&Table>,
) -> Result<(Rule, Pool), Refusal<RulesFault>>
    ensures { Answers (spec.rule_by number names.now pool (option_map (λ m. table_view m.now) table.entry)) result }
{
    let Some(table) = table else {
        let word = Text::from_slice(alloc, b"rule")?;
        return Err(Refusal::Fault(RulesFault::BadRule { number: 0, word }));
    };
    rule_in(alloc, number, names, pool, table)
}

fn rule_in(
    alloc: Global,
    number: u32,
    names: &Names,
    pool: Pool,
    table: &Table,
) -> Result<(Rule, Pool), Refusal<RulesFault>>
    ensures { Answers (spec.numbered_rule number names.now pool (spec.draft_in number (table_view table.now))) result }
{
    let draft = draft_in(alloc, number, table)?;
    finished(alloc, number, names, pool, draft)
}

fn finished(
    alloc: Global,
    number: u32,
    names: &Names,
    pool: Pool,
    draft: DraftRule,
) -> Result<(Rule, Pool), Refusal<RulesFault>>
    ensures { Answers (spec.numbered_rule number names.now pool (Ok draft)) result }
{
    let DraftRule {
        source,
        version,
        route,
        steps,
    } = draft;
    let (chain, pool) = link_steps(alloc, number, names, pool, steps)?;
    let rule = Rule {
        source,
        version,
        route,
        chain,
    };
    Ok((rule, pool))
}

fn draft_in(alloc: Global, number: u32, table: &Table) -> Result<DraftRule, Refusal<RulesFault>>
    ensures { Answers (spec.draft_in number (table_view table.now)) result }
{
    let other = other_key(alloc, table)?;
    let source = source_in(alloc, table)?;
    let version = version_by(alloc, value_at(table, "version"))?;
    let route = route_by(alloc, value_at(table, "route"))?;
    let steps = steps_in(alloc, table)?;
    draft_by(alloc, number, other, source, version, route, steps)
}

fn draft_by(
    alloc: Global,
    number: u32,
    other: Option<Text>,
    source: Result<RuleSource, Text>,
    version: Option<Option<Text>>,
    route: Option<Option<Route>>,
    steps: Option<Drafts<DraftStep>>,
) -> Result<DraftRule, Refusal<RulesFault>>
    ensures { Answers (spec.draft_by number other source version route steps) result }
{
    if let Some(word) = other {
        return Err(Refusal::Fault(RulesFault::BadRule { number, word }));
    }
    match source {
        Ok(source) => with_version(alloc, number, source, version, route, steps),
        Err(word) => Err(Refusal::Fault(RulesFault::BadRule { number, word })),
    }
}

fn with_version(
    alloc: Global,
    number: u32,
    source: RuleSource,
    version: Option<Option<Text>>,
    route: Option<Option<Route>>,
    steps: Option<Drafts<DraftStep>>,
) -> Result<DraftRule, Refusal<RulesFault>>
    ensures { Answers (spec.with_version number source version route steps) result }
{
    let Some(version) = version else {
        let word = Text::from_slice(alloc, b"version")?;
        return Err(Refusal::Fault(RulesFault::BadRule { number, word }));
    };
    let Some(route) = route else {
        let word = Text::from_slice(alloc, b"route")?;
        return Err(Refusal::Fault(RulesFault::BadRule { number, word }));
    };
    let Some(steps) = steps else {
        let word = Text::from_slice(alloc, b"compile")?;
        return Err(Refusal::Fault(RulesFault::BadRule { number, word }));
    };
    Ok(DraftRule {
        source,
        version,
        route,
        steps,
    })
}

fn other_key(alloc: Global, table: &Table) -> Result<Option<Text>, NoMemory>
    ensures { IfOk result (λ o. o ≡ spec.first_other spec.is_rule_key (table_view table.now)) }
{
    for (key, _value) in table.iter() {
        let key = key.as_str();
        if !is_rule_key(key) {
            return Ok(Some(Text::from_slice(alloc, key.as_bytes())?));
        }
    }
    Ok(None)
}

#[tactic(auto, unfolding(crate::specs::RuleForm::is_rule_key))]
fn is_rule_key(key: &str) -> bool
    ensures { result ≡ spec.is_rule_key key.now }
{
    (key == "match" || key == "create" || key == "version") || (key == "route" || key == "compile")
}

#[tactic(auto, unfolding(crate::specs::RuleForm::source_in))]
fn source_in(alloc: Global, table: &Table) -> Result<Result<RuleSource, Text>, NoMemory>
    ensures { IfOk result (λ r. r ≡ spec.source_in (table_view table.now)) }
{
    let matched = match_by(alloc, value_at(table, "match"))?;
    let created = create_by(alloc, value_at(table, "create"))?;
    source_by(alloc, matched, created)
}

fn source_by(
    alloc: Global,
    matched: Option<Option<Pattern>>,
    created: Option<Option<Items<Identifier>>>,
) -> Result<Result<RuleSource, Text>, NoMemory>
    ensures { IfOk result (λ r. r ≡ spec.source_by matched created) }
{
    let Some(matched) = matched else {
        return Ok(Err(Text::from_slice(alloc, b"match")?));
    };
    match matched {
        Some(pattern) => matched_by(alloc, pattern, created),
        None => created_by(alloc, created),
    }
}

fn matched_by(
    alloc: Global,
    pattern: Pattern,
    created: Option<Option<Items<Identifier>>>,
) -> Result<Result<RuleSource, Text>, NoMemory>
    ensures { IfOk result (λ r. r ≡ spec.matched_by pattern created) }
{
    match created {
        Some(None) => Ok(Ok(RuleSource::Match(pattern))),
        _ => Ok(Err(Text::from_slice(alloc, b"create")?)),
    }
}

fn created_by(
    alloc: Global,
    created: Option<Option<Items<Identifier>>>,
) -> Result<Result<RuleSource, Text>, NoMemory>
    ensures { IfOk result (λ r. r ≡ spec.created_by created) }
{
    let Some(created) = created else {
        return Ok(Err(Text::from_slice(alloc, b"create")?));
    };
    match created {
        Some(ids) => Ok(Ok(RuleSource::Create(ids))),
        None => Ok(Err(Text::from_slice(alloc, b"match")?)),
    }
}

#[tactic(auto, unfolding(crate::specs::RuleForm::steps_in))]
fn steps_in(alloc: Global, table: &Table) -> Result<Option<Drafts<DraftStep>>, NoMemory>
    ensures { IfOk result (λ o. o ≡ spec.steps_in (table_view table.now)) }
{
    let created = is_there(value_at(table, "create"));
    chain_by(alloc, created, value_at(table, "compile"))
}

fn is_there(value: Option<&Value>) -> bool
    ensures { result ≡ is_some (option_map (λ v. view v.now) value.entry) }
{
    value.is_some()
}

fn match_by(alloc: Global, value: Option<&Value>) -> Result<Option<Option<Pattern>>, NoMemory>
    ensures { IfOk result (λ o. o ≡ spec.optional patterns.pattern_of (option_map (λ v. view v.now) value.entry)) }
{
    let Some(value) = value else {
        return Ok(Some(None));
    };
    match pattern_of(alloc, value)? {
        Some(pattern) => Ok(Some(Some(pattern))),
        None => Ok(None),
    }
}

fn create_by(
    alloc: Global,
    value: Option<&Value>,
) -> Result<Option<Option<Items<Identifier>>>, NoMemory>
    ensures { IfOk result (λ o. o ≡ spec.optional spec.paths_of (option_map (λ v. view v.now) value.entry)) }
{
    let Some(value) = value else {
        return Ok(Some(None));
    };
    match paths_by(alloc, items_in(value))? {
        Some(paths) => Ok(Some(Some(paths))),
        None => Ok(None),
    }
}

fn paths_by(alloc: Global, items: Option<&[Value]>) -> Result<Option<Items<Identifier>>, NoMemory>
    ensures { IfOk result (λ o. o ≡ spec.paths_by (option_map (λ s. items_view s.now) items.entry)) }
{
    match items {
        Some(items) => paths_listed(alloc, items),
        None => Ok(None),
    }
}

fn version_by(alloc: Global, value: Option<&Value>) -> Result<Option<Option<Text>>, NoMemory>
    ensures { IfOk result (λ o. o ≡ spec.optional ids.version_of (option_map (λ v. view v.now) value.entry)) }
{
    let Some(value) = value else {
        return Ok(Some(None));
    };
    match version_of(alloc, value)? {
        Some(version) => Ok(Some(Some(version))),
        None => Ok(None),
    }
}

/// The route that a value is, where there is one.
pub(crate) fn route_by(
    alloc: Global,
    value: Option<&Value>,
) -> Result<Option<Option<Route>>, NoMemory>
    ensures { IfOk result (λ o. o ≡ spec.optional routes.route_of (option_map (λ v. view v.now) value.entry)) }
{
    let Some(value) = value else {
        return Ok(Some(None));
    };
    match route_of(alloc, value)? {
        Some(route) => Ok(Some(Some(route))),
        None => Ok(None),
    }
}
