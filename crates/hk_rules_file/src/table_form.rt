// What the tables for tags, numbered pages and feeds share: what stands at their keys, or the first key that is at fault.
ghost use Rattle.std.specs.Prelude.{◌≡◌, ◌≤◌, IfOk, None, option_map};
ghost use Rattle.toml.specs.View.{view, table_view};
ghost use Rattle.hk_base.specs.Answers.{Answers};
ghost use Rattle.hk_rules_file.specs.RuleForm.{first_other};
ghost use Rattle.hk_rules_file.specs.TableForm as spec;

use crate::fault::RulesFault;
use crate::linking::link_steps;
use crate::numbering::{Names, Pool};
use crate::rule_form::route_by;
use hk_base::{NoMemory, Refusal, Text};
use hk_chain::{Chain, ContextNo, Order};
use hk_forms::{text_in, value_at};
use hk_pattern::Pattern;
use hk_route::Route;
use hk_steps::{
    DraftStep, Drafts, chain_by, copy_by, count_of, default_name, order_or, pattern_by,
};
use std::alloc::Global;
use toml::{Table, Value};

/// The most tables of a kind.
const MOST_TABLES: u32 = 64;

/// What a table is for, by the key of the top table that it stands at.
#[derive(Clone, Copy)]
pub(crate) enum TableKind {
    Tags,
    Paginate,
    Feed,
}

/// The part, where there is one, and else the key that it is to stand at.
pub(crate) fn required<T: Drop>(
    alloc: Global,
    key: &str,
    part: Option<T>,
) -> Result<T, Refusal<Text>>
    ensures { Answers (spec.required key.now part) result }
{
    match part {
        Some(part) => Ok(part),
        None => Err(Refusal::Fault(Text::from_slice(alloc, key.as_bytes())?)),
    }
}

pub(crate) fn pattern_at(alloc: Global, key: &str, table: &Table) -> Result<Pattern, Refusal<Text>>
    ensures { Answers (spec.pattern_at key.now (table_view table.now)) result }
{
    let pattern = pattern_by(alloc, value_at(table, key))?;
    required(alloc, key, pattern)
}

pub(crate) fn text_at(alloc: Global, key: &str, table: &Table) -> Result<Text, Refusal<Text>>
    ensures { Answers (spec.text_at key.now (table_view table.now)) result }
{
    let text = copy_by(alloc, hk_steps::text_at(table, key))?;
    required(alloc, key, text)
}

pub(crate) fn count_at(alloc: Global, key: &str, table: &Table) -> Result<u32, Refusal<Text>>
    ensures { Answers (spec.count_at key.now (table_view table.now)) result }
{
    required(alloc, key, counted(value_at(table, key)))
}

fn counted(value: Option<&Value>) -> Option<u32>
    ensures { result ≡ spec.counted (option_map (λ v. view v.now) value.entry) }
{
    match value {
        Some(value) => count_of(value),
        None => None,
    }
}

pub(crate) fn order_at(alloc: Global, usual: Order, table: &Table) -> Result<Order, Refusal<Text>>
    ensures { Answers (spec.order_at usual (table_view table.now)) result }
{
    required(alloc, "order", order_or(usual, value_at(table, "order")))
}

pub(crate) fn route_at(alloc: Global, table: &Table) -> Result<Option<Route>, Refusal<Text>>
    ensures { Answers (spec.route_at (table_view table.now)) result }
{
    let route = route_by(alloc, value_at(table, "route"))?;
    required(alloc, "route", route)
}

/// The number of the context that is named at a key, and that of `default` where the key isn't there.
pub(crate) fn context_at(
    alloc: Global,
    names: &Names,
    key: &str,
    table: &Table,
) -> Result<ContextNo, Refusal<Text>>
    ensures { Answers (spec.context_at names.now key.now (table_view table.now)) result }
{
    let name = name_or_default(alloc, value_at(table, key))?;
    required(alloc, key, place_by(names, name))
}

fn name_or_default(alloc: Global, value: Option<&Value>) -> Result<Option<Text>, NoMemory>
    ensures { IfOk result (λ o. o ≡ spec.name_or_default (option_map (λ v. view v.now) value.entry)) }
{
    match value {
        Some(value) => copy_by(alloc, text_in(value)),
        None => Ok(Some(default_name(alloc)?)),
    }
}

fn place_by(names: &Names, name: Option<Text>) -> Option<ContextNo>
    ensures { result ≡ spec.place_by names.now name }
{
    match name {
        Some(name) => names.find(&name),
        None => None,
    }
}

/// The chain of pages that are created, and the patterns then.
pub(crate) fn chain_at(
    alloc: Global,
    names: &Names,
    pool: Pool,
    table: &Table,
) -> Result<(Chain, Pool), Refusal<Text>>
    ensures { Answers (spec.chain_at names.now pool (table_view table.now)) result }
{
    let steps = chain_by(alloc, true, value_at(table, "compile"))?;
    let linked = numbered_steps(alloc, names, pool, steps)?;
    required(alloc, "compile", linked)
}

fn numbered_steps(
    alloc: Global,
    names: &Names,
    pool: Pool,
    steps: Option<Drafts<DraftStep>>,
) -> Result<Option<(Chain, Pool)>, NoMemory>
    ensures { IfOk result (λ o. o ≡ spec.numbered_steps names.now pool steps) }
{
    let Some(steps) = steps else {
        return Ok(None);
    };
    match link_steps(alloc, 0, names, pool, steps) {
        Ok(linked) => Ok(Some(linked)),
        Err(Refusal::Fault(_)) => Ok(None),
        Err(Refusal::NoMemory) => Err(NoMemory),
    }
}

/// The least key that the table may not have, or else the first key of a table too many.
pub(crate) fn early_fault(
    alloc: Global,
    kind: TableKind,
    number: u32,
    table: &Table,
) -> Result<Option<Text>, NoMemory>
    ensures reads { IfOk result (λ o. o ≡ spec.early_fault kind number (first_other (spec.is_table_key kind) (table_view table.now))) }
    ensures within { IfOk result (λ o. o ≡ None → number ≤ 64) }
{
    if let Some(key) = other_key(alloc, kind, table)? {
        return Ok(Some(key));
    }
    if number > MOST_TABLES {
        return Ok(Some(first_key(alloc, kind)?));
    }
    Ok(None)
}

fn first_key(alloc: Global, kind: TableKind) -> Result<Text, NoMemory>
    ensures { IfOk result (λ t. t ≡ spec.first_key kind) }
{
    match kind {
        TableKind::Feed => Text::from_slice(alloc, b"kind"),
        _ => Text::from_slice(alloc, b"of"),
    }
}

fn other_key(alloc: Global, kind: TableKind, table: &Table) -> Result<Option<Text>, NoMemory>
    ensures { IfOk result (λ o. o ≡ first_other (spec.is_table_key kind) (table_view table.now)) }
{
    for (key, _value) in table.iter() {
        let key = key.as_str();
        if !is_table_key(kind, key) {
            return Ok(Some(Text::from_slice(alloc, key.as_bytes())?));
        }
    }
    Ok(None)
}

#[tactic(auto, unfolding(crate::specs::TableForm::is_table_key))]
fn is_table_key(kind: TableKind, key: &str) -> bool
    ensures { result ≡ spec.is_table_key kind key.now }
{
    match kind {
        TableKind::Tags => key == "field" || is_shared_key(key),
        TableKind::Paginate => (key == "per" || key == "first") || is_shared_key(key),
        TableKind::Feed => is_feed_key(key),
    }
}

fn is_shared_key(key: &str) -> bool
    ensures { result ≡ spec.is_shared_key key.now }
{
    ((key == "of" || key == "prefix") || (key == "compile" || key == "route"))
        || ((key == "context" || key == "item") || key == "order")
}

fn is_feed_key(key: &str) -> bool
    ensures { result ≡ spec.is_feed_key key.now }
{
    ((key == "kind" || key == "target") || (key == "of" || key == "snapshot"))
        || (key == "limit" || is_said_key(key))
}

fn is_said_key(key: &str) -> bool
    ensures { result ≡ spec.is_said_key key.now }
{
    (key == "title" || key == "description")
        || ((key == "author" || key == "root") || key == "email")
}

/// The fault of the table of this kind and number at a key.
pub(crate) fn table_fault(kind: TableKind, number: u32, word: Text) -> RulesFault
    ensures { result ≡ spec.table_fault kind number word }
{
    match kind {
        TableKind::Tags => RulesFault::BadTags { number, word },
        TableKind::Paginate => RulesFault::BadPaginate { number, word },
        TableKind::Feed => RulesFault::BadFeed { number, word },
    }
}

/// What is no table, at the key of its kind.
pub(crate) fn no_table(alloc: Global, kind: TableKind) -> Result<RulesFault, NoMemory>
    ensures { IfOk result (λ f. f ≡ spec.no_table kind) }
{
    let word = key_of(alloc, kind)?;
    Ok(RulesFault::BadRule { number: 0, word })
}

fn key_of(alloc: Global, kind: TableKind) -> Result<Text, NoMemory>
    ensures { IfOk result (λ t. t ≡ spec.key_of kind) }
{
    match kind {
        TableKind::Tags => Text::from_slice(alloc, b"tags"),
        TableKind::Paginate => Text::from_slice(alloc, b"paginate"),
        TableKind::Feed => Text::from_slice(alloc, b"feed"),
    }
}
