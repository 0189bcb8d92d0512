// The form of a table for tags.
ghost use Rattle.std.specs.Prelude.{◌≡◌, ◌≤◌, [], IfOk, option_map};
ghost use Rattle.toml.specs.View.{view, table_view, items_view};
ghost use Rattle.hk_base.specs.Answers.{Answers};
ghost use Rattle.hk_rules_file.specs.TagsForm as spec;

use crate::fault::RulesFault;
use crate::numbering::{Names, Pool};
use crate::table_form::{
    TableKind, chain_at, context_at, early_fault, no_table, order_at, pattern_at, required,
    route_at, table_fault, text_at,
};
use crate::tables::TagRule;
use hk_base::{NoMemory, Refusal, Text};
use hk_chain::Order;
use hk_forms::{table_in, text_in, value_at};
use hk_steps::{Drafts, key_by};
use std::alloc::Global;
use toml::{Table, Value};

/// The tables that the values are, numbered from 1, and the patterns then, or the first fault.
pub(crate) fn tags_from(
    alloc: Global,
    names: &Names,
    pool: Pool,
    items: &[Value],
) -> Result<(Drafts<TagRule>, Pool), Refusal<RulesFault>>
    ensures { Answers (spec.tags_from names.now (items_view items.now) 1 pool []) result }
{
    let mut pool = pool;
    let mut tables = Drafts::new(alloc);
    let mut number = 1;
    for item in items {
        let (table, next) = tags_of(alloc, number, names, pool, table_in(item))?;
        tables.push(table)?;
        pool = next;
        number += 1;
    }
    Ok((tables, pool))
}

fn tags_of(
    alloc: Global,
    number: u32,
    names: &Names,
    pool: Pool,
    table: Option<&Table>,
) -> Result<(TagRule, Pool), Refusal<RulesFault>>
    ensures reads { Answers (spec.tags_of number names.now pool (option_map (λ m. table_view m.now) table.entry)) result }
    ensures within { IfOk result (λ r. number ≤ 64) }
{
    let Some(table) = table else {
        return Err(Refusal::Fault(no_table(alloc, TableKind::Tags)?));
    };
    match tags_by(alloc, number, names, pool, table) {
        Ok(read) => Ok(read),
        Err(Refusal::Fault(word)) => Err(Refusal::Fault(table_fault(
            TableKind::Tags,
            number,
            word,
        ))),
        Err(Refusal::NoMemory) => Err(Refusal::NoMemory),
    }
}

fn tags_by(
    alloc: Global,
    number: u32,
    names: &Names,
    pool: Pool,
    table: &Table,
) -> Result<(TagRule, Pool), Refusal<Text>>
    ensures reads { Answers (spec.tags_by number names.now pool (table_view table.now)) result }
    ensures within { IfOk result (λ r. number ≤ 64) }
{
    if let Some(word) = early_fault(alloc, TableKind::Tags, number, table)? {
        return Err(Refusal::Fault(word));
    }
    tags_in(alloc, names, pool, table)
}

fn tags_in(
    alloc: Global,
    names: &Names,
    pool: Pool,
    table: &Table,
) -> Result<(TagRule, Pool), Refusal<Text>>
    ensures { Answers (spec.tags_in names.now pool (table_view table.now)) result }
{
    let of = pattern_at(alloc, "of", table)?;
    let field = field_at(alloc, table)?;
    let prefix = text_at(alloc, "prefix", table)?;
    let (chain, pool) = chain_at(alloc, names, pool, table)?;
    let route = route_at(alloc, table)?;
    let context = context_at(alloc, names, "context", table)?;
    let item = context_at(alloc, names, "item", table)?;
    let order = order_at(alloc, Order::Id, table)?;
    let table = TagRule {
        of,
        field,
        prefix,
        route,
        chain,
        context,
        item,
        order,
    };
    Ok((table, pool))
}

fn field_at(alloc: Global, table: &Table) -> Result<Text, Refusal<Text>>
    ensures { Answers (spec.field_at (table_view table.now)) result }
{
    let field = key_or_tags(alloc, value_at(table, "field"))?;
    required(alloc, "field", field)
}

fn key_or_tags(alloc: Global, value: Option<&Value>) -> Result<Option<Text>, NoMemory>
    ensures { IfOk result (λ o. o ≡ spec.key_or_tags (option_map (λ v. view v.now) value.entry)) }
{
    match value {
        Some(value) => key_by(alloc, text_in(value)),
        None => Ok(Some(Text::from_slice(alloc, b"tags")?)),
    }
}
