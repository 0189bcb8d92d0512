// The form of a table for numbered pages.
ghost use Rattle.std.specs.Prelude.{◌≡◌, ◌≤◌, [], IfOk, option_map};
ghost use Rattle.toml.specs.View.{table_view, items_view};
ghost use Rattle.hk_base.specs.Answers.{Answers};
ghost use Rattle.hk_rules_file.specs.PagesForm as spec;

use crate::fault::RulesFault;
use crate::numbering::{Names, Pool};
use crate::table_form::{
    TableKind, chain_at, context_at, count_at, early_fault, no_table, order_at, pattern_at,
    route_at, table_fault, text_at,
};
use crate::tables::PageRule;
use hk_base::{Refusal, Text};
use hk_chain::Order;
use hk_forms::table_in;
use hk_steps::Drafts;
use std::alloc::Global;
use toml::{Table, Value};

/// The tables that the values are, numbered from 1, and the patterns then, or the first fault.
pub(crate) fn pages_from(
    alloc: Global,
    names: &Names,
    pool: Pool,
    items: &[Value],
) -> Result<(Drafts<PageRule>, Pool), Refusal<RulesFault>>
    ensures { Answers (spec.pages_from names.now (items_view items.now) 1 pool []) result }
{
    let mut pool = pool;
    let mut tables = Drafts::new(alloc);
    let mut number = 1;
    for item in items {
        let (table, next) = pages_of(alloc, number, names, pool, table_in(item))?;
        tables.push(table)?;
        pool = next;
        number += 1;
    }
    Ok((tables, pool))
}

fn pages_of(
    alloc: Global,
    number: u32,
    names: &Names,
    pool: Pool,
    table: Option<&Table>,
) -> Result<(PageRule, Pool), Refusal<RulesFault>>
    ensures reads { Answers (spec.pages_of number names.now pool (option_map (λ m. table_view m.now) table.entry)) result }
    ensures within { IfOk result (λ r. number ≤ 64) }
{
    let Some(table) = table else {
        return Err(Refusal::Fault(no_table(alloc, TableKind::Paginate)?));
    };
    match pages_by(alloc, number, names, pool, table) {
        Ok(read) => Ok(read),
        Err(Refusal::Fault(word)) => Err(Refusal::Fault(table_fault(
            TableKind::Paginate,
            number,
            word,
        ))),
        Err(Refusal::NoMemory) => Err(Refusal::NoMemory),
    }
}

fn pages_by(
    alloc: Global,
    number: u32,
    names: &Names,
    pool: Pool,
    table: &Table,
) -> Result<(PageRule, Pool), Refusal<Text>>
    ensures reads { Answers (spec.pages_by number names.now pool (table_view table.now)) result }
    ensures within { IfOk result (λ r. number ≤ 64) }
{
    if let Some(word) = early_fault(alloc, TableKind::Paginate, number, table)? {
        return Err(Refusal::Fault(word));
    }
    pages_in(alloc, names, pool, table)
}

fn pages_in(
    alloc: Global,
    names: &Names,
    pool: Pool,
    table: &Table,
) -> Result<(PageRule, Pool), Refusal<Text>>
    ensures { Answers (spec.pages_in names.now pool (table_view table.now)) result }
{
    let of = pattern_at(alloc, "of", table)?;
    let prefix = text_at(alloc, "prefix", table)?;
    let per = count_at(alloc, "per", table)?;
    let first = text_at(alloc, "first", table)?;
    let (chain, pool) = chain_at(alloc, names, pool, table)?;
    let route = route_at(alloc, table)?;
    let context = context_at(alloc, names, "context", table)?;
    let item = context_at(alloc, names, "item", table)?;
    let order = order_at(alloc, Order::Recent, table)?;
    let table = PageRule {
        of,
        per,
        first,
        prefix,
        route,
        chain,
        context,
        item,
        order,
    };
    Ok((table, pool))
}
