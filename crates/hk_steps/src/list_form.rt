// The form of a list of items, a field.
ghost use Rattle.std.specs.Prelude.{◌≡◌, IfOk, Some, option_map, option_and_then, string_bytes};
ghost use Rattle.std.specs.List.{list_all};
ghost use Rattle.std.specs.BTreeMap.{keys};
ghost use Rattle.toml.specs.Data.{get_member, as_str, as_integer};
ghost use Rattle.toml.specs.View.{view, table_view};
ghost use Rattle.hk_forms.specs.PatternForm as patterns;
ghost use Rattle.hk_steps.specs.StepForm as steps;
ghost use Rattle.hk_steps.specs.FieldForm as spec;

use crate::draft::DraftField;
use crate::field_form::key_by;
use crate::step_form::{context_by, final_name, snapshot_by};
use hk_base::{NoMemory, Text};
use hk_chain::Order;
use hk_forms::{pattern_of, text_in, value_at};
use hk_pattern::Pattern;
use std::alloc::Global;
use toml::{Table, Value};

/// The list that a table is.
pub(crate) fn list_of(alloc: Global, table: &Table) -> Result<Option<DraftField>, NoMemory>
    ensures { IfOk result (λ o. o ≡ spec.list_of (table_view table.now)) }
{
    list_by(alloc, has_list_keys(table), table)
}

fn list_by(alloc: Global, passes: bool, table: &Table) -> Result<Option<DraftField>, NoMemory>
    ensures { IfOk result (λ o. o ≡ spec.list_by passes (table_view table.now)) }
{
    if passes {
        return list_in(alloc, table);
    }
    Ok(None)
}

#[tactic(auto, unfolding(crate::specs::FieldForm::list_in))]
fn list_in(alloc: Global, table: &Table) -> Result<Option<DraftField>, NoMemory>
    ensures { IfOk result (λ o. o ≡ spec.list_in (table_view table.now)) }
{
    let key = key_by(alloc, text_at(table, "list"))?;
    let of = pattern_by(alloc, value_at(table, "of"))?;
    let snapshot = snapshot_or_final(alloc, value_at(table, "snapshot"))?;
    let order = order_or(Order::Id, value_at(table, "order"));
    let limit = limit_or_none(value_at(table, "limit"));
    let context = context_by(alloc, text_at(table, "context"))?;
    Ok(several(key, of, snapshot, order, limit, context))
}

/// The text at a key of a table. Logarithmic.
pub fn text_at<'a>(table: &'a Table, key: &str) -> Option<&'a str>
    ensures { option_map (λ s. s.now) result ≡ option_and_then as_str (get_member key.now (table_view table.now)) }
{
    match value_at(table, key) {
        Some(value) => text_in(value),
        None => None,
    }
}

/// The pattern that a value is, where there is one. `NoMemory` only for want of memory. Linear in the value.
pub fn pattern_by(alloc: Global, value: Option<&Value>) -> Result<Option<Pattern>, NoMemory>
    ensures { IfOk result (λ o. o ≡ option_and_then patterns.pattern_of (option_map (λ v. view v.now) value.entry)) }
{
    match value {
        Some(value) => pattern_of(alloc, value),
        None => Ok(None),
    }
}

/// The name of a snapshot that a value is, and `_final` where there is no value. `NoMemory` only for want of memory. Linear.
pub fn snapshot_or_final(alloc: Global, value: Option<&Value>) -> Result<Option<Text>, NoMemory>
    ensures { IfOk result (λ o. o ≡ spec.snapshot_or_final (option_map (λ v. view v.now) value.entry)) }
{
    match value {
        Some(value) => snapshot_by(alloc, text_in(value)),
        None => Ok(Some(final_name(alloc)?)),
    }
}

/// The order that a value names, and the usual one where there is no value. Constant.
pub fn order_or(usual: Order, value: Option<&Value>) -> Option<Order>
    ensures { result ≡ spec.order_or usual (option_map (λ v. view v.now) value.entry) }
{
    match value {
        Some(value) => order_named(text_in(value)),
        None => Some(usual),
    }
}

fn order_named(text: Option<&str>) -> Option<Order>
    ensures { result ≡ spec.order_named (option_map (λ s. s.now) text.entry) }
{
    match text {
        Some(word) => order_of(word),
        None => None,
    }
}

fn order_of(word: &str) -> Option<Order>
    ensures { result ≡ spec.order_named (Some word.now) }
{
    match word {
        "id" => Some(Order::Id),
        "chronological" => Some(Order::Chronological),
        "recent" => Some(Order::Recent),
        _ => None,
    }
}

fn limit_or_none(value: Option<&Value>) -> Option<Option<u32>>
    ensures { result ≡ spec.limit_or_none (option_map (λ v. view v.now) value.entry) }
{
    let Some(value) = value else {
        return Some(None);
    };
    match count_of(value) {
        Some(count) => Some(Some(count)),
        None => None,
    }
}

/// The count of items that a value is, from 1 to 65,535. Constant.
pub fn count_of(value: &Value) -> Option<u32>
    ensures { result ≡ spec.count_of (view value.now) }
{
    count_by(value.as_integer())
}

fn count_by(number: Option<i64>) -> Option<u32>
    ensures { result ≡ spec.count_by number }
{
    match number {
        Some(number) => count_within(number),
        None => None,
    }
}

fn count_within(number: i64) -> Option<u32>
    ensures { result ≡ spec.count_by (Some number) }
{
    if 1 <= number && number <= 65_535 {
        return Some(number as u32);
    }
    None
}

fn several(
    key: Option<Text>,
    of: Option<Pattern>,
    snapshot: Option<Text>,
    order: Option<Order>,
    limit: Option<Option<u32>>,
    context: Option<Text>,
) -> Option<DraftField>
    ensures { result ≡ spec.several key of snapshot order limit context }
{
    let Some(key) = key else {
        return None;
    };
    let Some(of) = of else {
        return None;
    };
    let Some(snapshot) = snapshot else {
        return None;
    };
    let Some(order) = order else {
        return None;
    };
    let Some(limit) = limit else {
        return None;
    };
    let Some(context) = context else {
        return None;
    };
    Some(DraftField::Several {
        key,
        of,
        snapshot,
        order,
        limit,
        context,
    })
}

fn has_list_keys(table: &Table) -> bool
    ensures { result ≡ list_all (λ k. spec.is_list_key (string_bytes k)) (keys table.now) }
{
    table.keys().all(|key| is_list_key(key.as_str()))
}

#[tactic(auto, unfolding(crate::specs::FieldForm::is_list_key))]
fn is_list_key(key: &str) -> bool
    ensures { result ≡ spec.is_list_key key.now }
{
    is_needed_key(key) || is_further_key(key)
}

fn is_needed_key(key: &str) -> bool
    ensures { result ≡ spec.is_needed_key key.now }
{
    key == "list" || key == "of" || key == "context"
}

fn is_further_key(key: &str) -> bool
    ensures { result ≡ spec.is_further_key key.now }
{
    key == "snapshot" || key == "order" || key == "limit"
}
