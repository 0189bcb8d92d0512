// The form of a field, and of a whole context.
ghost use Rattle.std.specs.Prelude.{◌≡◌, IfOk, option_map, option_and_then};
ghost use Rattle.toml.specs.Data.{as_str, as_array, as_table, as_bool, as_integer};
ghost use Rattle.toml.specs.View.{view, table_view, items_view};
ghost use Rattle.hk_forms.specs.Members as members;
ghost use Rattle.hk_steps.specs.StepForm as steps;
ghost use Rattle.hk_steps.specs.FieldForm as spec;

use crate::draft::{DraftField, Drafts};
use crate::list_form::list_of;
use crate::step_form::snapshot_by;
use hk_base::{NoMemory, Text, is_key};
use hk_chain::Field;
use hk_forms::{items_in, only, only_in, table_in, text_in, two};
use hk_meta::pattern_ok;
use std::alloc::Global;
use toml::{Table, Value};

/// The most fields of a context.
const MOST_FIELDS: usize = 64;

/// The fields of the context that a value is. `NoMemory` only for want of memory. Linear in the value.
pub fn context_fields(alloc: Global, value: &Value) -> Result<Option<Drafts<DraftField>>, NoMemory>
    ensures { IfOk result (λ o. o ≡ spec.context_fields (view value.now)) }
{
    fields_at(alloc, only_in(value))
}

fn fields_at(
    alloc: Global,
    member: Option<(&str, &Value)>,
) -> Result<Option<Drafts<DraftField>>, NoMemory>
    ensures { IfOk result (λ o. o ≡ spec.fields_at (option_map (λ p. (p.0.now, view p.1.now)) member.entry)) }
{
    match member {
        Some((key, value)) if key == "fields" => fields_by(alloc, items_in(value)),
        _ => Ok(None),
    }
}

fn fields_by(alloc: Global, items: Option<&[Value]>) -> Result<Option<Drafts<DraftField>>, NoMemory>
    ensures { IfOk result (λ o. o ≡ spec.fields_by (option_map (λ s. items_view s.now) items.entry)) }
{
    match items {
        Some(items) => fields_in(alloc, items),
        None => Ok(None),
    }
}

fn fields_in(alloc: Global, items: &[Value]) -> Result<Option<Drafts<DraftField>>, NoMemory>
    ensures { IfOk result (λ o. o ≡ spec.fields_in (items_view items.now)) }
{
    if fits_context(items.len()) {
        return Ok(not_wide(each_field(alloc, items)?));
    }
    Ok(None)
}

fn fits_context(count: usize) -> bool
    ensures { result ≡ spec.fits_context count }
{
    count <= MOST_FIELDS
}

fn not_wide(fields: Option<Drafts<DraftField>>) -> Option<Drafts<DraftField>>
    ensures { result ≡ spec.not_wide fields }
{
    match fields {
        Some(fields) if widths_fit(fields.as_slice()) => Some(fields),
        _ => None,
    }
}

fn each_field(alloc: Global, items: &[Value]) -> Result<Option<Drafts<DraftField>>, NoMemory>
    ensures { IfOk result (λ o. o ≡ members.each spec.field_of (items_view items.now)) }
{
    let mut fields = Drafts::new(alloc);
    for item in items {
        match field_of(alloc, item)? {
            Some(field) => fields.push(field)?,
            None => return Ok(None),
        }
    }
    Ok(Some(fields))
}

fn field_of(alloc: Global, value: &Value) -> Result<Option<DraftField>, NoMemory>
    ensures { IfOk result (λ o. o ≡ spec.field_of (view value.now)) }
{
    field_by(alloc, text_in(value), table_in(value))
}

fn field_by(
    alloc: Global,
    text: Option<&str>,
    table: Option<&Table>,
) -> Result<Option<DraftField>, NoMemory>
    ensures { IfOk result (λ o. o ≡ spec.field_by (option_map (λ s. s.now) text.entry) (option_map (λ m. table_view m.now) table.entry)) }
{
    match text {
        Some(word) => Ok(word_field(word)),
        None => table_by(alloc, table),
    }
}

fn word_field(word: &str) -> Option<DraftField>
    ensures { result ≡ spec.word_field word.now }
{
    match word {
        "default" => Some(DraftField::Default),
        "body" => Some(DraftField::Whole(Field::Body)),
        "metadata" => Some(DraftField::Whole(Field::Metadata)),
        "url" => Some(DraftField::Whole(Field::Url)),
        "path" => Some(DraftField::Whole(Field::Path)),
        "title" => Some(DraftField::Whole(Field::Title)),
        _ => None,
    }
}

fn table_by(alloc: Global, table: Option<&Table>) -> Result<Option<DraftField>, NoMemory>
    ensures { IfOk result (λ o. o ≡ spec.table_by (option_map (λ m. table_view m.now) table.entry)) }
{
    match table {
        Some(table) => in_table(alloc, only(table), table),
        None => Ok(None),
    }
}

fn in_table(
    alloc: Global,
    member: Option<(&str, &Value)>,
    table: &Table,
) -> Result<Option<DraftField>, NoMemory>
    ensures { IfOk result (λ o. o ≡ spec.in_table (option_map (λ p. (p.0.now, view p.1.now)) member.entry) (table_view table.now)) }
{
    match member {
        Some((word, value)) => keyed(alloc, word, value),
        None => list_of(alloc, table),
    }
}

fn keyed(alloc: Global, word: &str, value: &Value) -> Result<Option<DraftField>, NoMemory>
    ensures { IfOk result (λ o. o ≡ spec.keyed word.now (view value.now)) }
{
    keyed_by(alloc, word, two_in(value))
}

fn two_in(value: &Value) -> Option<(&Value, &Value)>
    ensures { option_map (λ p. (view p.0.now, view p.1.now)) result ≡ option_and_then members.two (as_array (view value.now)) }
{
    match items_in(value) {
        Some(items) => two(items),
        None => None,
    }
}

fn keyed_by(
    alloc: Global,
    word: &str,
    pair: Option<(&Value, &Value)>,
) -> Result<Option<DraftField>, NoMemory>
    ensures { IfOk result (λ o. o ≡ spec.keyed_by word.now (option_map (λ p. (view p.0.now, view p.1.now)) pair.entry)) }
{
    match pair {
        Some((key, value)) => paired(alloc, word, key, value),
        None => Ok(None),
    }
}

fn paired(
    alloc: Global,
    word: &str,
    key: &Value,
    value: &Value,
) -> Result<Option<DraftField>, NoMemory>
    ensures { IfOk result (λ o. o ≡ spec.paired word.now (view key.now, view value.now)) }
{
    if word == "const" {
        return const_of(alloc, key, value);
    }
    if word == "date" {
        return date_of(alloc, key, value);
    }
    if word == "bool" {
        return flag_of(alloc, key, value);
    }
    if word == "teaser" {
        return teaser_of(alloc, key, value);
    }
    Ok(None)
}

/// The text as the key of a field. `NoMemory` only for want of memory. Linear.
pub fn key_by(alloc: Global, text: Option<&str>) -> Result<Option<Text>, NoMemory>
    ensures { IfOk result (λ o. o ≡ spec.key_by (option_map (λ s. s.now) text.entry)) }
{
    match text {
        Some(text) if is_key(text.as_bytes()) => {
            Ok(Some(Text::from_slice(alloc, text.as_bytes())?))
        }
        _ => Ok(None),
    }
}

/// A text of its own. `NoMemory` only for want of memory. Linear.
pub fn copy_by(alloc: Global, text: Option<&str>) -> Result<Option<Text>, NoMemory>
    ensures { IfOk result (λ o. o ≡ option_map (λ s. s.now) text.entry) }
{
    match text {
        Some(text) => Ok(Some(Text::from_slice(alloc, text.as_bytes())?)),
        None => Ok(None),
    }
}

fn date_pattern_by(alloc: Global, text: Option<&str>) -> Result<Option<Text>, NoMemory>
    ensures { IfOk result (λ o. o ≡ spec.date_pattern_by (option_map (λ s. s.now) text.entry)) }
{
    match text {
        Some(text) if pattern_ok(text.as_bytes()) => {
            Ok(Some(Text::from_slice(alloc, text.as_bytes())?))
        }
        _ => Ok(None),
    }
}

fn const_of(alloc: Global, key: &Value, value: &Value) -> Result<Option<DraftField>, NoMemory>
    ensures { IfOk result (λ o. o ≡ spec.const_by (spec.key_by (as_str (view key.now))) (as_str (view value.now))) }
{
    let key = key_by(alloc, text_in(key))?;
    let text = copy_by(alloc, text_in(value))?;
    Ok(const_by(key, text))
}

fn const_by(key: Option<Text>, text: Option<Text>) -> Option<DraftField>
    ensures { result ≡ spec.const_by key text }
{
    let Some(key) = key else {
        return None;
    };
    let Some(text) = text else {
        return None;
    };
    Some(DraftField::Whole(Field::Const(key, text)))
}

fn date_of(alloc: Global, key: &Value, value: &Value) -> Result<Option<DraftField>, NoMemory>
    ensures { IfOk result (λ o. o ≡ spec.date_by (spec.key_by (as_str (view key.now))) (spec.date_pattern_by (as_str (view value.now)))) }
{
    let key = key_by(alloc, text_in(key))?;
    let pattern = date_pattern_by(alloc, text_in(value))?;
    Ok(date_by(key, pattern))
}

fn date_by(key: Option<Text>, pattern: Option<Text>) -> Option<DraftField>
    ensures { result ≡ spec.date_by key pattern }
{
    let Some(key) = key else {
        return None;
    };
    let Some(pattern) = pattern else {
        return None;
    };
    Some(DraftField::Whole(Field::Date(key, pattern)))
}

fn flag_of(alloc: Global, key: &Value, value: &Value) -> Result<Option<DraftField>, NoMemory>
    ensures { IfOk result (λ o. o ≡ spec.flag_by (spec.key_by (as_str (view key.now))) (as_bool (view value.now))) }
{
    let key = key_by(alloc, text_in(key))?;
    Ok(flag_by(key, value.as_bool()))
}

fn flag_by(key: Option<Text>, flag: Option<bool>) -> Option<DraftField>
    ensures { result ≡ spec.flag_by key flag }
{
    let Some(key) = key else {
        return None;
    };
    let Some(flag) = flag else {
        return None;
    };
    Some(DraftField::Whole(Field::Bool(key, flag)))
}

fn teaser_of(alloc: Global, key: &Value, value: &Value) -> Result<Option<DraftField>, NoMemory>
    ensures { IfOk result (λ o. o ≡ spec.teaser_by (spec.key_by (as_str (view key.now))) (steps.snapshot_by (as_str (view value.now)))) }
{
    let key = key_by(alloc, text_in(key))?;
    let snapshot = snapshot_by(alloc, text_in(value))?;
    Ok(teaser_by(key, snapshot))
}

fn teaser_by(key: Option<Text>, snapshot: Option<Text>) -> Option<DraftField>
    ensures { result ≡ spec.teaser_by key snapshot }
{
    let Some(key) = key else {
        return None;
    };
    let Some(snapshot) = snapshot else {
        return None;
    };
    Some(DraftField::Whole(Field::Teaser(key, snapshot)))
}

fn widths_fit(fields: &[DraftField]) -> bool
    ensures { result ≡ members.fits spec.width spec.most_fields fields.now }
{
    let mut room = MOST_FIELDS;
    for field in fields {
        let weight = width(field);
        if room < weight {
            return false;
        }
        room -= weight;
    }
    true
}

#[tactic(auto, unfolding(crate::specs::FieldForm::width))]
fn width(field: &DraftField) -> usize
    ensures { result ≡ spec.width field.now }
{
    match field {
        DraftField::Default => 5,
        _ => 1,
    }
}
