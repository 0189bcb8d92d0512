// What a table has at its keys, and what an array lists.
ghost use Rattle.std.specs.Prelude.{◌≡◌, option_map, option_and_then, map, string_bytes};
ghost use Rattle.std.specs.List.{list_all, list_any};
ghost use Rattle.std.specs.Option.{option_copied};
ghost use Rattle.std.specs.BTreeMap.{keys};
ghost use Rattle.toml.specs.Data.{get_member, as_str, as_array, as_table};
ghost use Rattle.toml.specs.View.{view, table_view, items_view};
ghost use Rattle.hk_forms.specs.Members as spec;

use toml::{Table, Value};

/// The most members of a list.
pub(crate) const MOST_MEMBERS: usize = 1024;

/// What stands at a key of a table. Logarithmic.
pub fn value_at<'a>(table: &'a Table, key: &str) -> Option<&'a Value>
    ensures { option_map (λ v. view v.now) result ≡ get_member key.now (table_view table.now) }
{
    table.get(key)
}

/// The key and the value of a table that has one member. Constant.
pub fn only(table: &Table) -> Option<(&str, &Value)>
    ensures { option_map (λ p. (p.0.now, view p.1.now)) result ≡ spec.only (table_view table.now) }
{
    if table.len() != 1 {
        return None;
    }
    match table.first_key_value() {
        Some((key, value)) => Some((key.as_str(), value)),
        None => None,
    }
}

/// The values at two keys of a table that has no others. Constant.
pub fn both<'a>(table: &'a Table, first: &str, second: &str) -> Option<(&'a Value, &'a Value)>
    ensures { option_map (λ p. (view p.0.now, view p.1.now)) result ≡ spec.both first.now second.now (table_view table.now) }
{
    if table.len() != 2 {
        return None;
    }
    pair_of(value_at(table, first), value_at(table, second))
}

fn pair_of<'a>(
    first: Option<&'a Value>,
    second: Option<&'a Value>,
) -> Option<(&'a Value, &'a Value)>
    ensures { option_map (λ p. (view p.0.now, view p.1.now)) result ≡ spec.pair_of (option_map (λ v. view v.now) first.entry) (option_map (λ v. view v.now) second.entry) }
{
    let Some(first) = first else {
        return None;
    };
    let Some(second) = second else {
        return None;
    };
    Some((first, second))
}

/// The items of an array that has two. Constant.
pub fn two(items: &[Value]) -> Option<(&Value, &Value)>
    ensures { option_map (λ p. (view p.0.now, view p.1.now)) result ≡ spec.two (items_view items.now) }
{
    if items.len() != 2 {
        return None;
    }
    Some((&items[0], &items[1]))
}

/// The items of an array. Constant.
pub fn items_in(value: &Value) -> Option<&[Value]>
    ensures { option_map (λ s. items_view s.now) result ≡ as_array (view value.now) }
{
    match value.as_array() {
        Some(items) => Some(items.as_slice()),
        None => None,
    }
}

/// The text of a string. Constant.
pub fn text_in(value: &Value) -> Option<&str>
    ensures { option_map (λ s. s.now) result ≡ as_str (view value.now) }
{
    value.as_str()
}

/// The members of a table. Constant.
pub fn table_in(value: &Value) -> Option<&Table>
    ensures { option_map (λ m. table_view m.now) result ≡ as_table (view value.now) }
{
    value.as_table()
}

/// The key and the value of a table that has one member. Constant.
pub fn only_in(value: &Value) -> Option<(&str, &Value)>
    ensures { option_map (λ p. (p.0.now, view p.1.now)) result ≡ option_and_then spec.only (as_table (view value.now)) }
{
    match table_in(value) {
        Some(table) => only(table),
        None => None,
    }
}
