// The form of a route.
ghost use Rattle.std.specs.Prelude.{◌≡◌, IfOk, option_map};
ghost use Rattle.toml.specs.Data.{as_str, as_array, as_table};
ghost use Rattle.toml.specs.View.{view, table_view, items_view};
ghost use Rattle.hk_route.specs.declared.route.Route as made;
ghost use Rattle.hk_forms.specs.Members as members;
ghost use Rattle.hk_forms.specs.PatternForm as pattern_form;
ghost use Rattle.hk_forms.specs.RouteForm as spec;

use crate::members::{MOST_MEMBERS, both, items_in, only, table_in, text_in, two};
use crate::pattern_form::{MOST_OPEN, pattern_at};
use hk_base::{NoMemory, Text};
use hk_pattern::{Boxed, Items, Pattern};
use hk_route::Route;
use std::alloc::Global;
use toml::{Table, Value};

/// The route that a value is, with at most 16 routes and patterns open at once. `NoMemory` only for want of memory.
/// Linear in the value.
pub fn route_of(alloc: Global, value: &Value) -> Result<Option<Route>, NoMemory>
    ensures { IfOk result (λ o. o ≡ spec.route_of (view value.now)) }
{
    route_at(alloc, MOST_OPEN, value)
}

/// The route that a value is, with at most so many routes and patterns open at once. Linear in the value.
#[cycle(routes)]
fn route_at(alloc: Global, depth: u32, value: &Value) -> Result<Option<Route>, NoMemory>
    ensures { IfOk result (λ o. o ≡ spec.route_at depth (view value.now)) }
{
    if depth == 0 {
        return Ok(None);
    }
    route_by(
        alloc,
        depth - 1,
        text_in(value),
        items_in(value),
        table_in(value),
    )
}

#[cycle(routes)]
fn route_by(
    alloc: Global,
    depth: u32,
    text: Option<&str>,
    items: Option<&[Value]>,
    table: Option<&Table>,
) -> Result<Option<Route>, NoMemory>
    ensures { IfOk result (λ o. o ≡ spec.route_by (pattern_form.pattern_at depth) (spec.route_at depth) (option_map (λ s. s.now) text.entry) (option_map (λ s. items_view s.now) items.entry) (option_map (λ m. table_view m.now) table.entry)) }
{
    if let Some(word) = text {
        return Ok(named(word));
    }
    match items {
        Some(items) => Ok(first_of(routes_in(alloc, depth, items)?)),
        None => in_table(alloc, depth, table),
    }
}

#[cycle(routes)]
fn in_table(alloc: Global, depth: u32, table: Option<&Table>) -> Result<Option<Route>, NoMemory>
    ensures { IfOk result (λ o. o ≡ spec.in_table (pattern_form.pattern_at depth) (spec.route_at depth) (option_map (λ m. table_view m.now) table.entry)) }
{
    match table {
        Some(table) => table_by(alloc, depth, only(table), both(table, "use", "when")),
        None => Ok(None),
    }
}

#[cycle(routes)]
fn table_by(
    alloc: Global,
    depth: u32,
    member: Option<(&str, &Value)>,
    pair: Option<(&Value, &Value)>,
) -> Result<Option<Route>, NoMemory>
    ensures { IfOk result (λ o. o ≡ spec.table_by (pattern_form.pattern_at depth) (spec.route_at depth) (option_map (λ p. (p.0.now, view p.1.now)) member.entry) (option_map (λ p. (view p.0.now, view p.1.now)) pair.entry)) }
{
    match member {
        Some((key, value)) => keyed(alloc, depth, key, value),
        None => use_when(alloc, depth, pair),
    }
}

#[cycle(routes)]
fn use_when(
    alloc: Global,
    depth: u32,
    pair: Option<(&Value, &Value)>,
) -> Result<Option<Route>, NoMemory>
    ensures { IfOk result (λ o. o ≡ spec.use_when (pattern_form.pattern_at depth) (spec.route_at depth) (option_map (λ p. (view p.0.now, view p.1.now)) pair.entry)) }
{
    match pair {
        Some((route, pattern)) => {
            let pattern = pattern_at(alloc, depth, pattern)?;
            let route = route_at(alloc, depth, route)?;
            when_by(alloc, pattern, route)
        }
        None => Ok(None),
    }
}

#[cycle(routes)]
fn keyed(alloc: Global, depth: u32, key: &str, value: &Value) -> Result<Option<Route>, NoMemory>
    ensures { IfOk result (λ o. o ≡ spec.keyed (spec.route_at depth) key.now (view value.now)) }
{
    if key == "compose" {
        return compose_by(alloc, depth, items_in(value));
    }
    leaf(alloc, key, value)
}

#[cycle(routes)]
fn compose_by(alloc: Global, depth: u32, items: Option<&[Value]>) -> Result<Option<Route>, NoMemory>
    ensures { IfOk result (λ o. o ≡ spec.compose_by (spec.route_at depth) (option_map (λ s. items_view s.now) items.entry)) }
{
    match items {
        Some(items) => Ok(composed(routes_in(alloc, depth, items)?)),
        None => Ok(None),
    }
}

#[cycle(routes)]
fn routes_in(alloc: Global, depth: u32, items: &[Value]) -> Result<Option<Items<Route>>, NoMemory>
    ensures { IfOk result (λ o. o ≡ members.listed (spec.route_at depth) (items_view items.now)) }
{
    if MOST_MEMBERS < items.len() {
        return Ok(None);
    }
    each_route(alloc, depth, items)
}

#[cycle(routes)]
fn each_route(alloc: Global, depth: u32, items: &[Value]) -> Result<Option<Items<Route>>, NoMemory>
    ensures { IfOk result (λ o. o ≡ members.each (spec.route_at depth) (items_view items.now)) }
{
    let mut routes = Items::new(alloc);
    for item in items {
        match route_at(alloc, depth, item)? {
            Some(route) => routes.push(route)?,
            None => return Ok(None),
        }
    }
    Ok(Some(routes))
}

fn named(word: &str) -> Option<Route>
    ensures { result ≡ spec.named word.now }
{
    if word == "id" { Some(Route::Id) } else { None }
}

fn first_of(routes: Option<Items<Route>>) -> Option<Route>
    ensures { result ≡ option_map made.First routes }
{
    match routes {
        Some(routes) => Some(Route::First(routes)),
        None => None,
    }
}

fn composed(routes: Option<Items<Route>>) -> Option<Route>
    ensures { result ≡ option_map made.Compose routes }
{
    match routes {
        Some(routes) => Some(Route::Compose(routes)),
        None => None,
    }
}

fn when_by(
    alloc: Global,
    pattern: Option<Pattern>,
    route: Option<Route>,
) -> Result<Option<Route>, NoMemory>
    ensures { IfOk result (λ o. o ≡ spec.when_by pattern route) }
{
    let Some(pattern) = pattern else {
        return Ok(None);
    };
    let Some(route) = route else {
        return Ok(None);
    };
    Ok(Some(Route::When(pattern, Boxed::new(alloc, route)?)))
}

fn leaf(alloc: Global, key: &str, value: &Value) -> Result<Option<Route>, NoMemory>
    ensures { IfOk result (λ o. o ≡ spec.leaf key.now (view value.now)) }
{
    if key == "extension" {
        return extension_of(alloc, text_in(value));
    }
    if key == "constant" {
        return constant_of(alloc, text_in(value));
    }
    if key == "gsub" {
        return gsub_of(alloc, items_in(value));
    }
    Ok(None)
}

fn extension_of(alloc: Global, text: Option<&str>) -> Result<Option<Route>, NoMemory>
    ensures { IfOk result (λ o. o ≡ spec.extension_of (option_map (λ s. s.now) text.entry)) }
{
    let Some(text) = text else {
        return Ok(None);
    };
    match some_text(alloc, without_dot(text.as_bytes()))? {
        Some(text) => Ok(Some(Route::Extension(text))),
        None => Ok(None),
    }
}

fn without_dot(text: &[u8]) -> &[u8]
    ensures { result.now ≡ spec.without_dot text.now }
{
    match text {
        [b'.', rest @ ..] => rest,
        _ => text,
    }
}

fn some_text(alloc: Global, text: &[u8]) -> Result<Option<Text>, NoMemory>
    ensures { IfOk result (λ o. o ≡ spec.some_text text.now) }
{
    match text {
        [] => Ok(None),
        _ => Ok(Some(Text::from_slice(alloc, text)?)),
    }
}

fn constant_of(alloc: Global, text: Option<&str>) -> Result<Option<Route>, NoMemory>
    ensures { IfOk result (λ o. o ≡ option_map made.Constant (option_map (λ s. s.now) text.entry)) }
{
    match text {
        Some(text) => Ok(Some(Route::Constant(Text::from_slice(alloc, text.as_bytes())?))),
        None => Ok(None),
    }
}

fn gsub_of(alloc: Global, items: Option<&[Value]>) -> Result<Option<Route>, NoMemory>
    ensures { IfOk result (λ o. o ≡ spec.gsub_of (option_map (λ s. items_view s.now) items.entry)) }
{
    match items {
        Some(items) => gsub_pair(alloc, two(items)),
        None => Ok(None),
    }
}

fn gsub_pair(alloc: Global, pair: Option<(&Value, &Value)>) -> Result<Option<Route>, NoMemory>
    ensures { IfOk result (λ o. o ≡ spec.gsub_pair (option_map (λ p. (view p.0.now, view p.1.now)) pair.entry)) }
{
    match pair {
        Some((old, new)) => gsub_by(alloc, text_in(old), text_in(new)),
        None => Ok(None),
    }
}

fn gsub_by(alloc: Global, old: Option<&str>, new: Option<&str>) -> Result<Option<Route>, NoMemory>
    ensures { IfOk result (λ o. o ≡ spec.gsub_by (option_map (λ s. s.now) old.entry) (option_map (λ s. s.now) new.entry)) }
{
    let Some(old) = old else {
        return Ok(None);
    };
    let Some(new) = new else {
        return Ok(None);
    };
    gsub(alloc, old.as_bytes(), new.as_bytes())
}

fn gsub(alloc: Global, old: &[u8], new: &[u8]) -> Result<Option<Route>, NoMemory>
    ensures { IfOk result (λ o. o ≡ option_map (λ text. made.Gsub text new.now) (spec.some_text old.now)) }
{
    match some_text(alloc, old)? {
        Some(old) => Ok(Some(Route::Gsub(old, Text::from_slice(alloc, new)?))),
        None => Ok(None),
    }
}
