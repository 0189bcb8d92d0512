// The form of a pattern.
ghost use Rattle.std.specs.Prelude.{◌≡◌, IfOk, option_map, option_and_then};
ghost use Rattle.toml.specs.Data.{as_str, as_array, as_table};
ghost use Rattle.toml.specs.View.{view, table_view, items_view};
ghost use Rattle.hk_pattern.specs.declared.pattern.Pattern as made;
ghost use Rattle.hk_forms.specs.Members as members;
ghost use Rattle.hk_forms.specs.IdForm as ids;
ghost use Rattle.hk_forms.specs.PatternForm as spec;

use crate::id_form::{ids_listed, version_of};
use crate::members::{MOST_MEMBERS, items_in, only_in, text_in};
use hk_base::{NoMemory, Refusal};
use hk_pattern::{Boxed, Glob, Items, Pattern};
use std::alloc::Global;
use toml::Value;

/// How many patterns and routes may be open at once.
pub(crate) const MOST_OPEN: u32 = 16;

/// The pattern that a value is, with at most 16 patterns open at once. `NoMemory` only for want of memory.
/// Linear in the value.
pub fn pattern_of(alloc: Global, value: &Value) -> Result<Option<Pattern>, NoMemory>
    ensures { IfOk result (λ o. o ≡ spec.pattern_of (view value.now)) }
{
    pattern_at(alloc, MOST_OPEN, value)
}

/// The pattern that a value is, with at most so many patterns open at once. Linear in the value.
#[cycle(patterns)]
pub(crate) fn pattern_at(
    alloc: Global,
    depth: u32,
    value: &Value,
) -> Result<Option<Pattern>, NoMemory>
    ensures { IfOk result (λ o. o ≡ spec.pattern_at depth (view value.now)) }
{
    if depth == 0 {
        return Ok(None);
    }
    pattern_by(alloc, depth - 1, text_in(value), only_in(value))
}

#[cycle(patterns)]
fn pattern_by(
    alloc: Global,
    depth: u32,
    text: Option<&str>,
    member: Option<(&str, &Value)>,
) -> Result<Option<Pattern>, NoMemory>
    ensures { IfOk result (λ o. o ≡ spec.pattern_by (spec.pattern_at depth) (option_map (λ s. s.now) text.entry) (option_map (λ p. (p.0.now, view p.1.now)) member.entry)) }
{
    if let Some(text) = text {
        return glob_of(alloc, Some(text));
    }
    match member {
        Some((key, value)) => keyed(alloc, depth, key, value),
        None => Ok(None),
    }
}

#[cycle(patterns)]
fn keyed(alloc: Global, depth: u32, key: &str, value: &Value) -> Result<Option<Pattern>, NoMemory>
    ensures { IfOk result (λ o. o ≡ spec.keyed (spec.pattern_at depth) key.now (view value.now)) }
{
    if key == "and" {
        return and_by(alloc, depth, items_in(value));
    }
    if key == "or" {
        return or_by(alloc, depth, items_in(value));
    }
    if key == "not" {
        return negated(alloc, pattern_at(alloc, depth, value)?);
    }
    leaf(alloc, key, value)
}

#[cycle(patterns)]
fn and_by(alloc: Global, depth: u32, items: Option<&[Value]>) -> Result<Option<Pattern>, NoMemory>
    ensures { IfOk result (λ o. o ≡ spec.and_by (spec.pattern_at depth) (option_map (λ s. items_view s.now) items.entry)) }
{
    match items {
        Some(items) => Ok(all_of(patterns_in(alloc, depth, items)?)),
        None => Ok(None),
    }
}

#[cycle(patterns)]
fn or_by(alloc: Global, depth: u32, items: Option<&[Value]>) -> Result<Option<Pattern>, NoMemory>
    ensures { IfOk result (λ o. o ≡ spec.or_by (spec.pattern_at depth) (option_map (λ s. items_view s.now) items.entry)) }
{
    match items {
        Some(items) => Ok(one_of(patterns_in(alloc, depth, items)?)),
        None => Ok(None),
    }
}

#[cycle(patterns)]
fn patterns_in(
    alloc: Global,
    depth: u32,
    items: &[Value],
) -> Result<Option<Items<Pattern>>, NoMemory>
    ensures { IfOk result (λ o. o ≡ members.listed (spec.pattern_at depth) (items_view items.now)) }
{
    if MOST_MEMBERS < items.len() {
        return Ok(None);
    }
    each_pattern(alloc, depth, items)
}

#[cycle(patterns)]
fn each_pattern(
    alloc: Global,
    depth: u32,
    items: &[Value],
) -> Result<Option<Items<Pattern>>, NoMemory>
    ensures { IfOk result (λ o. o ≡ members.each (spec.pattern_at depth) (items_view items.now)) }
{
    let mut patterns = Items::new(alloc);
    for item in items {
        match pattern_at(alloc, depth, item)? {
            Some(pattern) => patterns.push(pattern)?,
            None => return Ok(None),
        }
    }
    Ok(Some(patterns))
}

fn all_of(patterns: Option<Items<Pattern>>) -> Option<Pattern>
    ensures { result ≡ option_map made.And patterns }
{
    match patterns {
        Some(patterns) => Some(Pattern::And(patterns)),
        None => None,
    }
}

fn one_of(patterns: Option<Items<Pattern>>) -> Option<Pattern>
    ensures { result ≡ option_map made.Or patterns }
{
    match patterns {
        Some(patterns) => Some(Pattern::Or(patterns)),
        None => None,
    }
}

fn negated(alloc: Global, pattern: Option<Pattern>) -> Result<Option<Pattern>, NoMemory>
    ensures { IfOk result (λ o. o ≡ option_map made.Not pattern) }
{
    match pattern {
        Some(pattern) => Ok(Some(Pattern::Not(Boxed::new(alloc, pattern)?))),
        None => Ok(None),
    }
}

fn leaf(alloc: Global, key: &str, value: &Value) -> Result<Option<Pattern>, NoMemory>
    ensures { IfOk result (λ o. o ≡ spec.leaf key.now (view value.now)) }
{
    if key == "glob" {
        return glob_of(alloc, text_in(value));
    }
    if key == "ids" {
        return ids_by(alloc, items_in(value));
    }
    if key == "has_version" {
        return has_version(alloc, value);
    }
    if key == "no_version" {
        return Ok(no_version(value.as_bool()));
    }
    Ok(None)
}

fn glob_of(alloc: Global, text: Option<&str>) -> Result<Option<Pattern>, NoMemory>
    ensures { IfOk result (λ o. o ≡ spec.glob_of (option_map (λ s. s.now) text.entry)) }
{
    let Some(text) = text else {
        return Ok(None);
    };
    match Glob::read(alloc, text.as_bytes()) {
        Ok(glob) => Ok(Some(Pattern::Glob(glob))),
        Err(Refusal::Fault(_)) => Ok(None),
        Err(Refusal::NoMemory) => Err(NoMemory),
    }
}

fn ids_by(alloc: Global, items: Option<&[Value]>) -> Result<Option<Pattern>, NoMemory>
    ensures { IfOk result (λ o. o ≡ spec.ids_by (option_map (λ s. items_view s.now) items.entry)) }
{
    let Some(items) = items else {
        return Ok(None);
    };
    match ids_listed(alloc, items)? {
        Some(ids) => Ok(Some(Pattern::Ids(ids))),
        None => Ok(None),
    }
}

fn has_version(alloc: Global, value: &Value) -> Result<Option<Pattern>, NoMemory>
    ensures { IfOk result (λ o. o ≡ option_map made.HasVersion (ids.version_of (view value.now))) }
{
    match version_of(alloc, value)? {
        Some(version) => Ok(Some(Pattern::HasVersion(version))),
        None => Ok(None),
    }
}

fn no_version(flag: Option<bool>) -> Option<Pattern>
    ensures { result ≡ spec.no_version flag }
{
    match flag {
        Some(true) => Some(Pattern::HasNoVersion),
        _ => None,
    }
}
