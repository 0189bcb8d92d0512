// The form of an identifier and of a version.
ghost use Rattle.std.specs.Prelude.{◌≡◌, IfOk, option_map};
ghost use Rattle.std.specs.Option.{option_copied};
ghost use Rattle.toml.specs.Data.{as_str, as_array};
ghost use Rattle.toml.specs.View.{view, items_view};
ghost use Rattle.hk_forms.specs.Members.{each, listed};
ghost use Rattle.hk_forms.specs.IdForm as spec;

use crate::members::{MOST_MEMBERS, items_in, text_in, two};
use hk_base::{Identifier, NoMemory, Refusal, Text, is_version};
use hk_pattern::Items;
use std::alloc::Global;
use toml::Value;

/// The identifier that a value is. `NoMemory` only for want of memory. Linear.
pub fn id_of(alloc: Global, value: &Value) -> Result<Option<Identifier>, NoMemory>
    ensures { IfOk result (λ o. o ≡ spec.id_of (view value.now)) }
{
    id_by(alloc, text_in(value), items_in(value))
}

fn id_by(
    alloc: Global,
    text: Option<&str>,
    items: Option<&[Value]>,
) -> Result<Option<Identifier>, NoMemory>
    ensures { IfOk result (λ o. o ≡ spec.id_by (option_map (λ s. s.now) text.entry) (option_map (λ s. items_view s.now) items.entry)) }
{
    if let Some(path) = text {
        return ident_at(alloc, path.as_bytes(), None);
    }
    match items {
        Some(items) => id_pair(alloc, two(items)),
        None => Ok(None),
    }
}

fn id_pair(alloc: Global, pair: Option<(&Value, &Value)>) -> Result<Option<Identifier>, NoMemory>
    ensures { IfOk result (λ o. o ≡ spec.id_pair (option_map (λ p. (view p.0.now, view p.1.now)) pair.entry)) }
{
    match pair {
        Some((path, version)) => versioned(alloc, text_in(path), text_in(version)),
        None => Ok(None),
    }
}

fn versioned(
    alloc: Global,
    path: Option<&str>,
    version: Option<&str>,
) -> Result<Option<Identifier>, NoMemory>
    ensures { IfOk result (λ o. o ≡ spec.versioned (option_map (λ s. s.now) path.entry) (option_map (λ s. s.now) version.entry)) }
{
    let Some(path) = path else {
        return Ok(None);
    };
    let Some(version) = version else {
        return Ok(None);
    };
    ident_at(alloc, path.as_bytes(), Some(version.as_bytes()))
}

fn ident_at(
    alloc: Global,
    path: &[u8],
    version: Option<&[u8]>,
) -> Result<Option<Identifier>, NoMemory>
    ensures { IfOk result (λ o. o ≡ spec.ident_at path.now (option_copied version.entry)) }
{
    match Identifier::read(alloc, path, version) {
        Ok(id) => Ok(Some(id)),
        Err(Refusal::Fault(_)) => Ok(None),
        Err(Refusal::NoMemory) => Err(NoMemory),
    }
}

/// The identifier without a version that a value is.
pub(crate) fn path_of(alloc: Global, value: &Value) -> Result<Option<Identifier>, NoMemory>
    ensures { IfOk result (λ o. o ≡ spec.path_of (view value.now)) }
{
    path_by(alloc, text_in(value))
}

fn path_by(alloc: Global, text: Option<&str>) -> Result<Option<Identifier>, NoMemory>
    ensures { IfOk result (λ o. o ≡ spec.path_by (option_map (λ s. s.now) text.entry)) }
{
    match text {
        Some(path) => ident_at(alloc, path.as_bytes(), None),
        None => Ok(None),
    }
}

/// The identifiers that the values are, where each is one and they are not too many.
pub(crate) fn ids_listed(
    alloc: Global,
    items: &[Value],
) -> Result<Option<Items<Identifier>>, NoMemory>
    ensures { IfOk result (λ o. o ≡ listed spec.id_of (items_view items.now)) }
{
    if MOST_MEMBERS < items.len() {
        return Ok(None);
    }
    ids_in(alloc, items)
}

fn ids_in(alloc: Global, items: &[Value]) -> Result<Option<Items<Identifier>>, NoMemory>
    ensures { IfOk result (λ o. o ≡ each spec.id_of (items_view items.now)) }
{
    let mut ids = Items::new(alloc);
    for item in items {
        match id_of(alloc, item)? {
            Some(id) => ids.push(id)?,
            None => return Ok(None),
        }
    }
    Ok(Some(ids))
}

/// The identifiers without versions that the values are, where each is one and they are at most 1,024.
/// `NoMemory` only for want of memory. Linear in the values.
pub fn paths_listed(alloc: Global, items: &[Value]) -> Result<Option<Items<Identifier>>, NoMemory>
    ensures { IfOk result (λ o. o ≡ listed spec.path_of (items_view items.now)) }
{
    if MOST_MEMBERS < items.len() {
        return Ok(None);
    }
    paths_in(alloc, items)
}

fn paths_in(alloc: Global, items: &[Value]) -> Result<Option<Items<Identifier>>, NoMemory>
    ensures { IfOk result (λ o. o ≡ each spec.path_of (items_view items.now)) }
{
    let mut ids = Items::new(alloc);
    for item in items {
        match path_of(alloc, item)? {
            Some(id) => ids.push(id)?,
            None => return Ok(None),
        }
    }
    Ok(Some(ids))
}

/// The version that a value is. `NoMemory` only for want of memory. Linear.
pub fn version_of(alloc: Global, value: &Value) -> Result<Option<Text>, NoMemory>
    ensures { IfOk result (λ o. o ≡ spec.version_of (view value.now)) }
{
    version_by(alloc, text_in(value))
}

fn version_by(alloc: Global, text: Option<&str>) -> Result<Option<Text>, NoMemory>
    ensures { IfOk result (λ o. o ≡ spec.version_by (option_map (λ s. s.now) text.entry)) }
{
    match text {
        Some(text) if is_version(text.as_bytes()) => {
            Ok(Some(Text::from_slice(alloc, text.as_bytes())?))
        }
        _ => Ok(None),
    }
}
