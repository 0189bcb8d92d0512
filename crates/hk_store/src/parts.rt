// The parts of a store's text, read in order.
ghost use Rattle.std.specs.Prelude.{◌≡◌, ◌<◌, ◌++◌, ◌∷◌, [], List, length, map, option_map, Ok, Err, IfOk, OnOk};
ghost use Rattle.std.specs.List.Sorted.{IsStrictlySortedBy};
ghost use Rattle.hk_base.specs.Bytes.{Bytes};
ghost use Rattle.hk_base.specs.Identifier.{Ident, ident_cmp};
ghost use Rattle.hk_fix.specs.Table.{Key};
ghost use Rattle.hk_store.specs.Found.{Gives, HasKeys};
ghost use Rattle.hk_store.specs.Reading.{each};
ghost use Rattle.hk_store.specs.Stored as stored;
ghost use Rattle.hk_store.specs.Stored.{keys_of_asks};
ghost use Rattle.hk_store.specs.StoreReading as spec;

use crate::entry::{AskRecord, MatchRecord};
use crate::halt::Halt;
use crate::scan::{digest_in, ident_in, num_in, str_in};
use hk_base::{Identifier, Text};
use hk_forms::is_snapshot_name;
use std::alloc::Global;
use std::collections::BTreeSet;

/// A number of things.
pub(crate) fn count_at(bytes: &[u8]) -> Result<(u64, &[u8]), Halt>
    ensures { Gives spec.a_count bytes.now (λ p. (p.0, p.1.now)) result }
{
    match num_in(bytes) {
        Some(found) => Ok(found),
        None => Err(Halt::Broken(bytes.len())),
    }
}

/// A number of things of which there has to be one.
pub(crate) fn some_count_at(bytes: &[u8]) -> Result<(u64, &[u8]), Halt>
    ensures { Gives spec.some_count bytes.now (λ p. (p.0, p.1.now)) result }
{
    match num_in(bytes) {
        Some((count, rest)) => {
            if count > 0 {
                Ok((count, rest))
            } else {
                Err(Halt::Broken(bytes.len()))
            }
        }
        None => Err(Halt::Broken(bytes.len())),
    }
}

pub(crate) fn digest_at(bytes: &[u8]) -> Result<([u8; 32], &[u8]), Halt>
    ensures { Gives spec.a_digest bytes.now (λ p. (p.0, p.1.now)) result }
{
    match digest_in(bytes) {
        Some(found) => Ok(found),
        None => Err(Halt::Broken(bytes.len())),
    }
}

/// An identifier above the last one.
pub(crate) fn id_after<'a>(
    alloc: Global,
    last: Option<&Identifier>,
    bytes: &'a [u8],
) -> Result<(Identifier, &'a [u8]), Halt>
    ensures { Gives (spec.an_id_above (option_map (λ id. id.now) last.entry)) bytes.now (λ p. (p.0, p.1.now)) result }
{
    let Some((id, rest)) = ident_in(alloc, bytes)? else {
        return Err(Halt::Broken(bytes.len()));
    };
    if is_above(last, &id) {
        Ok((id, rest))
    } else {
        Err(Halt::Broken(bytes.len()))
    }
}

fn is_above(last: Option<&Identifier>, id: &Identifier) -> bool
    ensures { result ≡ spec.is_above (option_map (λ other. other.now) last.entry) id.now }
{
    match last {
        Some(last) => last < id,
        None => true,
    }
}

/// So many identifiers in strict order.
fn ids_at(alloc: Global, count: u64, bytes: &[u8]) -> Result<(Vec<Identifier>, &[u8]), Halt>
    ensures { Gives (each count spec.an_id_after []) bytes.now (λ p. (p.0.items, p.1.now)) result }
{
    let mut ids: Vec<Identifier> = Vec::new(alloc);
    let mut rest = bytes;
    for _done in 0..count {
        let (id, next) = id_after(alloc, ids.last(), rest)?;
        ids.push(id)?;
        rest = next;
    }
    Ok((ids, rest))
}

/// A pattern's text and its matches.
fn match_at(alloc: Global, bytes: &[u8]) -> Result<(MatchRecord, &[u8]), Halt>
    ensures { Gives spec.a_match bytes.now (λ p. (p.0, p.1.now)) result }
{
    let Some((text, rest)) = str_in(bytes) else {
        return Err(Halt::Broken(bytes.len()));
    };
    let (count, rest) = count_at(rest)?;
    let (matches, rest) = ids_at(alloc, count, rest)?;
    let text = Text::from_slice(alloc, text)?;
    Ok((MatchRecord { text, matches }, rest))
}

/// So many patterns with their matches.
pub(crate) fn matches_at(
    alloc: Global,
    count: u64,
    bytes: &[u8],
) -> Result<(Vec<MatchRecord>, &[u8]), Halt>
    ensures { Gives (each count (λ earlier. spec.a_match) []) bytes.now (λ p. (p.0.items, p.1.now)) result }
{
    let mut matches = Vec::new(alloc);
    let mut rest = bytes;
    for _done in 0..count {
        let (found, next) = match_at(alloc, rest)?;
        matches.push(found)?;
        rest = next;
    }
    Ok((matches, rest))
}

/// The key of a page that isn't among those that the set has, which it has then.
fn key_at<'a>(
    alloc: Global,
    seen: &mut BTreeSet<Text>,
    bytes: &'a [u8],
) -> Result<((Identifier, Text), &'a [u8]), Halt>
    ensures key { (keys : List Key) → HasKeys seen.old keys → Gives (spec.a_key keys) bytes.now (λ p. (spec.key_by p.0.0 p.0.1, p.1.now)) result }
    ensures seen { (keys : List Key) → HasKeys seen.old keys → IfOk result (λ p. HasKeys seen.new (keys ++ spec.key_by p.0.0 p.0.1 ∷ [])) }
{
    let Some((id, rest)) = ident_in(alloc, bytes)? else {
        return Err(Halt::Broken(bytes.len()));
    };
    let Some((name, after)) = str_in(rest) else {
        return Err(Halt::Broken(rest.len()));
    };
    if !is_page_name(name) {
        return Err(Halt::Broken(rest.len()));
    }
    let text = Text::from_slice(alloc, &bytes[..bytes.len() - after.len()])?;
    if !seen.insert(text)? {
        return Err(Halt::Broken(rest.len()));
    }
    let name = Text::from_slice(alloc, name)?;
    Ok(((id, name), after))
}

/// An ask for such a page.
fn ask_at<'a>(
    alloc: Global,
    seen: &mut BTreeSet<Text>,
    bytes: &'a [u8],
) -> Result<(AskRecord, &'a [u8]), Halt>
    ensures ask { (keys : List Key) → HasKeys seen.old keys → Gives (spec.an_ask keys) bytes.now (λ p. (p.0, p.1.now)) result }
    ensures seen { (keys : List Key) → HasKeys seen.old keys → IfOk result (λ p. HasKeys seen.new (keys ++ p.0.key ∷ [])) }
{
    let ((id, name), rest) = key_at(alloc, seen, bytes)?;
    let (page, rest) = digest_at(rest)?;
    let (traits, rest) = digest_at(rest)?;
    Ok((
        AskRecord {
            id,
            name,
            page,
            traits,
        },
        rest,
    ))
}

/// So many asks, each for a page that wasn't asked for before.
pub(crate) fn asks_at<'a>(
    alloc: Global,
    count: u64,
    seen: &mut BTreeSet<Text>,
    bytes: &'a [u8],
) -> Result<(Vec<AskRecord>, &'a [u8]), Halt>
    ensures asks { (keys : List Key) → HasKeys seen.old keys → Gives (each count (λ group. spec.an_ask (keys ++ keys_of_asks group)) []) bytes.now (λ p. (p.0.items, p.1.now)) result }
    ensures seen { (keys : List Key) → HasKeys seen.old keys → IfOk result (λ p. HasKeys seen.new (keys ++ keys_of_asks p.0.items)) }
{
    let mut asks = Vec::new(alloc);
    let mut rest = bytes;
    for _done in 0..count {
        let (ask, next) = ask_at(alloc, seen, rest)?;
        asks.push(ask)?;
        rest = next;
    }
    Ok((asks, rest))
}

/// Whether a page may be saved under this name.
pub(crate) fn is_page_name(name: &[u8]) -> bool
    ensures { result ≡ stored.is_page_name name.now }
{
    is_snapshot_name(name) || name == b"_final".as_slice()
}
