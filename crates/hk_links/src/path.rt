// What the value of a link resolves to.
ghost use Rattle.std.specs.Prelude.{◌≡◌, [], ◌∷◌, ◌++◌, IfOk, OnOk, codes};
ghost use Rattle.std.specs.List.{flat_map, join_with_byte};
ghost use Rattle.hk_links.specs.Path as spec;
ghost use Rattle.hk_links.specs.Parts.{joined_text, part_text, part_texts, slash_and_text};

use crate::value::path_of;
use hk_base::{NoMemory, Text};
use percent_encoding::percent_decode;
use std::alloc::Global;

/// A part of a path: one that stays as it is, or one that is decoded.
#[derive(Clone, Copy, Drop)]
pub enum Part<'a> {
    Plain(&'a [u8]),
    Escaped(&'a [u8]),
}

/// The path from the site's root to which an internal value leads on the page with this target. `NoMemory` only for want
/// of memory. Linear in the value and the target.
pub fn resolve(alloc: Global, target: &[u8], value: &[u8]) -> Result<Text, NoMemory>
    ensures { IfOk result (λ path. path ≡ spec.resolved target.now value.now) }
{
    resolve_path(alloc, target, path_of(value))
}

/// The path from the root to which a path leads on the page with this target.
#[tactic(auto, using(crate::proofs::PartLemmas::resolved_empty, crate::proofs::PartLemmas::resolved_rooted, crate::proofs::PartLemmas::resolved_within))]
fn resolve_path<'a>(alloc: Global, target: &'a [u8], path: &'a [u8]) -> Result<Text, NoMemory>
    ensures { IfOk result (λ text. text ≡ spec.resolved_path target.now path.now) }
{
    if path.is_empty() {
        return Text::from_slice(alloc, target);
    }
    if path[0] == b'/' {
        return reached_path(alloc, Vec::new(alloc), &path[1..]);
    }
    let folder = folder_of(alloc, target)?;
    reached_path(alloc, folder, path)
}

/// The parts of the target's folder: all but the last of the target's.
fn folder_of(alloc: Global, target: &[u8]) -> Result<Vec<Part<'_>>, NoMemory>
    ensures { IfOk result (λ parts. part_texts parts.items ≡ spec.folder target.now) }
{
    let mut parts = Vec::new(alloc);
    for part in target.split(|byte| *byte == b'/') {
        add_plain(&mut parts, part)?;
    }
    leave(&mut parts);
    Ok(parts)
}

/// Adds a part that stays as it is.
#[tactic(auto, using(crate::proofs::PartLemmas::texts_push))]
fn add_plain<'a>(parts: &mut Vec<Part<'a>>, part: &'a [u8]) -> Result<(), NoMemory>
    ensures { OnOk result (part_texts parts.new.items ≡ part_texts parts.old.items ++ part.now ∷ []) }
{
    parts.push(Part::Plain(part))?;
    Ok(())
}

/// Takes the last part away.
#[tactic(auto, using(crate::proofs::PartLemmas::texts_pop))]
fn leave(parts: &mut Vec<Part<'_>>)
    ensures { part_texts parts.new.items ≡ spec.but_last (part_texts parts.old.items) }
{
    parts.pop();
}

/// The path to which another leads from the parts that were reached.
fn reached_path<'a>(
    alloc: Global,
    mut parts: Vec<Part<'a>>,
    path: &'a [u8],
) -> Result<Text, NoMemory>
    ensures { IfOk result (λ text. text ≡ join_with_byte 47 (spec.reached (part_texts parts.entry.items) path.now)) }
{
    reach(&mut parts, path)?;
    joined(alloc, &parts)
}

/// Goes along a path from the parts that were reached.
fn reach<'a>(parts: &mut Vec<Part<'a>>, path: &'a [u8]) -> Result<(), NoMemory>
    ensures { OnOk result (part_texts parts.new.items ≡ spec.reached (part_texts parts.old.items) path.now) }
{
    let mut last: &[u8] = &[];
    for part in path.split(|byte| *byte == b'/') {
        step(parts, part)?;
        last = part;
    }
    add_index(parts, last)?;
    Ok(())
}

/// Goes on by one part: `.` stays, `..` leaves the part before, and any other part is added.
#[tactic(auto, using(crate::proofs::PartLemmas::texts_push))]
fn step<'a>(parts: &mut Vec<Part<'a>>, part: &'a [u8]) -> Result<(), NoMemory>
    ensures { OnOk result (part_texts parts.new.items ≡ spec.step (part_texts parts.old.items) part.now) }
{
    if is_here(part) {
        return Ok(());
    }
    if is_above(part) {
        leave(parts);
        return Ok(());
    }
    parts.push(Part::Escaped(part))?;
    Ok(())
}

/// Looks at the folder's index where a path ends in a folder.
fn add_index<'a>(parts: &mut Vec<Part<'a>>, last: &[u8]) -> Result<(), NoMemory>
    ensures { OnOk result (part_texts parts.new.items ≡ spec.with_index last.now (part_texts parts.old.items)) }
{
    if last.is_empty() {
        leave(parts);
        return push_index(parts);
    }
    if is_here(last) || is_above(last) {
        return push_index(parts);
    }
    Ok(())
}

fn push_index(parts: &mut Vec<Part<'_>>) -> Result<(), NoMemory>
    ensures { OnOk result (part_texts parts.new.items ≡ part_texts parts.old.items ++ codes "index.html" ∷ []) }
{
    add_plain(parts, b"index.html")?;
    Ok(())
}

fn is_here(part: &[u8]) -> bool
    ensures { result ≡ spec.is_here part.now }
{
    part == b".".as_slice()
}

fn is_above(part: &[u8]) -> bool
    ensures { result ≡ spec.is_above part.now }
{
    part == b"..".as_slice()
}

/// The parts joined by `/`.
fn joined(alloc: Global, parts: &[Part<'_>]) -> Result<Text, NoMemory>
    ensures { IfOk result (λ text. text ≡ join_with_byte 47 (part_texts parts.now)) }
{
    let mut text = Vec::new(alloc);
    push_joined(&mut text, parts)?;
    Ok(Text::from_vec(text))
}

fn push_joined(text: &mut Vec<u8>, parts: &[Part<'_>]) -> Result<(), NoMemory>
    ensures { OnOk result (text.new.items ≡ text.old.items ++ joined_text parts.now) }
{
    let Some((first, rest)) = parts.split_first() else {
        return Ok(());
    };
    push_part(text, *first)?;
    push_rest(text, rest)?;
    Ok(())
}

fn push_rest(text: &mut Vec<u8>, parts: &[Part<'_>]) -> Result<(), NoMemory>
    ensures { OnOk result (text.new.items ≡ text.old.items ++ flat_map slash_and_text parts.now) }
{
    for part in parts {
        push_next(text, *part)?;
    }
    Ok(())
}

/// A part with the `/` before it.
fn push_next(text: &mut Vec<u8>, part: Part<'_>) -> Result<(), NoMemory>
    ensures { OnOk result (text.new.items ≡ text.old.items ++ slash_and_text part.entry) }
{
    text.push(b'/')?;
    push_part(text, part)?;
    Ok(())
}

fn push_part(text: &mut Vec<u8>, part: Part<'_>) -> Result<(), NoMemory>
    ensures { OnOk result (text.new.items ≡ text.old.items ++ part_text part.entry) }
{
    match part {
        Part::Plain(bytes) => text.extend_from_slice(bytes)?,
        Part::Escaped(bytes) => percent_decode(bytes).append_to(text)?,
    }
    Ok(())
}
