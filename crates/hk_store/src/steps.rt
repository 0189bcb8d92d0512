// The marks of an entry, read in order.
ghost use Rattle.std.specs.Prelude.{◌≡◌, ◌&&◌, not, ◌++◌, ◌∷◌, [], List, map, option_map, IfOk};
ghost use Rattle.hk_base.specs.Bytes.{Bytes};
ghost use Rattle.hk_fix.specs.Table.{Key};
ghost use Rattle.hk_forms.specs.PatternText.{str};
ghost use Rattle.hk_store.specs.Entry.{MarkView, asked, stored};
ghost use Rattle.hk_store.specs.Found.{Gives, Finds, HasKeys, HasNames};
ghost use Rattle.hk_store.specs.Marks.{mark_view};
ghost use Rattle.hk_store.specs.Reading.{each, field};
ghost use Rattle.hk_store.specs.Stored.{asked_keys, saved_names, keys_of_asks};
ghost use Rattle.hk_store.specs.StoreReading as spec;
ghost use Rattle.hk_store.specs.Told.{Any};

use crate::entry::{AskRecord, MarkRecord, SaveRecord};
use crate::halt::Halt;
use crate::parts::{asks_at, is_page_name, some_count_at};
use crate::scan::{behind, page_in, str_in};
use hk_base::{Shared, Text};
use hk_chain::Page;
use std::alloc::Global;
use std::collections::BTreeSet;

/// So many marks, the last of which is the save of the finished page.
pub(crate) fn marks_at(
    alloc: Global,
    count: u64,
    bytes: &[u8],
) -> Result<(Vec<MarkRecord>, &[u8]), Halt>
    ensures { Gives (each count (spec.a_mark count) []) bytes.now (λ p. (map mark_view p.0.items, p.1.now)) result }
{
    let mut asked = BTreeSet::new(alloc);
    let mut saved = BTreeSet::new(alloc);
    let mut marks = Vec::new(alloc);
    let mut rest = bytes;
    for done in 0..count {
        let (mark, next) = mark_at(alloc, done + 1 == count, &mut asked, &mut saved, rest)?;
        marks.push(mark)?;
        rest = next;
    }
    Ok((marks, rest))
}

/// A group of asks, or a save.
fn mark_at<'a>(
    alloc: Global,
    last: bool,
    asked: &mut BTreeSet<Text>,
    saved: &mut BTreeSet<Text>,
    bytes: &'a [u8],
) -> Result<(MarkRecord, &'a [u8]), Halt>
    ensures mark { (before : List MarkView) → HasKeys asked.old (asked_keys before) → HasNames saved.old (saved_names before) → Gives (spec.a_mark_of last before) bytes.now (λ p. (mark_view p.0, p.1.now)) result }
    ensures asked { (before : List MarkView) → HasKeys asked.old (asked_keys before) → IfOk result (λ p. HasKeys asked.new (asked_keys (before ++ mark_view p.0 ∷ []))) }
    ensures saved { (before : List MarkView) → HasNames saved.old (saved_names before) → IfOk result (λ p. HasNames saved.new (saved_names (before ++ mark_view p.0 ∷ []))) }
{
    let (group, rest) = letter_at(last, bytes)?;
    if group {
        let (asks, rest) = group_at(alloc, asked, rest)?;
        Ok((MarkRecord::Asks(asks), rest))
    } else {
        let (save, rest) = save_at(alloc, last, saved, rest)?;
        Ok((MarkRecord::Save(save), rest))
    }
}

/// The letter of a mark: whether it is a group, which the last one isn't.
fn letter_at(last: bool, bytes: &[u8]) -> Result<(bool, &[u8]), Halt>
    ensures { Gives (spec.a_letter last) bytes.now (λ p. (p.0, p.1.now)) result }
{
    match letter_in(bytes) {
        Some((group, rest)) => {
            if may_stand(last, group) {
                Ok((group, rest))
            } else {
                Err(Halt::Broken(bytes.len()))
            }
        }
        None => Err(Halt::Broken(bytes.len())),
    }
}

/// Whether the letter of a group, or of a save, may be that of this mark.
fn may_stand(last: bool, group: bool) -> bool
    ensures { result ≡ not (group && last) }
{
    !(group && last)
}

fn letter_in(bytes: &[u8]) -> Option<(bool, &[u8])>
    ensures { Finds spec.letter_text Any bytes.now (option_map (λ p. (p.0, p.1.now)) result) }
{
    if let Some(rest) = behind(bytes, b"a\n") {
        Some((true, rest))
    } else if let Some(rest) = behind(bytes, b"s\n") {
        Some((false, rest))
    } else {
        None
    }
}

/// The asks of a group, at least one.
fn group_at<'a>(
    alloc: Global,
    seen: &mut BTreeSet<Text>,
    bytes: &'a [u8],
) -> Result<(Vec<AskRecord>, &'a [u8]), Halt>
    ensures asks { (before : List MarkView) → HasKeys seen.old (asked_keys before) → Gives (spec.a_group before) bytes.now (λ p. (asked p.0.items, p.1.now)) result }
    ensures seen { (keys : List Key) → HasKeys seen.old keys → IfOk result (λ p. HasKeys seen.new (keys ++ keys_of_asks p.0.items)) }
{
    let (count, rest) = some_count_at(bytes)?;
    let (asks, rest) = asks_at(alloc, count, seen, rest)?;
    Ok((asks, rest))
}

/// A page under a name that isn't among those that the set has, which it has then; the last one is the finished page.
fn save_at<'a>(
    alloc: Global,
    last: bool,
    seen: &mut BTreeSet<Text>,
    bytes: &'a [u8],
) -> Result<(SaveRecord, &'a [u8]), Halt>
    ensures save { (before : List MarkView) → HasNames seen.old (saved_names before) → Gives (spec.a_save last before) bytes.now (λ p. (stored p.0.name p.0.page, p.1.now)) result }
    ensures seen { (names : List Bytes) → HasNames seen.old names → IfOk result (λ p. HasNames seen.new (names ++ p.0.name ∷ [])) }
{
    let (name, rest) = name_at(alloc, last, seen, bytes)?;
    let Some(((kind, body), after)) = page_in(rest) else {
        return Err(Halt::Broken(rest.len()));
    };
    let body = Text::from_slice(alloc, body)?;
    let page = Shared::new(alloc, Page { kind, body })?;
    Ok((SaveRecord { name, page }, after))
}

/// The name of such a page.
fn name_at<'a>(
    alloc: Global,
    last: bool,
    seen: &mut BTreeSet<Text>,
    bytes: &'a [u8],
) -> Result<(Text, &'a [u8]), Halt>
    ensures name { (before : List MarkView) → HasNames seen.old (saved_names before) → Gives (field str (spec.FitsName last before)) bytes.now (λ p. (p.0, p.1.now)) result }
    ensures seen { (names : List Bytes) → HasNames seen.old names → IfOk result (λ p. HasNames seen.new (names ++ p.0 ∷ [])) }
{
    let Some((name, rest)) = str_in(bytes) else {
        return Err(Halt::Broken(bytes.len()));
    };
    if !is_save_name(last, name) {
        return Err(Halt::Broken(bytes.len()));
    }
    let text = Text::from_slice(alloc, name)?;
    if !seen.insert(text)? {
        return Err(Halt::Broken(bytes.len()));
    }
    let name = Text::from_slice(alloc, name)?;
    Ok((name, rest))
}

/// Whether it is the name of a page, and that of the finished page where the mark is the last one.
fn is_save_name(last: bool, name: &[u8]) -> bool
    ensures { result ≡ spec.is_save_name last name.now }
{
    if last {
        name == b"_final".as_slice()
    } else {
        is_page_name(name)
    }
}
