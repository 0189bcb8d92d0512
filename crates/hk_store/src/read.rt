// A store, read from its text.
ghost use Rattle.std.specs.Prelude.{◌≡◌, ◌≢◌, [], List, bytes_eq, option_map, Result, MatchOption};
ghost use Rattle.sha2.specs.Sha256.{sha256};
ghost use Rattle.hk_base.specs.Bytes.{Bytes};
ghost use Rattle.hk_store.specs.Damage.{IsRead, Answers};
ghost use Rattle.hk_store.specs.Entry.{EntryView};
ghost use Rattle.hk_store.specs.Found.{Gives};
ghost use Rattle.hk_store.specs.Reading.{each};
ghost use Rattle.hk_store.specs.Stored.{ids_of};
ghost use Rattle.hk_store.specs.StoreReading as spec;
ghost use Rattle.hk_store.specs.StoreText.{sealed};
ghost use Rattle.hk_store.specs.declared.damage.StoreDamage.{StoreDamage};

use crate::damage::StoreDamage;
use crate::entry::{Entry, Stored};
use crate::halt::Halt;
use crate::parts::{count_at, digest_at, id_after, matches_at, some_count_at};
use crate::print::sha_of;
use crate::scan::behind;
use crate::steps::marks_at;
use hk_base::{Identifier, Refusal};
use std::alloc::Global;

/// The store of which the bytes are the text with its trailer. `BadTrailer` exactly where there are fewer than 32 bytes or
/// the last 32 aren't the SHA-256 of the rest; `OldVersion` exactly where they are and the rest begins with `hkstore 1` and
/// LF; `BadShape` exactly where it doesn't and is the text of no store, with the place of the first byte of the first field
/// that doesn't stand as it is wanted there. `NoMemory` only for want of memory. One pass over the bytes, with a look-up for
/// each asked page and each saved name among those of its entry; a page's body is copied once.
pub fn read_store(alloc: Global, bytes: &[u8]) -> Result<Stored, Refusal<StoreDamage>>
    ensures gives { Answers (IsRead bytes.now) result }
    ensures only { (answer : Result (List EntryView) StoreDamage) → IsRead bytes.now answer → Answers (λ given. given ≡ answer) result }
{
    let Some(text) = unsealed(bytes) else {
        return Err(Refusal::Fault(StoreDamage::BadTrailer));
    };
    if let Some(_rest) = behind(text, b"hkstore 1\n") {
        return Err(Refusal::Fault(StoreDamage::OldVersion));
    }
    match store_at(alloc, text) {
        Ok(entries) => Ok(Stored { entries }),
        Err(Halt::Memory) => Err(Refusal::NoMemory),
        Err(Halt::Broken(left)) => {
            let place = (text.len() - left) as u64;
            Err(Refusal::Fault(StoreDamage::BadShape { place }))
        }
    }
}

/// The text before its trailer.
fn unsealed(bytes: &[u8]) -> Option<&[u8]>
    ensures { MatchOption result ((text : Bytes) → bytes.now ≢ sealed text) (λ text. bytes.now ≡ sealed text.now) }
{
    if bytes.len() < 32 {
        return None;
    }
    let (text, trailer) = bytes.split_at(bytes.len() - 32);
    if is_trailer(text, trailer) {
        Some(text)
    } else {
        None
    }
}

/// Whether a text is sealed with this trailer.
fn is_trailer(text: &[u8], trailer: &[u8]) -> bool
    ensures { result ≡ bytes_eq (sha256 text.now) trailer.now }
{
    sha_of(text).as_slice() == trailer
}

/// The entries, after which nothing follows.
fn store_at(alloc: Global, bytes: &[u8]) -> Result<Vec<Entry>, Halt>
    ensures { Gives spec.a_store bytes.now (λ v. (v.items, [])) result }
{
    let Some(rest) = behind(bytes, b"hkstore 2\n") else {
        return Err(Halt::Broken(bytes.len()));
    };
    let (count, rest) = count_at(rest)?;
    let (entries, rest) = entries_at(alloc, count, rest)?;
    if rest.is_empty() {
        Ok(entries)
    } else {
        Err(Halt::Broken(rest.len()))
    }
}

/// So many entries in strict order of their identifiers.
fn entries_at(alloc: Global, count: u64, bytes: &[u8]) -> Result<(Vec<Entry>, &[u8]), Halt>
    ensures { Gives (each count spec.an_entry []) bytes.now (λ p. (p.0.items, p.1.now)) result }
{
    let mut entries: Vec<Entry> = Vec::new(alloc);
    let mut rest = bytes;
    for _done in 0..count {
        let (entry, next) = entry_at(alloc, last_id(&entries), rest)?;
        entries.push(entry)?;
        rest = next;
    }
    Ok((entries, rest))
}

fn last_id(entries: &[Entry]) -> Option<&Identifier>
    ensures { option_map (λ id. id.now) result ≡ spec.last_of (ids_of entries.now) }
{
    match entries.last() {
        Some(entry) => Some(&entry.id),
        None => None,
    }
}

/// An entry whose identifier is above the last one.
fn entry_at<'a>(
    alloc: Global,
    last: Option<&Identifier>,
    bytes: &'a [u8],
) -> Result<(Entry, &'a [u8]), Halt>
    ensures { Gives (spec.an_entry_above (option_map (λ id. id.now) last.entry)) bytes.now (λ p. (p.0, p.1.now)) result }
{
    let (id, rest) = id_after(alloc, last, bytes)?;
    let (print, rest) = digest_at(rest)?;
    let (count, rest) = count_at(rest)?;
    let (patterns, rest) = matches_at(alloc, count, rest)?;
    let (total, rest) = some_count_at(rest)?;
    let (marks, rest) = marks_at(alloc, total, rest)?;
    Ok((
        Entry {
            id,
            print,
            patterns,
            marks,
        },
        rest,
    ))
}
