// The text of a store.
ghost use Rattle.std.specs.Prelude.{◌≡◌, ◌++◌, length, map, codes, IfOk, OnOk};
ghost use Rattle.std.specs.List.{flat_map};
ghost use Rattle.hk_forms.specs.PatternText as field;
ghost use Rattle.sha2.specs.Sha256.{sha256};
ghost use Rattle.hk_store.specs.Marks.{mark_view};
ghost use Rattle.hk_store.specs.Stored.{IsStored};
ghost use Rattle.hk_store.specs.StoreText as spec;
ghost use Rattle.hk_store.specs.Told.{many};

use crate::entry::{AskRecord, Entry, MarkRecord, MatchRecord, Stored};
use crate::fields::{append, write_ident, write_num, write_str};
use hk_base::{Identifier, NoMemory, Text};
use hk_chain::{Kind, Page};
use sha2::{Digest, Sha256};
use std::alloc::Global;

/// The text of a store, with the SHA-256 of it behind. The entries have to be in strict order of their identifiers, each
/// with ascending matches, no empty group, no page that is asked for twice, no name that is saved twice, names of pages,
/// and the save of the finished page as its last mark. `NoMemory` only for want of memory. Linear.
pub fn print_store(alloc: Global, stored: &Stored) -> Result<Text, NoMemory>
    requires { IsStored stored.now }
    ensures { IfOk result (λ t. t ≡ spec.sealed (spec.store_text stored.now)) }
{
    let mut out = Vec::new(alloc);
    write_store(&mut out, &stored.entries)?;
    let trailer = sha_of(&out);
    append(&mut out, &trailer)?;
    Ok(Text::from_vec(out))
}

/// The SHA-256 of bytes.
pub(crate) fn sha_of(bytes: &[u8]) -> [u8; 32]
    ensures { result ≡ sha256 bytes.now }
{
    let mut hasher = Sha256::new();
    hasher.update(bytes);
    hasher.finalize()
}

fn write_store(out: &mut Vec<u8>, entries: &[Entry]) -> Result<(), NoMemory>
    ensures { OnOk result (out.new.items ≡ out.old.items ++ spec.store_text entries.now) }
{
    append(out, b"hkstore 2\n")?;
    write_num(out, entries.len())?;
    write_entries(out, entries)
}

fn write_entries(out: &mut Vec<u8>, entries: &[Entry]) -> Result<(), NoMemory>
    ensures { OnOk result (out.new.items ≡ out.old.items ++ flat_map spec.entry_text entries.now) }
{
    for entry in entries {
        write_entry(out, entry)?;
    }
    Ok(())
}

fn write_entry(out: &mut Vec<u8>, entry: &Entry) -> Result<(), NoMemory>
    ensures { OnOk result (out.new.items ≡ out.old.items ++ spec.entry_text entry.now) }
{
    write_ident(out, &entry.id)?;
    write_digest(out, &entry.print)?;
    write_patterns(out, &entry.patterns)?;
    write_marks(out, &entry.marks)
}

fn write_digest(out: &mut Vec<u8>, digest: &[u8; 32]) -> Result<(), NoMemory>
    ensures { OnOk result (out.new.items ≡ out.old.items ++ spec.digest_text digest.now) }
{
    let mut digits = [0; 64];
    if hex::encode_to_slice(digest.as_slice(), &mut digits).is_err() {
        unreachable!();
    }
    append(out, &digits)?;
    append(out, b"\n")
}

fn write_patterns(out: &mut Vec<u8>, patterns: &[MatchRecord]) -> Result<(), NoMemory>
    ensures { OnOk result (out.new.items ≡ out.old.items ++ many spec.match_text patterns.now) }
{
    write_num(out, patterns.len())?;
    write_each_pattern(out, patterns)
}

fn write_each_pattern(out: &mut Vec<u8>, patterns: &[MatchRecord]) -> Result<(), NoMemory>
    ensures { OnOk result (out.new.items ≡ out.old.items ++ flat_map spec.match_text patterns.now) }
{
    for pattern in patterns {
        write_pattern(out, pattern)?;
    }
    Ok(())
}

fn write_pattern(out: &mut Vec<u8>, pattern: &MatchRecord) -> Result<(), NoMemory>
    ensures { OnOk result (out.new.items ≡ out.old.items ++ spec.match_text pattern.now) }
{
    write_str(out, pattern.text.as_slice())?;
    write_num(out, pattern.matches.len())?;
    write_each_ident(out, &pattern.matches)
}

fn write_each_ident(out: &mut Vec<u8>, ids: &[Identifier]) -> Result<(), NoMemory>
    ensures { OnOk result (out.new.items ≡ out.old.items ++ flat_map field.ident_text ids.now) }
{
    for id in ids {
        write_ident(out, id)?;
    }
    Ok(())
}

fn write_marks(out: &mut Vec<u8>, marks: &[MarkRecord]) -> Result<(), NoMemory>
    ensures { OnOk result (out.new.items ≡ out.old.items ++ many spec.mark_text (map mark_view marks.now)) }
{
    write_num(out, marks.len())?;
    write_each_mark(out, marks)
}

fn write_each_mark(out: &mut Vec<u8>, marks: &[MarkRecord]) -> Result<(), NoMemory>
    ensures { OnOk result (out.new.items ≡ out.old.items ++ flat_map spec.mark_text (map mark_view marks.now)) }
{
    for mark in marks {
        write_mark(out, mark)?;
    }
    Ok(())
}

fn write_mark(out: &mut Vec<u8>, mark: &MarkRecord) -> Result<(), NoMemory>
    ensures { OnOk result (out.new.items ≡ out.old.items ++ spec.mark_text (mark_view mark.now)) }
{
    match mark {
        MarkRecord::Asks(asks) => {
            append(out, b"a\n")?;
            write_num(out, asks.len())?;
            write_each_ask(out, asks)
        }
        MarkRecord::Save(save) => {
            append(out, b"s\n")?;
            write_str(out, save.name.as_slice())?;
            write_page(out, save.page.get())
        }
    }
}

fn write_each_ask(out: &mut Vec<u8>, asks: &[AskRecord]) -> Result<(), NoMemory>
    ensures { OnOk result (out.new.items ≡ out.old.items ++ flat_map spec.ask_text asks.now) }
{
    for ask in asks {
        write_ask(out, ask)?;
    }
    Ok(())
}

fn write_ask(out: &mut Vec<u8>, ask: &AskRecord) -> Result<(), NoMemory>
    ensures { OnOk result (out.new.items ≡ out.old.items ++ spec.ask_text ask.now) }
{
    write_ident(out, &ask.id)?;
    write_str(out, ask.name.as_slice())?;
    write_digest(out, &ask.page)?;
    write_digest(out, &ask.traits)
}

fn write_page(out: &mut Vec<u8>, page: &Page) -> Result<(), NoMemory>
    ensures { OnOk result (out.new.items ≡ out.old.items ++ spec.page_text page.now) }
{
    append(out, kind_line(page.kind))?;
    write_str(out, page.body.as_slice())
}

/// The line that tells a page's kind.
pub(crate) fn kind_line(kind: Kind) -> &'static [u8]
    ensures { result.now ≡ spec.kind_text kind }
{
    match kind {
        Kind::Text => b"T\n",
        Kind::Template => b"M\n",
        Kind::File => b"F\n",
    }
}
