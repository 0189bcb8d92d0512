// The text of a pattern, by which patterns are told apart.
ghost use Rattle.std.specs.Prelude.{◌≡◌, ◌++◌, OnOk, IfOk, map, length, codes};
ghost use Rattle.std.specs.Option.{option_copied};
ghost use Rattle.hk_forms.specs.PatternText as spec;

use hk_base::{Identifier, NoMemory, Text};
use hk_pattern::Pattern;
use std::alloc::Global;

/// The text of a pattern, by which patterns are told apart: each part with its length or its count in front. `NoMemory`
/// only for want of memory. Linear.
pub fn text_of_pattern(alloc: Global, pattern: &Pattern) -> Result<Text, NoMemory>
    ensures { IfOk result (λ t. t ≡ spec.text_of pattern.now) }
{
    let mut out = Vec::new(alloc);
    write_pattern(alloc, &mut out, pattern)?;
    Ok(Text::from_vec(out))
}

#[cycle(writing)]
fn write_pattern(alloc: Global, out: &mut Vec<u8>, pattern: &Pattern) -> Result<(), NoMemory>
    ensures { OnOk result (out.new.items ≡ out.old.items ++ spec.text_of pattern.now) }
{
    match pattern {
        Pattern::Glob(glob) => write_pair(alloc, out, b"glob", glob.text()),
        Pattern::Ids(ids) => write_idents(alloc, out, ids.as_slice()),
        Pattern::And(patterns) => write_patterns(alloc, out, b"and", patterns.as_slice()),
        Pattern::Or(patterns) => write_patterns(alloc, out, b"or", patterns.as_slice()),
        Pattern::Not(pattern) => {
            write_str(alloc, out, b"not")?;
            write_pattern(alloc, out, pattern.get())
        }
        Pattern::HasVersion(version) => write_pair(alloc, out, b"version", version.as_slice()),
        Pattern::HasNoVersion => write_str(alloc, out, b"noversion"),
    }
}

#[cycle(writing)]
fn write_patterns(
    alloc: Global,
    out: &mut Vec<u8>,
    word: &[u8],
    patterns: &[Pattern],
) -> Result<(), NoMemory>
    ensures { OnOk result (out.new.items ≡ out.old.items ++ (spec.str word.now ++ (spec.num (length patterns.now) ++ spec.texts_joined (map spec.text_of patterns.now)))) }
{
    write_str(alloc, out, word)?;
    write_num(alloc, out, patterns.len())?;
    write_each(alloc, out, patterns)
}

#[cycle(writing)]
fn write_each(alloc: Global, out: &mut Vec<u8>, patterns: &[Pattern]) -> Result<(), NoMemory>
    ensures { OnOk result (out.new.items ≡ out.old.items ++ spec.texts_joined (map spec.text_of patterns.now)) }
{
    for pattern in patterns {
        write_pattern(alloc, out, pattern)?;
    }
    Ok(())
}

fn write_idents(alloc: Global, out: &mut Vec<u8>, ids: &[Identifier]) -> Result<(), NoMemory>
    ensures { OnOk result (out.new.items ≡ out.old.items ++ (spec.str (codes "ids") ++ (spec.num (length ids.now) ++ spec.idents_text ids.now))) }
{
    write_str(alloc, out, b"ids")?;
    write_num(alloc, out, ids.len())?;
    write_each_ident(alloc, out, ids)
}

fn write_each_ident(alloc: Global, out: &mut Vec<u8>, ids: &[Identifier]) -> Result<(), NoMemory>
    ensures { OnOk result (out.new.items ≡ out.old.items ++ spec.idents_text ids.now) }
{
    for id in ids {
        write_ident(alloc, out, id)?;
    }
    Ok(())
}

fn write_ident(alloc: Global, out: &mut Vec<u8>, id: &Identifier) -> Result<(), NoMemory>
    ensures { OnOk result (out.new.items ≡ out.old.items ++ spec.ident_text id.now) }
{
    write_str(alloc, out, id.path())?;
    write_opt(alloc, out, id.version())
}

fn write_opt(alloc: Global, out: &mut Vec<u8>, text: Option<&[u8]>) -> Result<(), NoMemory>
    ensures { OnOk result (out.new.items ≡ out.old.items ++ spec.opt (option_copied text.entry)) }
{
    match text {
        Some(text) => {
            append(out, b"+\n")?;
            write_str(alloc, out, text)
        }
        None => append(out, b"-\n"),
    }
}

fn write_pair(alloc: Global, out: &mut Vec<u8>, word: &[u8], text: &[u8]) -> Result<(), NoMemory>
    ensures { OnOk result (out.new.items ≡ out.old.items ++ (spec.str word.now ++ spec.str text.now)) }
{
    write_str(alloc, out, word)?;
    write_str(alloc, out, text)
}

fn write_str(alloc: Global, out: &mut Vec<u8>, text: &[u8]) -> Result<(), NoMemory>
    ensures { OnOk result (out.new.items ≡ out.old.items ++ spec.str text.now) }
{
    write_num(alloc, out, text.len())?;
    append(out, text)?;
    append(out, b"\n")
}

fn write_num(alloc: Global, out: &mut Vec<u8>, number: usize) -> Result<(), NoMemory>
    ensures { OnOk result (out.new.items ≡ out.old.items ++ spec.num number) }
{
    let text = format!(in alloc; "{number}\n")?;
    append(out, text.as_bytes())
}

fn append(out: &mut Vec<u8>, bytes: &[u8]) -> Result<(), NoMemory>
    ensures { OnOk result (out.new.items ≡ out.old.items ++ bytes.now) }
{
    out.extend_from_slice(bytes)?;
    Ok(())
}
