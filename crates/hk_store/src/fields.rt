// The fields of which texts are made, written at the end of a text.
ghost use Rattle.std.specs.Prelude.{◌≡◌, ◌++◌, OnOk};
ghost use Rattle.std.specs.Option.{option_copied};
ghost use Rattle.hk_forms.specs.PatternText as spec;

use hk_base::{Identifier, NoMemory};
use itoa::Buffer;

/// A number on a line of its own.
pub(crate) fn write_num(out: &mut Vec<u8>, number: usize) -> Result<(), NoMemory>
    ensures { OnOk result (out.new.items ≡ out.old.items ++ spec.num number) }
{
    let mut digits = Buffer::new();
    append(out, digits.format(number).as_bytes())?;
    append(out, b"\n")
}

/// Bytes after a line with their number, and an LF.
pub(crate) fn write_str(out: &mut Vec<u8>, text: &[u8]) -> Result<(), NoMemory>
    ensures { OnOk result (out.new.items ≡ out.old.items ++ spec.str text.now) }
{
    write_num(out, text.len())?;
    append(out, text)?;
    append(out, b"\n")
}

/// A text, where there is one.
pub(crate) fn write_opt(out: &mut Vec<u8>, text: Option<&[u8]>) -> Result<(), NoMemory>
    ensures { OnOk result (out.new.items ≡ out.old.items ++ spec.opt (option_copied text.entry)) }
{
    match text {
        Some(text) => {
            append(out, b"+\n")?;
            write_str(out, text)
        }
        None => append(out, b"-\n"),
    }
}

/// An identifier: its path and its version.
pub(crate) fn write_ident(out: &mut Vec<u8>, id: &Identifier) -> Result<(), NoMemory>
    ensures { OnOk result (out.new.items ≡ out.old.items ++ spec.ident_text id.now) }
{
    write_str(out, id.path())?;
    write_opt(out, id.version())
}

/// Bytes as they are.
pub(crate) fn append(out: &mut Vec<u8>, bytes: &[u8]) -> Result<(), NoMemory>
    ensures { OnOk result (out.new.items ≡ out.old.items ++ bytes.now) }
{
    out.extend_from_slice(bytes)?;
    Ok(())
}
