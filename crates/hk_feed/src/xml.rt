// Bytes as text of an XML document.
ghost use Rattle.std.specs.Prelude.{◌≡◌, ◌++◌, OnOk, chars};
ghost use Rattle.std.specs.List.{flat_map};
ghost use Rattle.std.specs.String.{string_bytes};
ghost use Rattle.hk_feed.specs.Xml as spec;

use hk_base::NoMemory;
use std::alloc::Global;

/// Appends what stands for bytes in an XML document: their text, with U+FFFD for what is no UTF-8, without the characters
/// that XML knows in no document, and with names for `&`, `<`, `>`, `"` and `'`. Linear.
pub(crate) fn append_xml(alloc: Global, out: &mut String, bytes: &[u8]) -> Result<(), NoMemory>
    ensures { OnOk result (string_bytes out.new ≡ string_bytes out.old ++ spec.xml bytes.now) }
{
    let text = String::from_utf8_lossy(alloc, bytes)?;
    append_kept(out, text.as_str())?;
    Ok(())
}

/// Appends the characters of a text that stay, escaped.
fn append_kept(out: &mut String, text: &str) -> Result<(), NoMemory>
    ensures { OnOk result (string_bytes out.new ≡ string_bytes out.old ++ flat_map spec.text_of_char (chars text.now)) }
{
    for character in text.chars() {
        append_char(out, character)?;
    }
    Ok(())
}

fn append_char(out: &mut String, character: char) -> Result<(), NoMemory>
    ensures { OnOk result (string_bytes out.new ≡ string_bytes out.old ++ spec.text_of_char character) }
{
    if is_kept(character) {
        append_escaped(out, character)
    } else {
        Ok(())
    }
}

/// Whether a character stays: none below 32 but tab, LF and CR, and neither U+FFFE nor U+FFFF.
fn is_kept(character: char) -> bool
    ensures { result ≡ spec.is_kept character }
{
    match character {
        '\t' | '\n' | '\r' => true,
        '\u{FFFE}' | '\u{FFFF}' => false,
        _ => character >= ' ',
    }
}

fn append_escaped(out: &mut String, character: char) -> Result<(), NoMemory>
    ensures { OnOk result (string_bytes out.new ≡ string_bytes out.old ++ spec.escaped character) }
{
    match character {
        '&' => out.push_str("&amp;")?,
        '<' => out.push_str("&lt;")?,
        '>' => out.push_str("&gt;")?,
        '"' => out.push_str("&quot;")?,
        '\'' => out.push_str("&#39;")?,
        _ => out.push(character)?,
    }
    Ok(())
}
