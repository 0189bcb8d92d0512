// The tags that a text lists, and how a tag is written in a path.
ghost use Rattle.std.specs.Prelude.{◌≡◌, ◌<◌, ◌++◌, IfOk, OnOk};
ghost use Rattle.hk_forms.specs.Names.{is_letter as letter, is_name_byte};
ghost use Rattle.hk_tags.specs.TagTexts as spec;

use hk_base::{NoMemory, Text};
use std::alloc::Global;

/// The tags that a text lists, in order. Linear.
#[tactic(auto, unfolding(crate::specs::TagTexts::tags_in))]
pub(crate) fn tags_in(alloc: Global, text: &[u8]) -> Result<Vec<Text>, NoMemory>
    ensures { IfOk result (λ v. v.items ≡ spec.tags_in text.now) }
{
    let mut tags = Vec::new(alloc);
    for part in text.split(|byte| *byte == b',') {
        push_tag(alloc, &mut tags, part)?;
    }
    Ok(tags)
}

/// One more tag, where the part has more than blanks.
fn push_tag(alloc: Global, tags: &mut Vec<Text>, part: &[u8]) -> Result<(), NoMemory>
    ensures { OnOk result (tags.new.items ≡ tags.old.items ++ spec.tag_of part.now) }
{
    let tag = trimmed(part);
    if tag.is_empty() {
        return Ok(());
    }
    tags.push(Text::from_slice(alloc, tag)?)?;
    Ok(())
}

/// The text without the blanks at its ends.
fn trimmed(text: &[u8]) -> &[u8]
    ensures { result.now ≡ spec.trimmed text.now }
{
    without_end(from_front(text))
}

fn from_front(text: &[u8]) -> &[u8]
    ensures { result.now ≡ spec.from_front text.now }
{
    let mut start = 0;
    while start < text.len() && is_blank(text[start]) {
        start += 1;
    }
    &text[start..]
}

fn without_end(text: &[u8]) -> &[u8]
    ensures { result.now ≡ spec.without_end text.now }
{
    let mut end = text.len();
    while end > 0 && is_blank(text[end - 1]) {
        end -= 1;
    }
    &text[..end]
}

fn is_blank(byte: u8) -> bool
    ensures { result ≡ spec.is_blank byte }
{
    (byte == b' ' || byte == b'\t') || (byte == b'\n' || byte == b'\r')
}

/// The tag as a part of a path, added to a text. Linear.
#[tactic(auto, unfolding(crate::specs::TagTexts::slug))]
pub(crate) fn push_slug(out: &mut Vec<u8>, tag: &[u8]) -> Result<(), NoMemory>
    ensures { OnOk result (out.new.items ≡ out.old.items ++ spec.slug tag.now) }
{
    for byte in tag {
        push_slug_byte(out, *byte)?;
    }
    Ok(())
}

fn push_slug_byte(out: &mut Vec<u8>, byte: u8) -> Result<(), NoMemory>
    ensures { OnOk result (out.new.items ≡ out.old.items ++ spec.slug_byte byte) }
{
    if is_plain(byte) {
        out.push(byte)?;
        return Ok(());
    }
    out.push(b'.')?;
    out.push(hex_digit(byte / 16))?;
    out.push(hex_digit(byte % 16))?;
    Ok(())
}

fn is_plain(byte: u8) -> bool
    ensures { result ≡ is_name_byte byte }
{
    (is_letter(byte) || (48 <= byte && byte <= 57)) || (byte == b'_' || byte == b'-')
}

fn is_letter(byte: u8) -> bool
    ensures { result ≡ letter byte }
{
    (65 <= byte && byte <= 90) || (97 <= byte && byte <= 122)
}

fn hex_digit(digit: u8) -> u8
    requires { digit < 16 }
    ensures { result ≡ spec.hex_digit digit }
{
    if digit < 10 { 48 + digit } else { 87 + digit }
}
