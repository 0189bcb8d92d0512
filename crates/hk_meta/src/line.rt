// Header lines, one at a time.
ghost use Rattle.std.specs.Prelude.{◌≡◌, ◌≤◌, [], length, IfOk, option_map};
ghost use Rattle.hk_meta.specs.Line as spec;
ghost use Rattle.hk_meta.specs.LineView.{line_view};
ghost use Rattle.hk_meta.specs.ScalarView.{scalar_view};

use crate::scalar::{Scalar, is_blank, is_ignored, read_scalar, skip_blanks};
use hk_base::NoMemory;
use std::alloc::Global;

/// A line that says nothing, one more member of a list, a key with its value or with a list that follows, or a line
/// that is refused.
#[derive(Drop)]
pub(crate) enum Kind<'a> {
    Ignored,
    Member(Vec<u8>),
    Key(&'a [u8], Option<Vec<u8>>),
    Refused,
}

/// Reads a line without its end.
#[tactic(auto, unfolding(crate::specs::Line::line_of))]
pub(crate) fn read_line(alloc: Global, line: &[u8]) -> Result<Kind<'_>, NoMemory>
    ensures { IfOk result (λ kind. line_view kind ≡ spec.line_of line.now) }
{
    if is_ignored(line) {
        return Ok(Kind::Ignored);
    }
    match after_mark(b'-', skip_blanks(line)) {
        Some(text) => read_member(alloc, text),
        None => read_key_line(alloc, line),
    }
}

/// What follows a mark that the end or a blank follows.
fn after_mark(mark: u8, text: &[u8]) -> Option<&[u8]>
    ensures { option_map (λ rest. rest.now) result ≡ spec.after_mark mark text.now }
{
    if !text.is_empty() && text[0] == mark && begins_value(&text[1..]) {
        Some(&text[1..])
    } else {
        None
    }
}

fn begins_value(text: &[u8]) -> bool
    ensures { result ≡ spec.begins_value text.now }
{
    text.is_empty() || is_blank(text[0])
}

fn read_member(alloc: Global, text: &[u8]) -> Result<Kind<'_>, NoMemory>
    ensures { IfOk result (λ kind. line_view kind ≡ spec.dash_or_key [] (Some text.now)) }
{
    match read_scalar(alloc, true, text)? {
        Some(scalar) => Ok(Kind::Member(scalar.value)),
        None => Ok(Kind::Refused),
    }
}

#[tactic(auto, unfolding(crate::specs::Line::key_line_of))]
fn read_key_line(alloc: Global, line: &[u8]) -> Result<Kind<'_>, NoMemory>
    ensures { IfOk result (λ kind. line_view kind ≡ spec.key_line_of line.now) }
{
    let len = key_len(line);
    if len == 0 {
        return Ok(Kind::Refused);
    }
    match after_mark(b':', skip_blanks(&line[len..])) {
        Some(text) => read_key(alloc, &line[..len], text),
        None => Ok(Kind::Refused),
    }
}

fn key_len(line: &[u8]) -> usize
    ensures value { result ≡ spec.key_len line.now }
    ensures bound { result ≤ length line.now }
{
    let mut len = 0;
    while len < line.len() && is_key_byte(line[len]) {
        len += 1;
    }
    len
}

fn is_key_byte(byte: u8) -> bool
    ensures { result ≡ spec.is_key_byte byte }
{
    matches!(byte, b'a'..=b'z' | b'A'..=b'Z' | b'0'..=b'9' | b'_' | b'-' | b'.')
}

fn read_key<'a>(alloc: Global, key: &'a [u8], text: &[u8]) -> Result<Kind<'a>, NoMemory>
    ensures { IfOk result (λ kind. line_view kind ≡ spec.key_then key.now (Some text.now)) }
{
    match read_scalar(alloc, false, text)? {
        Some(scalar) => Ok(Kind::Key(key, value_of(scalar))),
        None => Ok(Kind::Refused),
    }
}

/// A plain scalar without bytes is no value.
fn value_of(scalar: Scalar) -> Option<Vec<u8>>
    ensures { option_map (λ v. v.items) result ≡ spec.value_by scalar.value.items scalar.plain }
{
    if scalar.plain && scalar.value.is_empty() {
        None
    } else {
        Some(scalar.value)
    }
}
