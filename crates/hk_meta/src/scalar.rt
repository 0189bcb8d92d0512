// Scalars: what a header line says after its dash or its colon.
ghost use Rattle.std.specs.Prelude.{◌≡◌, ◌≤◌, [], None, if◌then◌else◌, true, false, length, take, IfOk, option_map};
ghost use Rattle.hk_meta.specs.Scalar as spec;
ghost use Rattle.hk_meta.specs.ScalarView.{read_view, scalar_view};

use crate::joined::Joined;
use hk_base::NoMemory;
use std::alloc::Global;

/// A value, and what follows it in its line.
#[derive(Drop)]
pub(crate) struct Read<'a> {
    pub value: Vec<u8>,
    pub rest: &'a [u8],
}

/// A value, and whether it is that of a plain scalar.
#[derive(Drop)]
pub(crate) struct Scalar {
    pub value: Vec<u8>,
    pub plain: bool,
}

pub(crate) fn is_blank(byte: u8) -> bool
    ensures { result ≡ spec.is_blank byte }
{
    byte == b' ' || byte == b'\t'
}

/// The text without the blanks at its beginning.
pub(crate) fn skip_blanks(text: &[u8]) -> &[u8]
    ensures { result.now ≡ spec.skip_blanks text.now }
{
    let mut start = 0;
    while start < text.len() && is_blank(text[start]) {
        start += 1;
    }
    &text[start..]
}

/// The text without the blanks at its end.
fn trim_end(text: &[u8]) -> &[u8]
    ensures { result.now ≡ spec.trim_end text.now }
{
    let mut end = text.len();
    while end > 0 && is_blank(text[end - 1]) {
        end -= 1;
    }
    &text[..end]
}

/// Whether only blanks stand here, or blanks and a comment.
pub(crate) fn is_ignored(text: &[u8]) -> bool
    ensures { result ≡ spec.is_ignored text.now }
{
    begins_comment(skip_blanks(text))
}

fn begins_comment(text: &[u8]) -> bool
    ensures { result ≡ spec.begins_comment text.now }
{
    text.is_empty() || text[0] == b'#'
}

/// Whether a scalar may end before this: before nothing, blanks, or a blank and a comment.
fn ends_scalar(text: &[u8]) -> bool
    ensures { result ≡ spec.ends_scalar text.now }
{
    text.is_empty() || (is_blank(text[0]) && is_ignored(&text[1..]))
}

fn is_escape(byte: u8) -> bool
    ensures { result ≡ spec.is_escape byte }
{
    matches!(byte, b'"' | b'\\' | b'n' | b't')
}

fn unescaped(byte: u8) -> u8
    ensures { result ≡ spec.unescaped byte }
{
    match byte {
        b'n' => b'\n',
        b't' => b'\t',
        other => other,
    }
}

/// Reads on after a double quote.
fn read_double(alloc: Global, text: &[u8]) -> Result<Option<Read<'_>>, NoMemory>
    ensures { IfOk result (λ r. option_map read_view r ≡ spec.double_from [] false text.now) }
{
    let mut value = Vec::new(alloc);
    let mut begun = false;
    for (i, byte) in text.iter().enumerate() {
        if begun {
            if !is_escape(*byte) {
                return Ok(None);
            }
            value.push(unescaped(*byte))?;
            begun = false;
        } else if *byte == b'"' {
            let rest = &text[i + 1..];
            return Ok(Some(Read { value, rest }));
        } else if *byte == b'\\' {
            begun = true;
        } else {
            value.push(*byte)?;
        }
    }
    Ok(None)
}

/// Reads on after a single quote.
fn read_single(alloc: Global, text: &[u8]) -> Result<Option<Read<'_>>, NoMemory>
    ensures { IfOk result (λ r. option_map read_view r ≡ spec.single_from [] false text.now) }
{
    let mut value = Vec::new(alloc);
    let mut begun = false;
    for (i, byte) in text.iter().enumerate() {
        if begun && *byte != b'\'' {
            let rest = &text[i..];
            return Ok(Some(Read { value, rest }));
        }
        if begun || *byte != b'\'' {
            value.push(*byte)?;
        }
        begun = !begun && *byte == b'\'';
    }
    if begun {
        let rest = &text[text.len()..];
        Ok(Some(Read { value, rest }))
    } else {
        Ok(None)
    }
}

fn is_quote(byte: u8) -> bool
    ensures { result ≡ spec.is_quote byte }
{
    byte == b'"' || byte == b'\''
}

/// Reads on after a quote.
#[tactic(auto, unfolding(crate::specs::Scalar::quoted))]
fn read_quoted(alloc: Global, quote: u8, text: &[u8]) -> Result<Option<Read<'_>>, NoMemory>
    ensures { IfOk result (λ r. option_map read_view r ≡ spec.quoted quote text.now) }
{
    if quote == b'"' {
        read_double(alloc, text)
    } else {
        read_single(alloc, text)
    }
}

/// The text before a comment, without the blanks at its end.
#[tactic(auto, unfolding(crate::specs::Scalar::plain))]
fn plain(text: &[u8]) -> &[u8]
    ensures { result.now ≡ spec.plain text.now }
{
    trim_end(before_comment(text))
}

fn before_comment(text: &[u8]) -> &[u8]
    ensures { result.now ≡ take (spec.comment_from 0 true text.now) text.now }
{
    let mut free = true;
    for (i, byte) in text.iter().enumerate() {
        if *byte == b'#' && free {
            return &text[..i];
        }
        free = is_blank(*byte);
    }
    text
}

/// How many bytes stand before the first that ends a plain member of a bracketed list.
fn member_len(text: &[u8]) -> usize
    ensures value { result ≡ spec.member_len text.now }
    ensures bound { result ≤ length text.now }
{
    let mut len = 0;
    while len < text.len() && !ends_member(text[len]) {
        len += 1;
    }
    len
}

fn ends_member(byte: u8) -> bool
    ensures { result ≡ spec.ends_member byte }
{
    matches!(byte, b',' | b'[' | b']' | b'{' | b'}')
}

/// Joins a plain member, and gives what follows it.
fn plain_member<'a>(joined: &mut Joined, text: &'a [u8]) -> Result<&'a [u8], NoMemory>
    ensures { IfOk result (λ rest. Some (joined.new, rest.now) ≡ spec.plain_member joined.old text.now) }
{
    let len = member_len(text);
    let member = trim_end(&text[..len]);
    if !member.is_empty() {
        joined.push(member)?;
    }
    Ok(&text[len..])
}

/// Joins a member of a bracketed list, and gives what follows it.
#[tactic(auto, unfolding(crate::specs::Scalar::read_member))]
fn read_member<'a>(
    alloc: Global,
    joined: &mut Joined,
    text: &'a [u8],
) -> Result<Option<&'a [u8]>, NoMemory>
    ensures { IfOk result (λ r. option_map (λ rest. (joined.new, rest.now)) r ≡ spec.read_member joined.old text.now) }
{
    if text.is_empty() || !is_quote(text[0]) {
        let rest = plain_member(joined, text)?;
        return Ok(Some(rest));
    }
    match read_quoted(alloc, text[0], &text[1..])? {
        Some(read) => {
            joined.push(&read.value)?;
            Ok(Some(skip_blanks(read.rest)))
        }
        None => Ok(None),
    }
}

/// Reads on after `[`.
#[tactic(auto, using(crate::proofs::Members::members_step, crate::proofs::Members::members_end))]
fn read_bracketed(alloc: Global, text: &[u8]) -> Result<Option<Read<'_>>, NoMemory>
    ensures { IfOk result (λ r. option_map read_view r ≡ spec.bracketed text.now) }
{
    let mut joined = Joined::new(alloc);
    let mut rest = text;
    for _member in 0..text.len() {
        match read_member(alloc, &mut joined, skip_blanks(rest))? {
            Some(after) => {
                if after.is_empty() {
                    return Ok(None);
                }
                rest = &after[1..];
                match after[0] {
                    b',' => {}
                    b']' => {
                        let value = joined.into_value();
                        return Ok(Some(Read { value, rest }));
                    }
                    _ => return Ok(None),
                }
            }
            None => return Ok(None),
        }
    }
    Ok(None)
}

/// The scalar of a line after its dash or its colon. In a list's line no bracketed one may stand.
pub(crate) fn read_scalar(
    alloc: Global,
    in_list: bool,
    text: &[u8],
) -> Result<Option<Scalar>, NoMemory>
    ensures { IfOk result (λ r. option_map scalar_view r ≡ spec.scalar in_list text.now) }
{
    scalar_at(alloc, in_list, skip_blanks(text))
}

#[tactic(auto, unfolding(crate::specs::Scalar::scalar_at))]
fn scalar_at(alloc: Global, in_list: bool, text: &[u8]) -> Result<Option<Scalar>, NoMemory>
    ensures { IfOk result (λ r. option_map scalar_view r ≡ spec.scalar_at in_list text.now) }
{
    if text.is_empty() {
        return Ok(Some(Scalar {
            value: Vec::new(alloc),
            plain: true,
        }));
    }
    let first = text[0];
    if is_quote(first) {
        let read = read_quoted(alloc, first, &text[1..])?;
        return Ok(closed(read));
    }
    if first == b'[' {
        return bracketed(alloc, in_list, &text[1..]);
    }
    if is_reserved(first) {
        return Ok(None);
    }
    let value = Vec::from_slice(alloc, plain(text))?;
    Ok(Some(Scalar { value, plain: true }))
}

fn bracketed(alloc: Global, in_list: bool, text: &[u8]) -> Result<Option<Scalar>, NoMemory>
    ensures { IfOk result (λ r. option_map scalar_view r ≡ (if in_list then None else spec.closed (spec.bracketed text.now))) }
{
    if in_list {
        return Ok(None);
    }
    let read = read_bracketed(alloc, text)?;
    Ok(closed(read))
}

fn is_reserved(byte: u8) -> bool
    ensures { result ≡ spec.is_reserved byte }
{
    matches!(byte, b'|' | b'>' | b'{' | b'&' | b'*' | b'!')
}

/// A quoted or bracketed scalar, where nothing but blanks and a comment follows it.
fn closed(read: Option<Read<'_>>) -> Option<Scalar>
    ensures { option_map scalar_view result ≡ spec.closed (option_map read_view read.entry) }
{
    match read {
        Some(read) => {
            if ends_scalar(read.rest) {
                Some(Scalar {
                    value: read.value,
                    plain: false,
                })
            } else {
                None
            }
        }
        None => None,
    }
}
