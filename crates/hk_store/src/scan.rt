// The fields that stand at the beginning of bytes.
ghost use Rattle.std.specs.Prelude.{◌≡◌, ℕ, ◌++◌, ◌<◌, ◌≤◌, ◌^◌, length, Option, option_map, Ok, Err, Some, None, IfSome, IfNone, IfOk, MatchOption, IsTrue, ◌≢◌};
ghost use Rattle.std.specs.Fmt.{decimal};
ghost use Rattle.std.specs.Char.{is_ascii_digit};
ghost use Rattle.std.specs.List.{list_all};
ghost use Rattle.std.specs.Option.{option_copied};
ghost use Rattle.hk_base.specs.Line as line;
ghost use Rattle.hk_base.specs.Bytes.{Bytes};
ghost use Rattle.hex.specs.Hex.{encode_lower};
ghost use Rattle.hk_forms.specs.PatternText as field;
ghost use Rattle.hk_store.specs.Digits as digits;
ghost use Rattle.hk_store.specs.Found.{Finds};
ghost use Rattle.hk_store.specs.Stored.{HeldId, IsDigest};
ghost use Rattle.hk_store.specs.StoreText as spec;
ghost use Rattle.hk_store.specs.Told.{Any, Short, Small};

use hk_base::{Identifier, NoMemory, Refusal};
use hk_chain::Kind;
use std::alloc::Global;

/// What follows a front; `None` exactly where the bytes don't begin with it.
pub(crate) fn behind<'a>(bytes: &'a [u8], front: &[u8]) -> Option<&'a [u8]>
    ensures { MatchOption result ((rest : Bytes) → bytes.now ≢ front.now ++ rest) (λ rest. bytes.now ≡ front.now ++ rest.now) }
{
    bytes.strip_prefix(front)
}

/// The number on the first line.
pub(crate) fn num_in(bytes: &[u8]) -> Option<(u64, &[u8])>
    ensures { Finds field.num Small bytes.now (option_map (λ p. (p.0, p.1.now)) result) }
{
    let Some(end) = before_feed(bytes) else {
        return None;
    };
    let (line, rest) = bytes.split_at(end);
    let Some(rest) = behind(rest, b"\n") else {
        return None;
    };
    let Some(number) = number_of(line) else {
        return None;
    };
    Some((number, rest))
}

/// How many bytes stand before the first LF.
fn before_feed(bytes: &[u8]) -> Option<usize>
    ensures value { result ≡ line.before_feed bytes.now }
    ensures bound { IfSome result (λ count. count < length bytes.now) }
{
    bytes.iter().position(|byte| *byte == b'\n')
}

/// The number that is written so.
fn number_of(line: &[u8]) -> Option<u64>
    ensures { MatchOption result ((n : ℕ) → Small n → line.now ≢ decimal n) (λ n. line.now ≡ decimal n) }
{
    if begins_plain(line) && are_digits(line) {
        value_of(line)
    } else {
        None
    }
}

/// Whether there is a byte, and no 0 in front of others.
fn begins_plain(line: &[u8]) -> bool
    ensures { result ≡ digits.begins_plain line.now }
{
    match line.first() {
        Some(byte) => *byte != b'0' || line.len() == 1,
        None => false,
    }
}

fn are_digits(line: &[u8]) -> bool
    ensures { result ≡ list_all is_ascii_digit line.now }
{
    line.iter().all(|byte| byte.is_ascii_digit())
}

/// The number that digits stand for.
fn value_of(line: &[u8]) -> Option<u64>
    ensures { MatchOption result (2 ^ 64 ≤ digits.read_on 0 line.now) (λ n. (n ≡ digits.read_on 0 line.now) × (n < 2 ^ 64)) }
{
    let mut value: u64 = 0;
    for byte in line {
        let digit = byte.saturating_sub(b'0') as u64;
        let Some(more) = value.checked_mul(10) else {
            return None;
        };
        let Some(more) = more.checked_add(digit) else {
            return None;
        };
        value = more;
    }
    Some(value)
}

/// The bytes after a line with their number.
pub(crate) fn str_in(bytes: &[u8]) -> Option<(&[u8], &[u8])>
    ensures found { Finds field.str Any bytes.now (option_map (λ p. (p.0.now, p.1.now)) result) }
    ensures short { Short bytes.now }
{
    let most = bytes.len() as u64;
    let (count, rest) = num_in(bytes)?;
    if count > most || count > rest.len() as u64 {
        return None;
    }
    let (text, rest) = rest.split_at(count as usize);
    let Some(rest) = behind(rest, b"\n") else {
        return None;
    };
    Some((text, rest))
}

/// A text, or none.
pub(crate) fn opt_in(bytes: &[u8]) -> Option<(Option<&[u8]>, &[u8])>
    ensures { Finds field.opt Any bytes.now (option_map (λ p. (option_copied p.0, p.1.now)) result) }
{
    if let Some(rest) = behind(bytes, b"-\n") {
        return Some((None, rest));
    }
    let rest = behind(bytes, b"+\n")?;
    let (text, rest) = str_in(rest)?;
    Some((Some(text), rest))
}

/// An identifier.
pub(crate) fn ident_in(alloc: Global, bytes: &[u8]) -> Result<Option<(Identifier, &[u8])>, NoMemory>
    ensures { IfOk result (λ o. Finds field.ident_text HeldId bytes.now (option_map (λ p. (p.0, p.1.now)) o)) }
{
    let Some((path, rest)) = str_in(bytes) else {
        return Ok(None);
    };
    let Some((version, rest)) = opt_in(rest) else {
        return Ok(None);
    };
    match Identifier::read(alloc, path, version) {
        Ok(id) => Ok(Some((id, rest))),
        Err(Refusal::Fault(_)) => Ok(None),
        Err(Refusal::NoMemory) => Err(NoMemory),
    }
}

/// A digest.
pub(crate) fn digest_in(bytes: &[u8]) -> Option<([u8; 32], &[u8])>
    ensures { Finds spec.digest_text IsDigest bytes.now (option_map (λ p. (p.0, p.1.now)) result) }
{
    if bytes.len() < 64 {
        return None;
    }
    let (digits, rest) = bytes.split_at(64);
    let Some(rest) = behind(rest, b"\n") else {
        return None;
    };
    let Some(digest) = digest_of(digits) else {
        return None;
    };
    Some((digest, rest))
}

/// The digest with these digits.
fn digest_of(digits: &[u8]) -> Option<[u8; 32]>
    requires { length digits.now ≡ 64 }
    ensures some { IfSome result (λ d. IsDigest d × (digits.now ≡ encode_lower d)) }
    ensures none { IfNone result ((d : Bytes) → IsDigest d → digits.now ≡ encode_lower d → ⊥) }
{
    let mut digest = [0; 32];
    if hex::decode_to_slice(digits, &mut digest).is_err() {
        return None;
    }
    if is_printed_so(digest, digits) {
        Some(digest)
    } else {
        None
    }
}

/// Whether these are the digits that a digest is printed with.
fn is_printed_so(digest: [u8; 32], digits: &[u8]) -> bool
    ensures digest { IsDigest digest }
    ensures yes_so { IsTrue result → digits.now ≡ encode_lower digest }
    ensures else_not { digits.now ≡ encode_lower digest → IsTrue result }
{
    let mut printed = [0; 64];
    if hex::encode_to_slice(digest.as_slice(), &mut printed).is_err() {
        return false;
    }
    printed.as_slice() == digits
}

/// A page.
pub(crate) fn page_in(bytes: &[u8]) -> Option<((Kind, &[u8]), &[u8])>
    ensures { Finds spec.page_text Any bytes.now (option_map (λ p. (record { kind = p.0.0; body = p.0.1.now }, p.1.now)) result) }
{
    let (kind, rest) = kind_in(bytes)?;
    let (body, rest) = str_in(rest)?;
    Some(((kind, body), rest))
}

/// The kind of a page.
fn kind_in(bytes: &[u8]) -> Option<(Kind, &[u8])>
    ensures { Finds spec.kind_text Any bytes.now (option_map (λ p. (p.0, p.1.now)) result) }
{
    if let Some(rest) = behind(bytes, b"T\n") {
        Some((Kind::Text, rest))
    } else if let Some(rest) = behind(bytes, b"M\n") {
        Some((Kind::Template, rest))
    } else if let Some(rest) = behind(bytes, b"F\n") {
        Some((Kind::File, rest))
    } else {
        None
    }
}
