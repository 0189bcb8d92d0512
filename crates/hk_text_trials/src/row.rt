// How the arguments of a row are read, and how bytes are shown.
use std::alloc::{AllocError, Global};
use std::test::Fail;

/// The arguments between bars. Each is one or more parts between `&`, and a part is a text, or a number, `^*` and a text
/// that is meant so often. In a text `^n`, `^t` and `^r` are a line feed, a tab and a return, and `^x` with two digits is
/// any byte.
pub fn arguments(alloc: Global, text: &str) -> Result<Vec<Vec<u8>>, Fail> {
    let mut all = Vec::new(alloc);
    for argument in text.split('|') {
        all.push(argument_bytes(alloc, argument)?)?;
    }
    Ok(all)
}

fn argument_bytes(alloc: Global, argument: &str) -> Result<Vec<u8>, Fail> {
    let mut bytes = Vec::new(alloc);
    for part in argument.split('&') {
        match part.split_once("^*") {
            None => bytes.extend_from_slice(&text_bytes(alloc, part)?)?,
            Some((count, text)) => {
                add_often(&mut bytes, count.parse::<u32>()?, &text_bytes(alloc, text)?)?;
            }
        }
    }
    Ok(bytes)
}

fn add_often(bytes: &mut Vec<u8>, count: u32, part: &[u8]) -> Result<(), AllocError> {
    for _ in 0..count {
        bytes.extend_from_slice(part)?;
    }
    Ok(())
}

fn text_bytes(alloc: Global, text: &str) -> Result<Vec<u8>, Fail> {
    let mut bytes = Vec::new(alloc);
    for (place, part) in text.split('^').enumerate() {
        match part.as_bytes() {
            plain if place == 0 => bytes.extend_from_slice(plain)?,
            [b'n', rest @ ..] => add(&mut bytes, b'\n', rest)?,
            [b't', rest @ ..] => add(&mut bytes, b'\t', rest)?,
            [b'r', rest @ ..] => add(&mut bytes, b'\r', rest)?,
            [b'x', high, low, rest @ ..] => {
                add(&mut bytes, digit(*high) << 4 | digit(*low), rest)?;
            }
            _ => return Err(Fail::new("no such byte")),
        }
    }
    Ok(bytes)
}

fn add(bytes: &mut Vec<u8>, byte: u8, rest: &[u8]) -> Result<(), AllocError> {
    bytes.push(byte)?;
    bytes.extend_from_slice(rest)
}

fn digit(byte: u8) -> u8 {
    match byte {
        b'0'..=b'9' => byte - b'0',
        b'a'..=b'f' => byte - b'a' + 10,
        _ => 0,
    }
}

/// Bytes with Rust's escapes, or their number where they are many.
pub fn shown(alloc: Global, bytes: &[u8]) -> Result<String, AllocError> {
    if bytes.len() > 200 {
        format!(in alloc; "{} bytes", bytes.len())
    } else {
        format!(in alloc; "{}", bytes.escape_ascii())
    }
}

/// What became of the bytes.
pub fn changed(alloc: Global, given: &[u8], bytes: &[u8]) -> Result<String, AllocError> {
    if bytes == given {
        String::from_str(alloc, "unchanged")
    } else {
        shown(alloc, bytes)
    }
}

pub fn yes_or_no(alloc: Global, yes: bool) -> Result<String, Fail> {
    Ok(String::from_str(alloc, if yes { "yes" } else { "no" })?)
}

/// That threads may share it.
pub fn shared<T: Send + Sync>(value: &T) -> &T {
    value
}
