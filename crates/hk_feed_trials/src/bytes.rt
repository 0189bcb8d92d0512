// How bytes are written in a case.
use hk_base::Text;
use std::alloc::{AllocError, Global};
use std::test::Fail;

/// A text in which `^n`, `^t` and `^r` are a line feed, a tab and a return, and `^x` with two digits is any byte.
pub fn text_of(alloc: Global, text: &str) -> Result<Text, Fail> {
    let mut bytes = Vec::new(alloc);
    for (place, part) in text.split('^').enumerate() {
        match part.as_bytes() {
            plain if place == 0 => bytes.extend_from_slice(plain)?,
            [b'n', rest @ ..] => add(&mut bytes, b'\n', rest)?,
            [b't', rest @ ..] => add(&mut bytes, b'\t', rest)?,
            [b'r', rest @ ..] => add(&mut bytes, b'\r', rest)?,
            [b'x', high, low, rest @ ..] => {
                add(&mut bytes, digit(*high) << 4 | digit(*low), rest)?;
            }
            _ => return Err(Fail::new("no such byte")),
        }
    }
    Ok(Text::from_vec(bytes))
}

fn add(bytes: &mut Vec<u8>, byte: u8, rest: &[u8]) -> Result<(), AllocError> {
    bytes.push(byte)?;
    bytes.extend_from_slice(rest)
}

fn digit(byte: u8) -> u8 {
    match byte {
        b'0'..=b'9' => byte - b'0',
        b'a'..=b'f' => byte - b'a' + 10,
        _ => 0,
    }
}
