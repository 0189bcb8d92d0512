// How a row is read.
use std::alloc::{AllocError, Global};
use std::test::Fail;

/// What stands between the bars of a row. There `\n` is a line feed, and `\x` with two digits any byte.
pub fn arguments(alloc: Global, text: &str) -> Result<Vec<Vec<u8>>, Fail> {
    let mut all = Vec::new(alloc);
    for part in text.split('|') {
        all.push(bytes_of(alloc, part)?)?;
    }
    Ok(all)
}

fn bytes_of(alloc: Global, text: &str) -> Result<Vec<u8>, Fail> {
    let mut bytes = Vec::new(alloc);
    for (place, part) in text.split('\\').enumerate() {
        match part.as_bytes() {
            plain if place == 0 => bytes.extend_from_slice(plain)?,
            [b'n', rest @ ..] => add(&mut bytes, b'\n', rest)?,
            [b'x', high, low, rest @ ..] => {
                add(&mut bytes, digit(*high) << 4 | digit(*low), rest)?;
            }
            _ => return Err(Fail::new("no such byte")),
        }
    }
    Ok(bytes)
}

fn add(bytes: &mut Vec<u8>, byte: u8, rest: &[u8]) -> Result<(), AllocError> {
    bytes.push(byte)?;
    bytes.extend_from_slice(rest)
}

fn digit(byte: u8) -> u8 {
    match byte {
        b'0'..=b'9' => byte - b'0',
        b'a'..=b'f' => byte - b'a' + 10,
        _ => 0,
    }
}

/// The argument at this place, counted from 0.
pub fn bytes_at(args: &[Vec<u8>], place: usize) -> Result<&[u8], Fail> {
    match args.get(place) {
        Some(bytes) => Ok(bytes),
        None => Err(Fail::new("too few arguments")),
    }
}

/// The word at this place.
pub fn word_at(args: &[Vec<u8>], place: usize) -> Result<&str, Fail> {
    Ok(str::from_utf8(bytes_at(args, place)?)?)
}

/// The number of a call at this place.
pub fn number_at(args: &[Vec<u8>], place: usize) -> Result<u64, Fail> {
    Ok(word_at(args, place)?.parse::<u64>()?)
}

/// The number of bytes at this place.
pub fn size_at(args: &[Vec<u8>], place: usize) -> Result<usize, Fail> {
    Ok(word_at(args, place)?.parse::<usize>()?)
}
