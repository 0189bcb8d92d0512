// What reading bytes as a store answers.
ghost use Rattle.hk_store.specs.Stored.{IsStored};

use hk_base::{NoMemory, Refusal};
use hk_store::{StoreDamage, Stored, print_store, read_store};
use sha2::{Digest, Sha256};
use std::alloc::Global;
use std::test::Fail;

/// A digest on its line.
const DIGEST: &[u8] = b"0123456789abcdef0123456789abcdef0123456789abcdef0123456789abcdef\n";

/// What reading the bytes of a row answers. A row is a sign, which says what trailer they have, and their text, where `|`
/// stands for LF and `@` for the line of a digest.
pub(crate) fn answered(alloc: Global, row: &str) -> Result<String, Fail> {
    let Some((sign, text)) = row.as_bytes().split_first() else {
        return Ok(told(alloc, b"")?);
    };
    let text = unpacked(alloc, text)?;
    match *sign {
        b'=' => Ok(told(alloc, &sealed(alloc, &text)?)?),
        b'!' => Ok(told(alloc, &broken(alloc, &text)?)?),
        b'<' => fronts(alloc, &sealed(alloc, &text)?),
        _ => Ok(told(alloc, &text)?),
    }
}

fn unpacked(alloc: Global, text: &[u8]) -> Result<Vec<u8>, NoMemory> {
    let mut bytes = Vec::new(alloc);
    for byte in text {
        match *byte {
            b'|' => bytes.push(b'\n')?,
            b'@' => bytes.extend_from_slice(DIGEST)?,
            other => bytes.push(other)?,
        }
    }
    Ok(bytes)
}

fn trailer_of(text: &[u8]) -> [u8; 32] {
    let mut hasher = Sha256::new();
    hasher.update(text);
    hasher.finalize()
}

/// The text with its trailer.
fn sealed(alloc: Global, text: &[u8]) -> Result<Vec<u8>, NoMemory> {
    let mut bytes = Vec::from_slice(alloc, text)?;
    bytes.extend_from_slice(&trailer_of(text))?;
    Ok(bytes)
}

/// The text with a trailer that has another last bit.
fn broken(alloc: Global, text: &[u8]) -> Result<Vec<u8>, NoMemory> {
    let mut trailer = trailer_of(text);
    trailer[31] ^= 1;
    let mut bytes = Vec::from_slice(alloc, text)?;
    bytes.extend_from_slice(&trailer)?;
    Ok(bytes)
}

/// How the bytes are read, and whether what is read is printed as them.
fn told(alloc: Global, bytes: &[u8]) -> Result<String, NoMemory> {
    match read_store(alloc, bytes) {
        Ok(stored) => printed(alloc, &stored, bytes),
        Err(Refusal::NoMemory) => Err(NoMemory),
        Err(Refusal::Fault(StoreDamage::BadTrailer)) => Ok(format!(in alloc; "bad trailer")?),
        Err(Refusal::Fault(StoreDamage::OldVersion)) => Ok(format!(in alloc; "version 1")?),
        Err(Refusal::Fault(StoreDamage::BadShape { place })) => {
            Ok(format!(in alloc; "bad shape at {place}")?)
        }
    }
}

fn printed(alloc: Global, stored: &Stored, bytes: &[u8]) -> Result<String, NoMemory>
    requires { IsStored stored.now }
{
    let again = print_store(alloc, stored)?;
    let entries = stored.entries.len();
    if again.as_slice() == bytes {
        Ok(format!(in alloc; "entries {entries}")?)
    } else {
        Ok(format!(in alloc; "entries {entries}, printed as another text")?)
    }
}

/// How many of the fronts of the bytes, from none of them to all but the last, are read as bytes with a bad trailer.
fn fronts(alloc: Global, bytes: &[u8]) -> Result<String, Fail> {
    let mut bad = 0u64;
    for count in 0..bytes.len() {
        if is_bad_trailer(alloc, &bytes[..count])? {
            bad = bad.wrapping_add(1);
        }
    }
    let count = bytes.len();
    Ok(format!(in alloc; "{bad} of {count} fronts have a bad trailer")?)
}

fn is_bad_trailer(alloc: Global, bytes: &[u8]) -> Result<bool, NoMemory> {
    match read_store(alloc, bytes) {
        Err(Refusal::Fault(StoreDamage::BadTrailer)) => Ok(true),
        Err(Refusal::NoMemory) => Err(NoMemory),
        _ => Ok(false),
    }
}
