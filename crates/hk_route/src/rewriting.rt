// What a route makes of a path's bytes.
ghost use Rattle.std.specs.Prelude.{◌≡◌, ◌≤◌, ◌<◌, length, true, IfOk, IfSome, IsTrue};
ghost use Rattle.hk_route.specs.Rewriting as spec;

use hk_base::{NoMemory, Text};
use std::alloc::Global;

/// The path with this extension in place of its own. One pass.
pub(crate) fn with_extension(alloc: Global, extension: &[u8], path: &[u8]) -> Result<Text, NoMemory>
    ensures { IfOk result (λ text. text ≡ spec.with_extension extension.now path.now) }
{
    let front = without_extension(path);
    let mut bytes = Vec::with_capacity(alloc, front.len() + 1 + extension.len())?;
    bytes.extend_from_slice(front)?;
    bytes.push(b'.')?;
    bytes.extend_from_slice(extension)?;
    Ok(Text::from_vec(bytes))
}

/// The path without the extension of its last component, lent. The extension begins at the component's last dot that isn't
/// its first byte. One pass; takes no memory.
pub fn without_extension(path: &[u8]) -> &[u8]
    ensures { result.now ≡ spec.without_extension path.now }
{
    match extension_at(path) {
        Some(at) => &path[..at],
        None => path,
    }
}

/// Where the last component's extension begins.
fn extension_at(path: &[u8]) -> Option<usize>
    ensures value { result ≡ spec.extension_at true path.now }
    ensures within { IfSome result (λ at. at ≤ length path.now) }
{
    let mut found = None;
    let mut first = true;
    for (at, byte) in path.iter().enumerate() {
        found = mark_after(found, at, first, *byte);
        first = *byte == b'/';
    }
    found
}

/// The mark of an extension after one more byte.
fn mark_after(found: Option<usize>, at: usize, first: bool, byte: u8) -> Option<usize>
    ensures { result ≡ spec.mark_after found at first byte }
{
    match byte {
        b'/' => None,
        b'.' if !first => Some(at),
        _ => found,
    }
}

/// The path with each occurrence of `old` replaced by `new`, from left to right. An empty `old` occurs nowhere. At each
/// byte `old` is compared as far as it is equal: at worst path times `old`.
pub(crate) fn replaced(alloc: Global, old: &[u8], new: &[u8], path: &[u8]) -> Result<Text, NoMemory>
    ensures { IfOk result (λ text. text ≡ spec.replaced old.now new.now path.now) }
{
    let mut bytes = Vec::with_capacity(alloc, path.len())?;
    let mut rest = path;
    while let [first, later @ ..] = rest {
        if occurs(old, rest) {
            bytes.extend_from_slice(new)?;
            rest = rest.split_at(old.len()).1;
        } else {
            bytes.push(*first)?;
            rest = later;
        }
    }
    Ok(Text::from_vec(bytes))
}

fn occurs(old: &[u8], path: &[u8]) -> bool
    ensures value { result ≡ spec.occurs old.now path.now }
    ensures within { IsTrue result → length old.now ≤ length path.now }
    ensures some { IsTrue result → 0 < length old.now }
{
    !old.is_empty() && path.starts_with(old)
}
