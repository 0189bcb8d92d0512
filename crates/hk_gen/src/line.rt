// The line of a generated site.
ghost use Rattle.std.specs.Prelude.{◌≡◌, IfOk};
ghost use Rattle.hk_gen.specs.Line as spec;

use hk_base::{NoMemory, Text};
use std::alloc::Global;

/// The line of a generated site that was built: how many items and pages it has, and the trailer of the store that the
/// build leaves, the last 32 bytes of it, as hexadecimal digits. `NoMemory` only for want of memory. Constant.
pub fn generated_line(alloc: Global, items: u64, pages: u64, store: &[u8]) -> Result<Text, NoMemory>
    ensures { IfOk result (λ t. t ≡ spec.line items pages store.now) }
{
    let digest = hex::encode(alloc, trailer(store))?;
    let line = format!(in alloc; "items {items}, pages {pages}, digest {digest}\n")?;
    Ok(Text::from_vec(line.into_bytes()))
}

/// The last 32 bytes, or all where there are fewer.
fn trailer(store: &[u8]) -> &[u8]
    ensures { result.now ≡ spec.trailer store.now }
{
    &store[store.len().saturating_sub(32)..]
}
