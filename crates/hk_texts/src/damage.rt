// The line of a damaged store.
ghost use Rattle.std.specs.Prelude.{◌≡◌, IfOk};
ghost use Rattle.hk_texts.specs.Printed as spec;

use hk_base::{NoMemory, Text};
use hk_store::StoreDamage;
use std::alloc::Global;

/// The line that says why a store counts as one without entries. Constant.
pub fn damage_line(alloc: Global, damage: &StoreDamage) -> Result<Text, NoMemory>
    ensures { IfOk result (λ text. text ≡ spec.damage_line damage.now) }
{
    match damage {
        StoreDamage::BadTrailer => Text::from_slice(alloc, b"store ignored: bad trailer\n"),
        StoreDamage::BadShape { place } => {
            let line = format!(in alloc; "store ignored: bad shape at {place}\n")?;
            Ok(Text::from_vec(line.into_bytes()))
        }
        StoreDamage::OldVersion => Text::from_slice(alloc, b"store ignored: version 1\n"),
    }
}
