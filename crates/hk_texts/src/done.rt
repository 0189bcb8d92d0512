// The lines of a command that was done.
ghost use Rattle.std.specs.Prelude.{◌≡◌, IfOk};
ghost use Rattle.hk_texts.specs.Printed as spec;

use hk_base::{NoMemory, Text};
use std::alloc::Global;

/// The line of a build: how many items it compiled, how many it reused, how many pages it wrote, and how many files it
/// removed. Constant.
pub fn summary(
    alloc: Global,
    compiled: u64,
    reused: u64,
    written: u64,
    removed: u64,
) -> Result<Text, NoMemory>
    ensures { IfOk result (λ text. text ≡ spec.summary compiled reused written removed) }
{
    let line = format!(in alloc;
        "compiled {compiled}, reused {reused}, written {written}, removed {removed}\n"
    )?;
    Ok(Text::from_vec(line.into_bytes()))
}

/// The line of a check: how many items there are. Constant.
pub fn items_line(alloc: Global, items: u64) -> Result<Text, NoMemory>
    ensures { IfOk result (λ text. text ≡ spec.items_line items) }
{
    let line = format!(in alloc; "ok, {items} items\n")?;
    Ok(Text::from_vec(line.into_bytes()))
}

/// The line of a cleaning: how many files there were. Constant.
pub fn removed_line(alloc: Global, files: u128) -> Result<Text, NoMemory>
    ensures { IfOk result (λ text. text ≡ spec.removed_line files) }
{
    let line = format!(in alloc; "removed {files}\n")?;
    Ok(Text::from_vec(line.into_bytes()))
}
