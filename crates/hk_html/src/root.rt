// The way from a target up to the root of its site.
ghost use Rattle.std.specs.Prelude.{◌≡◌, IfOk};
ghost use Rattle.hk_html.specs.Root as spec;

use hk_base::NoMemory;
use std::alloc::Global;

/// `.` for a target without `/`, else `..` as often as it has `/`, joined by `/`. Linear.
pub fn root_of(alloc: Global, target: &[u8]) -> Result<Vec<u8>, NoMemory>
    ensures { IfOk result (λ root. root.items ≡ spec.root_of target.now) }
{
    root_at(alloc, level_of(target))
}

fn level_of(target: &[u8]) -> usize
    ensures { result ≡ spec.level_of target.now }
{
    target.iter().filter(|byte| **byte == b'/').count()
}

fn root_at(alloc: Global, level: usize) -> Result<Vec<u8>, NoMemory>
    ensures { IfOk result (λ root. root.items ≡ spec.root_at level) }
{
    let mut root = Vec::new(alloc);
    if level == 0 {
        root.push(b'.')?;
        return Ok(root);
    }
    root.extend_from_slice(b"..")?;
    for _ in 1..level {
        root.extend_from_slice(b"/..")?;
    }
    Ok(root)
}
