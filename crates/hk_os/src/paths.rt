// Paths of the system.
ghost use Rattle.std.specs.Prelude.{◌≡◌, IfOk, IsErrOf, IsUtf8, string_bytes};
ghost use Rattle.hk_os.specs.Paths.{path_below};
ghost use Rattle.hk_outside.specs.declared.tree.TreeFault.TheVariants.{Failed};

use hk_base::NoMemory;
use hk_outside::TreeFault;
use std::alloc::Global;

/// The path of the system for a path below a root. `Failed` exactly where the path is not UTF-8.
pub fn path_of(alloc: Global, root: &str, path: &[u8]) -> Result<String, TreeFault>
    ensures value { IfOk result (λ whole. (string_bytes whole ≡ path_below root.now path.now) × IsUtf8 path.now) }
    ensures failed { IsErrOf result Failed → ¬ (IsUtf8 path.now) }
{
    match str::from_utf8(path) {
        Ok(path) => Ok(below(alloc, root, path)?),
        Err(_) => Err(TreeFault::Failed),
    }
}

/// The path of a name in a folder; in the empty path it is the name itself, and the empty name is the folder itself.
pub fn below(alloc: Global, folder: &str, name: &str) -> Result<String, NoMemory>
    ensures { IfOk result (λ path. string_bytes path ≡ path_below folder.now name.now) }
{
    let length = folder.len().saturating_add(name.len()).saturating_add(1);
    let mut path = String::with_capacity(alloc, length)?;
    path.push_str(folder)?;
    if !folder.is_empty() && !name.is_empty() {
        path.push_str("/")?;
    }
    path.push_str(name)?;
    Ok(path)
}
