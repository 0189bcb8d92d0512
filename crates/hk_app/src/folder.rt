// The source folder.
ghost use Rattle.std.specs.Prelude.{◌≡◌, IfSome, IfOk, IsTrue};
ghost use Rattle.std.specs.List.{filter};
ghost use Rattle.std.specs.Ordering.{nat_cmp};
ghost use Rattle.std.specs.Cmp.Lexicographic.{slice_cmp};
ghost use Rattle.std.specs.FinMap.{entries};
ghost use Rattle.std.specs.BTreeSet.{IsFromIterResult};
ghost use Rattle.hk_base.specs.Bytes.{ascends, paths_of};
ghost use Rattle.hk_outside.specs.Causes.{HasCause};
ghost use Rattle.hk_app.specs.PathReading.{read_at};
ghost use Rattle.hk_app.specs.FolderReading as spec;
ghost use Rattle.hk_app.specs.FolderReading.{are_read};

use hk_base::Text;
use hk_outside::{Tree, TreeFault};
use hk_rules::is_ignored;
use std::alloc::{AllocError, Global};
use std::collections::BTreeSet;

/// The files of a folder that a build reads, in the order of their paths.
pub fn read_folder<S: Tree>(alloc: Global, source: &mut S) -> Result<Vec<(Text, Text)>, TreeFault>
    ensures each { IfSome (S.files source.old) (λ m. IfOk result (λ v. v.items ≡ are_read (entries m))) }
    ensures ascending { IfOk result (λ v. IsTrue (ascends (paths_of v.items))) }
    ensures same { S.files source.new ≡ S.files source.old }
    ensures cause { HasCause (S.faults source.old) (S.faults source.new) result }
{
    let paths = source.list(alloc)?;
    let ordered = read_order(alloc, paths)?;
    read_each(alloc, source, &ordered)
}

fn is_read(path: &[u8]) -> bool
    ensures { result ≡ spec.is_read path.now }
{
    path == b"site.toml".as_slice() || !is_ignored(path)
}

fn read_order(alloc: Global, paths: Vec<Text>) -> Result<BTreeSet<Text>, AllocError>
    ensures { IfOk result (IsFromIterResult (slice_cmp nat_cmp) (filter spec.is_read paths.items)) }
{
    paths
        .into_iter()
        .filter(|path| is_read(path.as_slice()))
        .collect(alloc)
}

fn read_each<S: Tree>(
    alloc: Global,
    source: &mut S,
    paths: &BTreeSet<Text>,
) -> Result<Vec<(Text, Text)>, TreeFault>
    ensures each { IfSome (S.files source.old) (λ m. IfOk result (λ v. v.items ≡ read_at m paths.now.keys)) }
    ensures ascending { IfOk result (λ v. IsTrue (ascends (paths_of v.items))) }
    ensures same { S.files source.new ≡ S.files source.old }
    ensures cause { HasCause (S.faults source.old) (S.faults source.new) result }
{
    let mut files = Vec::new(alloc);
    for path in paths.iter() {
        if let Some(bytes) = source.read(alloc, path.as_slice())? {
            files.push((
                Text::from_slice(alloc, path.as_slice())?,
                Text::from_vec(bytes),
            ))?;
        }
    }
    Ok(files)
}
