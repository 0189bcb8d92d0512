// The cleaning of the site and the cache.
ghost use Rattle.std.specs.Prelude.{◌≡◌};
ghost use Rattle.hk_app.specs.Run.{EndsAs};
ghost use Rattle.hk_app.specs.Cleaning.{ClearsCache};
ghost use Rattle.hk_app.specs.Finishing.{Moves};
ghost use Rattle.hk_app.specs.World.{Folder, folder, folders};
ghost use Rattle.hk_words.specs.declared.commands.Command.TheVariants as the;

use crate::Status;
use crate::ended::Ended;
use hk_base::NoMemory;
use hk_outside::{Tree, TreeFault};
use hk_texts::removed_line;
use hk_writer::write_site;
use std::alloc::Global;

/// Removes every file of the site, and then every file of the cache, and says how many there were. One list of each folder,
/// and one removal a file.
pub fn clean<O: Tree, C: Tree>(
    alloc: Global,
    site: &mut O,
    cache: &mut C,
) -> Result<Ended, NoMemory>
    ensures { (source : Folder) → EndsAs the.Clean
        (folders source (folder (O.files site.old) (O.faults site.old)) (folder (C.files cache.old) (C.faults cache.old)))
        (folders source (folder (O.files site.new) (O.faults site.new)) (folder (C.files cache.new) (C.faults cache.new)))
        result }
{
    match write_site(alloc, site, &[]) {
        Ok(counts) => clear_cache(alloc, cache, counts.removed),
        Err(TreeFault::Failed) => {
            Ended::new(alloc, Status::WriteFault, b"site cannot be written\n")
        }
        Err(TreeFault::NoMemory) => Err(NoMemory),
    }
}

/// Removes every file of the cache, and says how many there were with those that were removed before.
fn clear_cache<C: Tree>(alloc: Global, cache: &mut C, before: u64) -> Result<Ended, NoMemory>
    ensures clears { ClearsCache before (folder (C.files cache.old) (C.faults cache.old)) (folder (C.files cache.new) (C.faults cache.new)) result }
    ensures moves { Moves (folder (C.files cache.old) (C.faults cache.old)) (folder (C.files cache.new) (C.faults cache.new)) }
{
    match write_site(alloc, cache, &[]) {
        Ok(counts) => Ok(Ended {
            status: Status::Ok,
            text: removed_line(alloc, before as u128 + counts.removed as u128)?,
        }),
        Err(TreeFault::Failed) => {
            Ended::new(alloc, Status::StoreFault, b"store cannot be removed\n")
        }
        Err(TreeFault::NoMemory) => Err(NoMemory),
    }
}
