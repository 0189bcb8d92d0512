// The regular files of a folder of the system.
use crate::bytes::{TURNS, fault_of};
use crate::paths::below;
use hk_base::Text;
use hk_outside::TreeFault;
use std::alloc::Global;
use std::fs;
use std::fs::DirEntry;
use std::io::ErrorKind;
use std::rt::Files;

/// How far below the root a folder may stand.
const DEPTH: u32 = 256;

/// A folder below the root: its path there, which is empty for the root itself.
#[derive(Drop)]
struct Folder {
    path: String,
    depth: u32,
}

/// What is known of a folder: the files that were found, and the folders that are still to be looked into.
#[derive(Drop)]
struct Walk {
    found: Vec<Text>,
    folders: Vec<Folder>,
}

/// The path of each regular file below the root, in any order. Links and other kinds are skipped, and a root that is absent
/// has no files. A name that is not UTF-8 and a folder that stands too deep are faults. Linear in the files and folders.
pub fn list_files<R: Files + AllocGlobal + Clone + Drop>(
    rt: &R,
    alloc: Global,
    root: &str,
) -> Result<Vec<Text>, TreeFault> {
    let mut walk = Walk {
        found: Vec::new(alloc),
        folders: Vec::new(alloc),
    };
    walk.folders.push(Folder {
        path: String::new(alloc),
        depth: 0,
    })?;
    for _ in 0..TURNS {
        match walk.folders.pop() {
            None => return Ok(walk.found),
            Some(folder) => look_into(rt, alloc, root, &folder, &mut walk)?,
        }
    }
    Err(TreeFault::Failed)
}

fn look_into<R: Files + AllocGlobal + Clone + Drop>(
    rt: &R,
    alloc: Global,
    root: &str,
    folder: &Folder,
    walk: &mut Walk,
) -> Result<(), TreeFault> {
    if folder.depth > DEPTH {
        return Err(TreeFault::Failed);
    }
    let whole = below(alloc, root, folder.path.as_str())?;
    match fs::read_dir(rt, whole.as_str()) {
        Ok(entries) => {
            for entry in entries {
                match entry {
                    Ok(entry) => note(alloc, folder, &entry, walk)?,
                    Err(error) => return Err(fault_of(&error)),
                }
            }
            Ok(())
        }
        Err(error) if error.kind() == ErrorKind::NotFound => Ok(()),
        Err(error) => Err(fault_of(&error)),
    }
}

/// Notes what an entry of a folder is. One that is gone meanwhile is nothing.
fn note<R: Files>(
    alloc: Global,
    folder: &Folder,
    entry: &DirEntry<R>,
    walk: &mut Walk,
) -> Result<(), TreeFault> {
    let kind = match entry.file_type() {
        Ok(kind) => kind,
        Err(error) if error.kind() == ErrorKind::NotFound => return Ok(()),
        Err(error) => return Err(fault_of(&error)),
    };
    if kind.is_dir() {
        walk.folders.push(Folder {
            path: below(alloc, folder.path.as_str(), entry.file_name())?,
            depth: folder.depth.saturating_add(1),
        })?;
    } else if kind.is_file() {
        let path = below(alloc, folder.path.as_str(), entry.file_name())?;
        walk.found.push(Text::from_vec(path.into_bytes()))?;
    }
    Ok(())
}
