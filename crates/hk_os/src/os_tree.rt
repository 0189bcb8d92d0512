// A folder of the system as a tree.
ghost use Rattle.std.specs.Prelude.{◌≡◌, ◌↔◌, ◌⊎◌, IsTrue};
ghost use Rattle.std.specs.IoError.{error_kind};

use crate::bytes::{TURNS, fault_of, read_all, write_all};
use crate::count::counted;
use crate::paths::path_of;
use crate::walk::list_files;
use hk_base::Text;
use hk_outside::{Tree, TreeFault};
use std::alloc::Global;
use std::io::ErrorKind;
use std::rt::Files;
use std::{fs, io};

/// A folder of the system. It tells nothing of its files. The count of faults rises at each fault.
#[derive(Drop)]
pub struct OsTree<'a, R: Files + AllocGlobal + Clone + Drop> {
    rt: &'a R,
    root: String,
    faults: u64,
}

impl<'a, R: Files + AllocGlobal + Clone + Drop> OsTree<'a, R> {
    /// The folder at a path of the system, which need not be there. Constant.
    pub fn new(rt: &'a R, root: String) -> OsTree<'a, R>
        ensures { result.faults ≡ 0 }
    {
        OsTree {
            rt,
            root,
            faults: 0,
        }
    }

    fn try_read(&self, alloc: Global, path: &[u8]) -> Result<Option<Vec<u8>>, TreeFault> {
        let whole = path_of(alloc, self.root.as_str(), path)?;
        match fs::open(self.rt, whole.as_str()) {
            Ok(mut file) => Ok(Some(read_all(alloc, &mut file)?)),
            Err(error) if is_absent(&error) => Ok(None),
            Err(error) => Err(fault_of(&error)),
        }
    }

    fn try_write(&self, alloc: Global, path: &[u8], bytes: &[u8]) -> Result<(), TreeFault> {
        let whole = path_of(alloc, self.root.as_str(), path)?;
        let mut file = create(self.rt, whole.as_str())?;
        write_all(&mut file, bytes)
    }

    fn try_remove(&self, alloc: Global, path: &[u8]) -> Result<(), TreeFault> {
        let whole = path_of(alloc, self.root.as_str(), path)?;
        match fs::remove_file(self.rt, whole.as_str()) {
            Ok(()) => {}
            Err(error) if is_absent(&error) => {}
            Err(_) => return Err(TreeFault::Failed),
        }
        remove_empty(self.rt, self.root.as_str(), whole.as_str())
    }
}

impl<'a, R: Files + AllocGlobal + Clone + Drop> Tree for OsTree<'a, R> {
    ghost use Rattle.std.specs.Prelude.{None};

    ghost files = { λ _. None };

    ghost faults = { λ t. t.faults };

    /// Looks into each folder below the root once.
    fn list(&mut self, alloc: Global) -> Result<Vec<Text>, TreeFault> {
        let answer = list_files(self.rt, alloc, self.root.as_str());
        self.faults = counted(self.faults, &answer);
        answer
    }

    /// Linear in the bytes.
    fn read(&mut self, alloc: Global, path: &[u8]) -> Result<Option<Vec<u8>>, TreeFault> {
        let answer = self.try_read(alloc, path);
        self.faults = counted(self.faults, &answer);
        answer
    }

    /// Makes the folders above where they are missing. Linear in the bytes.
    fn write(&mut self, alloc: Global, path: &[u8], bytes: &[u8]) -> Result<(), TreeFault> {
        let answer = self.try_write(alloc, path, bytes);
        self.faults = counted(self.faults, &answer);
        answer
    }

    /// Also removes the folders above that became empty, but for the root.
    fn remove(&mut self, alloc: Global, path: &[u8]) -> Result<(), TreeFault> {
        let answer = self.try_remove(alloc, path);
        self.faults = counted(self.faults, &answer);
        answer
    }
}

/// Whether there is no file at a path: nothing stands there, or a part above is no folder.
fn is_absent(error: &io::Error) -> bool
    ensures { IsTrue result ↔ ((error_kind error.now ≡ ErrorKind.NotFound) ⊎ (error_kind error.now ≡ ErrorKind.NotADirectory)) }
{
    error.kind() == ErrorKind::NotFound || error.kind() == ErrorKind::NotADirectory
}

/// Opens an empty file at a path, and makes the folders above where they are missing.
fn create<R: Files>(rt: &R, path: &str) -> Result<R::File, TreeFault> {
    match fs::create(rt, path) {
        Ok(file) => return Ok(file),
        Err(error) if error.kind() == ErrorKind::NotFound => {}
        Err(_) => return Err(TreeFault::Failed),
    }
    if let Some((folder, _)) = path.rsplit_once('/') {
        if fs::create_dir_all(rt, folder).is_err() {
            return Err(TreeFault::Failed);
        }
    }
    match fs::create(rt, path) {
        Ok(file) => Ok(file),
        Err(_) => Err(TreeFault::Failed),
    }
}

/// Removes the folders above a path, upwards until one stays because it is not empty, or the root comes.
fn remove_empty<R: Files>(rt: &R, root: &str, path: &str) -> Result<(), TreeFault> {
    let mut at = path;
    for _ in 0..TURNS {
        match at.rsplit_once('/') {
            Some((folder, _)) if folder.len() > root.len() => {
                if fs::remove_dir(rt, folder).is_err() {
                    return Ok(());
                }
                at = folder;
            }
            _ => return Ok(()),
        }
    }
    Err(TreeFault::Failed)
}
