// The folders that the rows name and the runs leave, and what a run in them comes to.
use crate::faults::{Fault, Place};
use crate::folders::{Folder, listed};
use crate::gate::Meeting;
use crate::row::bytes_at;
use crate::runs::{Left, Ran, World, run_at, run_one, words_of};
use hk_base::NoMemory;
use hk_outside::MemTree;
use std::alloc::{AllocError, Global};
use std::sync::Wait;
use std::test::Fail;
use std::thread::Threads;

/// The files of the source, the pages that the site must have, and what the site and the cache hold today.
#[derive(Drop)]
pub struct Trial {
    source: Folder,
    pages: Folder,
    site: Folder,
    cache: Folder,
}

impl Trial {
    pub fn new(alloc: Global) -> Trial {
        Trial {
            source: Folder::new(alloc),
            pages: Folder::new(alloc),
            site: Folder::new(alloc),
            cache: Folder::new(alloc),
        }
    }

    /// Takes a row that names a file.
    pub fn set(&mut self, alloc: Global, call: &str, args: &[Vec<u8>]) -> Result<(), Fail> {
        match call {
            "file" => put(alloc, &mut self.source, args),
            "page" => put(alloc, &mut self.pages, args),
            "site" => put(alloc, &mut self.site, args),
            _ => Err(Fail::new("no such row")),
        }
    }

    /// Empties the site and the cache.
    pub fn clear(&mut self, alloc: Global) {
        self.site = Folder::new(alloc);
        self.cache = Folder::new(alloc);
    }

    /// Puts a store into the cache.
    pub fn put_store(&mut self, alloc: Global, store: &[u8]) -> Result<(), NoMemory> {
        self.cache = store_folder(alloc, store)?;
        Ok(())
    }

    /// The store in the cache.
    pub fn store(&self) -> Option<&[u8]> {
        self.cache.last()
    }

    /// What a run on one thread comes to: the status and the text, how many of the pages then stand, whether other files do,
    /// and how many bytes the store has. What stands is there for the next run.
    pub fn run(&mut self, alloc: Global, line: &str, fault: Fault) -> Result<String, NoMemory> {
        let words = words_of(alloc, line)?;
        let world = self.world(alloc, &self.site, &self.cache, fault)?;
        let mut ran = run_one(alloc, words, world);
        self.take(alloc, &mut ran)
    }

    /// What a run comes to whose polls go through a gate.
    pub fn run_at<R: Threads + Wait + Sync>(
        &mut self,
        rt: &R,
        alloc: Global,
        line: &str,
        gate: &Meeting,
    ) -> Result<String, NoMemory> {
        let words = words_of(alloc, line)?;
        let world = self.world(alloc, &self.site, &self.cache, Fault::Nothing)?;
        let mut ran = run_at(rt, alloc, words, world, gate);
        self.take(alloc, &mut ran)
    }

    fn world(
        &self,
        alloc: Global,
        site: &Folder,
        cache: &Folder,
        fault: Fault,
    ) -> Result<World, NoMemory> {
        let out = fault.sink(alloc)?;
        let source = tree(alloc, &self.source, Place::Source, fault)?;
        let left = left(alloc, site, cache, fault)?;
        Ok(World { source, left, out })
    }

    /// Takes what a run left, and tells of it.
    fn take(&mut self, alloc: Global, ran: &mut Ran) -> Result<String, NoMemory> {
        let text = shown(alloc, ran.status, ran.world.out.as_slice())?;
        let pages = self.shown_pages(alloc, &mut ran.world.left.site)?;
        self.keep(alloc, &ran.world.left)?;
        Ok(with_store(alloc, &text, &pages, self.store())?)
    }

    fn keep(&mut self, alloc: Global, left: &Left) -> Result<(), NoMemory> {
        self.site = self.pages.left_in(alloc, &left.site)?;
        self.cache = store_folder(alloc, b"")?.left_in(alloc, &left.cache)?;
        Ok(())
    }

    /// How many of the pages a site has, and whether it has other files, where it can be listed.
    fn shown_pages(&self, alloc: Global, site: &mut MemTree) -> Result<String, AllocError> {
        let (right, all) = (self.pages.count_in(site), self.pages.count());
        match listed(alloc, site) {
            Some(count) if count as u64 != right => {
                format!(in alloc; "{right} of {all} pages among {count} files")
            }
            _ => format!(in alloc; "{right} of {all} pages"),
        }
    }

    /// Whether a build over the pages and a store prints the text and leaves exactly the pages.
    pub fn is_passed_over(
        &self,
        alloc: Global,
        store: &[u8],
        text: &[u8],
    ) -> Result<bool, NoMemory> {
        let words = words_of(alloc, "build")?;
        let cache = store_folder(alloc, store)?;
        let world = self.world(alloc, &self.pages, &cache, Fault::Nothing)?;
        let mut ran = run_one(alloc, words, world);
        Ok(self.has_said(alloc, &mut ran, text))
    }

    fn has_said(&self, alloc: Global, ran: &mut Ran, text: &[u8]) -> bool {
        ran.world.out.as_slice() == text && self.is_all_of(alloc, &mut ran.world.left.site)
    }

    fn is_all_of(&self, alloc: Global, site: &mut MemTree) -> bool {
        let all = self.pages.count();
        self.pages.count_in(site) == all as u64 && listed(alloc, site) == Some(all)
    }
}

fn put(alloc: Global, folder: &mut Folder, args: &[Vec<u8>]) -> Result<(), Fail> {
    folder.add(alloc, bytes_at(args, 0)?, bytes_at(args, 1)?)?;
    Ok(())
}

fn store_folder(alloc: Global, store: &[u8]) -> Result<Folder, NoMemory> {
    let mut folder = Folder::new(alloc);
    folder.add(alloc, b"store", store)?;
    Ok(folder)
}

fn left(alloc: Global, site: &Folder, cache: &Folder, fault: Fault) -> Result<Left, NoMemory> {
    let site = tree(alloc, site, Place::Site, fault)?;
    Ok(Left {
        site,
        cache: tree(alloc, cache, Place::Cache, fault)?,
    })
}

fn tree(alloc: Global, folder: &Folder, place: Place, fault: Fault) -> Result<MemTree, NoMemory> {
    folder.tree(alloc, fault.calls_of(place), fault.fail_of(place))
}

fn shown(alloc: Global, status: u8, text: &[u8]) -> Result<String, AllocError> {
    format!(in alloc; "{status} {}", text.escape_ascii())
}

fn with_store(
    alloc: Global,
    text: &str,
    pages: &str,
    store: Option<&[u8]>,
) -> Result<String, AllocError> {
    match store {
        Some(bytes) => format!(in alloc; "{text}; {pages}, store of {} bytes", bytes.len()),
        None => format!(in alloc; "{text}; {pages}, no store"),
    }
}
