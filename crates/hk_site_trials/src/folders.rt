// Folders as the rows name them, and as trees in memory hold them.
use hk_base::{NoMemory, Text};
use hk_outside::{Fail as Failing, MemTree, Tree};
use std::alloc::{AllocError, Global};

/// Files with what they hold, in the order in which they were named.
#[derive(Drop)]
pub struct Folder {
    files: Vec<(Vec<u8>, Vec<u8>)>,
}

impl Folder {
    pub fn new(alloc: Global) -> Folder {
        Folder {
            files: Vec::new(alloc),
        }
    }

    /// How many files there are.
    pub fn count(&self) -> usize {
        self.files.len()
    }

    /// What the file that was named last holds.
    pub fn last(&self) -> Option<&[u8]> {
        match self.files.last() {
            Some(file) => Some(file.1.as_slice()),
            None => None,
        }
    }

    /// Puts a file, or more at the end of the file that was named last.
    pub fn add(&mut self, alloc: Global, path: &[u8], bytes: &[u8]) -> Result<(), NoMemory> {
        if self.ends_with(path) {
            add_to_last(&mut self.files, bytes)?;
        } else {
            let path = Vec::from_slice(alloc, path)?;
            self.files.push((path, Vec::from_slice(alloc, bytes)?))?;
        }
        Ok(())
    }

    fn ends_with(&self, path: &[u8]) -> bool {
        match self.files.last() {
            Some(file) => file.0.as_slice() == path,
            None => false,
        }
    }

    /// A tree with these files, in which each call after the first `fuse` fails, and this one.
    pub fn tree(
        &self,
        alloc: Global,
        fuse: Option<u64>,
        fail: Option<Failing>,
    ) -> Result<MemTree, NoMemory> {
        let texts = self.texts(alloc)?;
        MemTree::new(alloc, texts, fails(alloc, fail)?, fuse)
    }

    fn texts(&self, alloc: Global) -> Result<Vec<(Text, Text)>, NoMemory> {
        let mut texts = Vec::new(alloc);
        for (path, bytes) in &self.files {
            texts.push(texts_of(alloc, path, bytes)?)?;
        }
        Ok(texts)
    }

    /// What a tree holds at the paths of these files.
    pub fn left_in(&self, alloc: Global, tree: &MemTree) -> Result<Folder, NoMemory> {
        let mut left = Folder::new(alloc);
        for (path, _) in &self.files {
            if let Some(bytes) = tree.get(path) {
                left.add(alloc, path, bytes)?;
            }
        }
        Ok(left)
    }

    /// How many of these files a tree holds.
    pub fn count_in(&self, tree: &MemTree) -> u64 {
        let mut count = 0u64;
        for (path, bytes) in &self.files {
            if tree.get(path) == Some(bytes.as_slice()) {
                count = count.wrapping_add(1);
            }
        }
        count
    }
}

fn add_to_last(files: &mut Vec<(Vec<u8>, Vec<u8>)>, bytes: &[u8]) -> Result<(), AllocError> {
    if let Some(file) = files.last_mut() {
        file.1.extend_from_slice(bytes)?;
    }
    Ok(())
}

fn fails(alloc: Global, fail: Option<Failing>) -> Result<Vec<Failing>, AllocError> {
    let mut fails = Vec::new(alloc);
    if let Some(fail) = fail {
        fails.push(fail)?;
    }
    Ok(fails)
}

fn texts_of(alloc: Global, path: &[u8], bytes: &[u8]) -> Result<(Text, Text), NoMemory> {
    let path = Text::from_slice(alloc, path)?;
    Ok((path, Text::from_slice(alloc, bytes)?))
}

/// How many files a tree lists, and none where it cannot be listed.
pub fn listed(alloc: Global, tree: &mut MemTree) -> Option<usize> {
    match tree.list(alloc) {
        Ok(paths) => Some(paths.len()),
        Err(_) => None,
    }
}
