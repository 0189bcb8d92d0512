// What a folder in memory holds.
ghost use Rattle.std.specs.Prelude.{◌≡◌, IfOk, is_ok, option_map, take, if◌then◌else◌};
ghost use Rattle.std.specs.FinMap.{empty, get, insert, keys, remove};
ghost use Rattle.hk_outside.specs.Held.{set_all};

use hk_base::{NoMemory, Text};
use std::alloc::Global;
use std::collections::BTreeMap;
use std::marker::Model;

/// Paths with their bytes, seen as a map.
#[derive(Drop)]
pub struct Held {
    map: BTreeMap<Vec<u8>, Vec<u8>>,
}

impl Model for Held {
    ghost use Rattle.std.specs.Coded.{coded_list, coded_ℕ};
    ghost use Rattle.std.specs.FinMap.{code};
    ghost use Rattle.hk_base.specs.Bytes.{Files};
    ghost use Rattle.hk_outside.specs.Held.{files_of};

    ghost Value = { Files };

    ghost coded = { code (coded_list coded_ℕ) (coded_list coded_ℕ) };

    ghost view = { λ t. files_of t.map.entries };
}

impl Held {
    /// The map of these files. Where a path stands twice, the last content stands.
    pub fn new(alloc: Global, files: Vec<(Text, Text)>) -> Result<Held, NoMemory>
        ensures { IfOk result (λ t. t ≡ set_all files.items empty) }
    {
        let mut map = BTreeMap::new(alloc);
        for (path, bytes) in files {
            map.insert(path.into_vec(), bytes.into_vec())?;
        }
        Ok(Held { map })
    }

    pub fn get(&self, path: &[u8]) -> Option<&[u8]>
        ensures { option_map (λ b. b.now) result ≡ get self.now path.now }
    {
        match self.map.get(path) {
            Some(bytes) => Some(bytes.as_slice()),
            None => None,
        }
    }

    /// A copy of each path, in order.
    pub fn paths(&self, alloc: Global) -> Result<Vec<Text>, NoMemory>
        ensures { IfOk result (λ v. v.items ≡ keys self.now) }
    {
        let mut paths = Vec::with_capacity(alloc, self.map.len())?;
        for path in self.map.keys() {
            paths.push(Text::from_slice(alloc, path.as_slice())?)?;
        }
        Ok(paths)
    }

    /// A copy of the bytes at a path.
    pub fn copy(&self, alloc: Global, path: &[u8]) -> Result<Option<Vec<u8>>, NoMemory>
        ensures { IfOk result (λ o. option_map (λ v. v.items) o ≡ get self.now path.now) }
    {
        match self.get(path) {
            Some(bytes) => Ok(Some(Vec::from_slice(alloc, bytes)?)),
            None => Ok(None),
        }
    }

    /// Puts a copy of the bytes at a path, or changes nothing.
    pub fn put(&mut self, alloc: Global, path: &[u8], bytes: &[u8]) -> Result<(), NoMemory>
        ensures { self.new ≡ (if is_ok result then insert self.old path.now bytes.now else self.old) }
    {
        let key = Vec::from_slice(alloc, path)?;
        let value = Vec::from_slice(alloc, bytes)?;
        self.map.insert(key, value)?;
        Ok(())
    }

    pub fn remove(&mut self, path: &[u8])
        ensures { self.new ≡ remove self.old path.now }
    {
        // The keys are in order, as `len` says.
        let _count = self.map.len();
        self.map.remove(path);
    }
}

/// So many first bytes, or all where there are fewer.
pub fn first(bytes: &[u8], count: usize) -> &[u8]
    ensures { result.now ≡ take count bytes.now }
{
    if count < bytes.len() {
        &bytes[..count]
    } else {
        bytes
    }
}
