// A folder in memory that never fails.
ghost use Rattle.std.specs.Prelude.{◌≡◌, IfOk, option_map};
ghost use Rattle.std.specs.FinMap.{empty, get};
ghost use Rattle.hk_outside.specs.Held.{set_all};

use crate::held::Held;
use crate::{Tree, TreeFault};
use hk_base::{NoMemory, Text};
use std::alloc::Global;
use std::marker::Model;

/// A folder in memory that never fails, seen as its files.
#[derive(Drop)]
pub struct StillTree {
    held: Held,
}

impl Model for StillTree {
    ghost use Rattle.std.specs.Coded.{coded_list, coded_ℕ};
    ghost use Rattle.std.specs.FinMap.{code};
    ghost use Rattle.hk_base.specs.Bytes.{Files};

    ghost Value = { Files };

    ghost coded = { code (coded_list coded_ℕ) (coded_list coded_ℕ) };

    ghost view = { λ t. t.held };
}

impl StillTree {
    /// A folder of these files. Where a path stands twice, the last content stands. `NoMemory` only for want of memory.
    /// Logarithmic for each file.
    pub fn new(alloc: Global, files: Vec<(Text, Text)>) -> Result<StillTree, NoMemory>
        ensures { IfOk result (λ t. t ≡ set_all files.items empty) }
    {
        Ok(StillTree {
            held: Held::new(alloc, files)?,
        })
    }

    /// The bytes at a path, lent, or `None` exactly where it is absent. Logarithmic.
    pub fn get(&self, path: &[u8]) -> Option<&[u8]>
        ensures { option_map (λ b. b.now) result ≡ get self.now path.now }
    {
        self.held.get(path)
    }
}

impl Tree for StillTree {
    ghost use Rattle.std.specs.Prelude.{Some};

    ghost files = { λ t. Some t };

    ghost faults = { λ _. 0 };

    /// Copies each path.
    fn list(&mut self, alloc: Global) -> Result<Vec<Text>, TreeFault> {
        Ok(self.held.paths(alloc)?)
    }

    /// Logarithmic, and a copy of the bytes.
    fn read(&mut self, alloc: Global, path: &[u8]) -> Result<Option<Vec<u8>>, TreeFault> {
        Ok(self.held.copy(alloc, path)?)
    }

    /// Logarithmic, and a copy of the path and the bytes.
    fn write(&mut self, alloc: Global, path: &[u8], bytes: &[u8]) -> Result<(), TreeFault> {
        self.held.put(alloc, path, bytes)?;
        Ok(())
    }

    /// Logarithmic; takes no memory.
    fn remove(&mut self, _alloc: Global, path: &[u8]) -> Result<(), TreeFault> {
        self.held.remove(path);
        Ok(())
    }
}
