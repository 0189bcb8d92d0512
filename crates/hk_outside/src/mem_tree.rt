// A folder in memory whose calls fail as it was told.
ghost use Rattle.std.specs.Prelude.{◌≡◌, IfOk, is_ok, option_map, if◌then◌else◌};
ghost use Rattle.std.specs.FinMap.{empty, get, keys, remove};
ghost use Rattle.hk_outside.specs.Failing.{failing, fate_of};
ghost use Rattle.hk_outside.specs.Held.{set_all};
ghost use Rattle.hk_outside.specs.Mem.{Fated, untorn, called, written_by};

use crate::call::{CallKind, Fail};
use crate::failures::{Failures, Fate};
use crate::held::{Held, first};
use crate::{Tree, TreeFault};
use hk_base::{NoMemory, Text};
use std::alloc::Global;
use std::marker::Model;

/// A folder in memory whose calls fail as it was told, seen as its files and what is known of its failing calls.
#[derive(Drop)]
pub struct MemTree {
    held: Held,
    failures: Failures,
}

impl Model for MemTree {
    ghost use Rattle.std.specs.Coded.{codes, coded_list, coded_ℕ};
    ghost use Rattle.std.specs.Cmp.Lexicographic.{slice_cmp};
    ghost use Rattle.std.specs.FinMap.{code};
    ghost use Rattle.std.specs.Ordering.{nat_cmp};
    ghost use Rattle.hk_outside.specs.Mem.{MemFolder};

    ghost Value = { MemFolder };

    ghost coded = { Prim.hlevel (codes, code {R = slice_cmp nat_cmp} (coded_list coded_ℕ) (coded_list coded_ℕ)) };

    ghost view = { λ t. record { files = t.held; failing = t.failures } };
}

impl MemTree {
    /// A folder of these files. Where a path stands twice, the last content stands. Each member of `fails` lets one call
    /// fail; of several for one call the first counts. With `fuse: Some(k)` each call after the first `k` calls fails and
    /// does nothing, whatever `fails` says of it. `NoMemory` only for want of memory. Logarithmic for each file.
    ///
    /// Each call of the tree is counted, also one that failed or had no memory, and costs a walk over `fails`.
    pub fn new(
        alloc: Global,
        files: Vec<(Text, Text)>,
        fails: Vec<Fail>,
        fuse: Option<u64>,
    ) -> Result<MemTree, NoMemory>
        ensures { IfOk result (λ t. t ≡ record { files = set_all files.items empty; failing = failing fails.items fuse }) }
    {
        Ok(MemTree {
            held: Held::new(alloc, files)?,
            failures: Failures::new(fails, fuse),
        })
    }

    /// The bytes at a path, lent, or `None` exactly where it is absent. It is no call that can fail. Logarithmic.
    pub fn get(&self, path: &[u8]) -> Option<&[u8]>
        ensures { option_map (λ b. b.now) result ≡ get self.now.files path.now }
    {
        self.held.get(path)
    }
}

impl Tree for MemTree {
    ghost use Rattle.std.specs.Prelude.{Some};
    ghost use Rattle.std.specs.FinMap.{insert};
    ghost use Rattle.hk_outside.specs.Causes.{HasCause};
    ghost use Rattle.hk_outside.specs.Tree.{ListsEach, ReadsAt, Changes, HeldOrGone};
    ghost use Rattle.hk_outside.specs.declared.call.CallKind.TheVariants as call;

    ghost files = { λ t. Some t.files };

    ghost faults = { λ t. t.failing.faults };

    /// The paths in order. Copies each path.
    fn list(&mut self, alloc: Global) -> Result<Vec<Text>, TreeFault>
        ensures fate { Fated (untorn (fate_of call.List self.old.failing)) result }
        ensures after { self.new ≡ record { files = self.old.files; failing = called call.List result self.old.failing } }
        ensures each { IfOk result (λ v. v.items ≡ keys self.old.files) }
        ensures same { Some self.new.files ≡ Some self.old.files }
        ensures cause { HasCause self.old.failing.faults self.new.failing.faults result }
    {
        match self.failures.begin(CallKind::List) {
            Fate::Works => Ok(self.held.paths(alloc)?),
            _ => {
                self.failures.raise();
                Err(TreeFault::Failed)
            }
        }
    }

    /// Logarithmic, and a copy of the bytes.
    fn read(&mut self, alloc: Global, path: &[u8]) -> Result<Option<Vec<u8>>, TreeFault>
        ensures fate { Fated (untorn (fate_of call.Read self.old.failing)) result }
        ensures after { self.new ≡ record { files = self.old.files; failing = called call.Read result self.old.failing } }
        ensures found { IfOk result (λ o. option_map (λ v. v.items) o ≡ get self.old.files path.now) }
        ensures same { Some self.new.files ≡ Some self.old.files }
        ensures cause { HasCause self.old.failing.faults self.new.failing.faults result }
    {
        match self.failures.begin(CallKind::Read) {
            Fate::Works => Ok(self.held.copy(alloc, path)?),
            _ => {
                self.failures.raise();
                Err(TreeFault::Failed)
            }
        }
    }

    /// Logarithmic, and a copy of the path and the bytes.
    fn write(&mut self, alloc: Global, path: &[u8], bytes: &[u8]) -> Result<(), TreeFault>
        ensures fate { Fated (fate_of call.Write self.old.failing) result }
        ensures after { self.new ≡ record { files = written_by (fate_of call.Write self.old.failing) path.now bytes.now result self.old.files; failing = called call.Write result self.old.failing } }
        ensures changes { Changes (λ m. insert m path.now bytes.now) path.now (Some self.old.files) (Some self.new.files) result }
        ensures cause { HasCause self.old.failing.faults self.new.failing.faults result }
    {
        match self.failures.begin(CallKind::Write) {
            Fate::Works => {
                self.held.put(alloc, path, bytes)?;
                Ok(())
            }
            Fate::Fails => {
                self.failures.raise();
                Err(TreeFault::Failed)
            }
            Fate::Tears(count) => {
                self.held.put(alloc, path, first(bytes, count))?;
                self.failures.raise();
                Err(TreeFault::Failed)
            }
        }
    }

    /// Logarithmic; takes no memory.
    fn remove(&mut self, _alloc: Global, path: &[u8]) -> Result<(), TreeFault>
        ensures fate { Fated (untorn (fate_of call.Remove self.old.failing)) result }
        ensures after { self.new ≡ record { files = (if is_ok result then remove self.old.files path.now else self.old.files); failing = called call.Remove result self.old.failing } }
        ensures changes { Changes (λ m. remove m path.now) path.now (Some self.old.files) (Some self.new.files) result }
        ensures left { HeldOrGone path.now (Some self.old.files) (Some self.new.files) result }
        ensures cause { HasCause self.old.failing.faults self.new.failing.faults result }
    {
        match self.failures.begin(CallKind::Remove) {
            Fate::Works => {
                self.held.remove(path);
                Ok(())
            }
            _ => {
                self.failures.raise();
                Err(TreeFault::Failed)
            }
        }
    }
}
