// A folder of files, and why a call of it has no answer.
use hk_base::Text;
use std::alloc::{AllocError, AllocFailed, Global};

/// Why a call of a tree or a sink has no answer: it failed, or there was want of memory.
#[derive(Clone, Copy, Debug, PartialEq, Eq, Drop)]
pub enum TreeFault {
    Failed,
    NoMemory,
}

impl From<AllocError> for TreeFault {
    ghost use Rattle.std.specs.Prelude.{◌≡◌};
    ghost use Rattle.hk_outside.specs.declared.tree.TreeFault.TheVariants.{NoMemory};

    ghost from_gives = { λ _ e. e ≡ NoMemory };

    fn from(_: AllocError) -> Self {
        TreeFault::NoMemory
    }
}

impl<T: Drop> From<AllocFailed<T>> for TreeFault {
    ghost use Rattle.std.specs.Prelude.{◌≡◌};
    ghost use Rattle.hk_outside.specs.declared.tree.TreeFault.TheVariants.{NoMemory};

    ghost from_gives = { λ _ e. e ≡ NoMemory };

    fn from(_: AllocFailed<T>) -> Self {
        TreeFault::NoMemory
    }
}

impl From<hk_base::NoMemory> for TreeFault {
    ghost use Rattle.std.specs.Prelude.{◌≡◌};
    ghost use Rattle.hk_outside.specs.declared.tree.TreeFault.TheVariants.{NoMemory};

    ghost from_gives = { λ _ e. e ≡ NoMemory };

    fn from(_: hk_base::NoMemory) -> Self {
        TreeFault::NoMemory
    }
}

/// A folder of files.
///
/// `Failed` comes only where the count of faults rose in that call. `NoMemory` is want of memory, and leaves the files as
/// they were. What is said of files holds where the tree tells them.
pub trait Tree {
    ghost use Rattle.std.specs.Prelude.{◌≡◌, ℕ, Option, option_map, IfOk};
    ghost use Rattle.std.specs.FinMap.{insert, remove};
    ghost use Rattle.hk_base.specs.Bytes.{Files};
    ghost use Rattle.hk_outside.specs.Causes.{HasCause};
    ghost use Rattle.hk_outside.specs.Tree.{ListsEach, ReadsAt, Changes, HeldOrGone};

    /// What each path holds, where the tree tells it. A tree that tells it tells it after every call.
    ghost files: { Self → Option Files };

    /// How many calls failed. It never falls.
    ghost faults: { Self → ℕ };

    /// Each path once, in any order. The files stay as they were.
    fn list(&mut self, alloc: Global) -> Result<Vec<Text>, TreeFault>
        ensures each { IfOk result (λ v. ListsEach (files self.old) v.items) }
        ensures same { files self.new ≡ files self.old }
        ensures cause { HasCause (faults self.old) (faults self.new) result };

    /// The bytes at a path, or `None` exactly where the path is absent. The files stay as they were.
    fn read(&mut self, alloc: Global, path: &[u8]) -> Result<Option<Vec<u8>>, TreeFault>
        ensures found { IfOk result (λ o. ReadsAt (files self.old) path.now (option_map (λ v. v.items) o)) }
        ensures same { files self.new ≡ files self.old }
        ensures cause { HasCause (faults self.old) (faults self.new) result };

    /// Puts the bytes at a path. After `Failed` that path may hold any bytes or be absent, and every other path is as it
    /// was.
    fn write(&mut self, alloc: Global, path: &[u8], bytes: &[u8]) -> Result<(), TreeFault>
        ensures changes { Changes (λ m. insert m path.now bytes.now) path.now (files self.old) (files self.new) result }
        ensures cause { HasCause (faults self.old) (faults self.new) result };

    /// Takes a path away. After `Failed` that path is as it was or absent, and every other path is as it was.
    fn remove(&mut self, alloc: Global, path: &[u8]) -> Result<(), TreeFault>
        ensures changes { Changes (λ m. remove m path.now) path.now (files self.old) (files self.new) result }
        ensures left { HeldOrGone path.now (files self.old) (files self.new) result }
        ensures cause { HasCause (faults self.old) (faults self.new) result };
}
