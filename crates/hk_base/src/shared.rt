// A value that has several owners.
ghost use Rattle.std.specs.Prelude.{◌≡◌, IfOk};

use crate::refusal::NoMemory;
use std::alloc::Global;
use std::marker::Model;
use std::sync::Arc;

/// One of several owners of a value. Moving one takes no memory.
#[derive(Drop)]
pub struct Shared<T: Drop> {
    owned: Arc<T, Global>,
}

impl<T: Drop> Model for Shared<T> {
    ghost use Rattle.std.specs.Arc.{arc_value};

    ghost Value = { T };

    ghost coded = { T.code };

    ghost view = { λ s. arc_value s.owned };
}

impl<T: Drop> Shared<T> {
    /// The value with its first owner. `NoMemory` only for want of memory. Constant.
    pub fn new(alloc: Global, value: T) -> Result<Shared<T>, NoMemory>
        ensures { IfOk result (λ s. s ≡ value) }
    {
        match Arc::new(alloc, value) {
            Ok(owned) => Ok(Shared { owned }),
            Err(_) => Err(NoMemory),
        }
    }

    /// A second owner of the same value. A refusal counts as want of memory. Constant.
    pub fn try_clone(&self) -> Result<Shared<T>, NoMemory>
        ensures { IfOk result (λ s. s ≡ self.now) }
    {
        match Arc::try_clone(&self.owned) {
            Ok(owned) => Ok(Shared { owned }),
            Err(_) => Err(NoMemory),
        }
    }

    /// The value, lent. Constant.
    pub fn get(&self) -> &T
        ensures { result.now ≡ self.now }
    {
        &self.owned
    }
}
