// A sink in memory that never fails.
ghost use Rattle.std.specs.Prelude.{◌≡◌, [], IsOkAnd};

use crate::{Sink, TreeFault};
use hk_base::NoMemory;
use std::alloc::Global;
use std::marker::Model;

/// A sink in memory that never fails, seen as the bytes that were written.
#[derive(Debug, Drop)]
pub struct StillSink {
    bytes: Vec<u8>,
}

impl Model for StillSink {
    ghost use Rattle.std.specs.Prelude.{ℕ, List};

    ghost Value = { List ℕ };

    ghost view = { λ s. s.bytes.items };
}

impl StillSink {
    /// A sink to which nothing was written. It takes no memory, so it is always `Ok`. Constant.
    pub fn new(alloc: Global) -> Result<StillSink, NoMemory>
        ensures { IsOkAnd result (λ s. s ≡ []) }
    {
        Ok(StillSink {
            bytes: Vec::new(alloc),
        })
    }

    /// The bytes that were written, lent. Constant.
    pub fn as_slice(&self) -> &[u8]
        ensures { result.now ≡ self.now }
    {
        &self.bytes
    }
}

impl Sink for StillSink {
    ghost use Rattle.std.specs.Prelude.{Some};

    ghost written = { λ s. Some s };

    ghost faults = { λ _. 0 };

    /// Linear in the bytes, but for the moves of a growing buffer.
    fn write(&mut self, _alloc: Global, bytes: &[u8]) -> Result<(), TreeFault> {
        self.bytes.extend_from_slice(bytes)?;
        Ok(())
    }
}
