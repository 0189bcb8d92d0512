// What text is written to.
use crate::TreeFault;
use std::alloc::Global;

/// What text is appended to.
pub trait Sink {
    ghost use Rattle.std.specs.Prelude.{ℕ, List, Option};
    ghost use Rattle.hk_outside.specs.Causes.{HasCause};
    ghost use Rattle.hk_outside.specs.Sink.{Appends};

    /// The bytes so far, where the sink tells them.
    ghost written: { Self → Option (List ℕ) };

    /// How many calls failed. It never falls.
    ghost faults: { Self → ℕ };

    /// Puts the bytes at the end. `Failed` comes only where the count of faults rose, and then some first of the bytes
    /// are at the end; after `NoMemory`, want of memory, none are.
    fn write(&mut self, alloc: Global, bytes: &[u8]) -> Result<(), TreeFault>
        ensures appends { Appends bytes.now (written self.old) (written self.new) result }
        ensures cause { HasCause (faults self.old) (faults self.new) result };
}
