// A writer of the system as a sink.
ghost use Rattle.std.specs.Prelude.{◌≡◌};

use crate::bytes::write_all;
use crate::count::counted;
use hk_outside::{Sink, TreeFault};
use std::alloc::Global;
use std::io;

/// What is written goes to a writer, and is told where the writer tells it; those of the system do not. The count of faults
/// rises at each fault.
#[derive(Drop)]
pub struct StdSink<W: io::Write> {
    writer: W,
    faults: u64,
}

impl<W: io::Write> StdSink<W> {
    /// A sink at which no fault was counted. Constant.
    pub fn new(writer: W) -> StdSink<W>
        ensures { result.faults ≡ 0 }
    {
        StdSink { writer, faults: 0 }
    }
}

impl<W: io::Write> Sink for StdSink<W> {
    ghost written = { λ s. W.contents s.writer };

    ghost faults = { λ s. s.faults };

    /// Linear in the bytes.
    fn write(&mut self, _alloc: Global, bytes: &[u8]) -> Result<(), TreeFault> {
        let answer = write_all(&mut self.writer, bytes);
        self.faults = counted(self.faults, &answer);
        answer
    }
}
