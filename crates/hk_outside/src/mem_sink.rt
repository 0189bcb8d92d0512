// A sink in memory whose writes fail as it was told.
ghost use Rattle.std.specs.Prelude.{◌≡◌, IsOkAnd, ◌+◌, ◌==◌, find, option_map};
ghost use Rattle.hk_outside.specs.Mem.{Fated, after_write, output, write_fate, torn_of};

use crate::held::first;
use crate::{Sink, TreeFault};
use hk_base::NoMemory;
use std::alloc::Global;
use std::marker::Model;

/// A sink in memory whose writes fail as it was told, seen as the bytes so far and what is known of its failing writes.
#[derive(Drop)]
pub struct MemSink {
    bytes: Vec<u8>,
    fails: Vec<(u64, usize)>,
    writes: u64,
    faults: u64,
}

impl Model for MemSink {
    ghost use Rattle.hk_outside.specs.Mem.{MemOutput};

    ghost Value = { MemOutput };

    ghost view = { λ s. record { written = s.bytes.items; fails = s.fails.items; writes = s.writes; faults = s.faults } };
}

impl MemSink {
    /// A sink to which nothing was written. Each member of `fails` is the number of a write, counted from 1, and a number
    /// of bytes: that write fails after so many of its first bytes were appended, or all where there are fewer. Of
    /// several members for one write the first counts. It takes no memory, so it is always `Ok`. Constant.
    ///
    /// Each write is counted, also one that failed or had no memory, and costs a walk over `fails`.
    pub fn new(alloc: Global, fails: Vec<(u64, usize)>) -> Result<MemSink, NoMemory>
        ensures { IsOkAnd result (λ s. s ≡ output fails.items) }
    {
        Ok(MemSink {
            bytes: Vec::new(alloc),
            fails,
            writes: 0,
            faults: 0,
        })
    }

    /// The bytes so far, lent. Constant.
    pub fn as_slice(&self) -> &[u8]
        ensures { result.now ≡ self.now.written }
    {
        &self.bytes
    }
}

impl Sink for MemSink {
    ghost use Rattle.std.specs.Prelude.{Some};
    ghost use Rattle.hk_outside.specs.Causes.{HasCause};
    ghost use Rattle.hk_outside.specs.Sink.{Appends};

    ghost written = { λ s. Some s.written };

    ghost faults = { λ s. s.faults };

    /// Linear in the bytes, but for the moves of a growing buffer.
    fn write(&mut self, _alloc: Global, bytes: &[u8]) -> Result<(), TreeFault>
        ensures fate { Fated (write_fate (torn_of self.old)) result }
        ensures after { self.new ≡ after_write bytes.now result self.old }
        ensures appends { Appends bytes.now (Some self.old.written) (Some self.new.written) result }
        ensures cause { HasCause self.old.faults self.new.faults result }
    {
        let torn = find_torn(self.fails.as_slice(), self.writes);
        self.writes = self.writes.saturating_add(1);
        match torn {
            None => {
                self.bytes.extend_from_slice(bytes)?;
                Ok(())
            }
            Some(count) => {
                self.bytes.extend_from_slice(first(bytes, count))?;
                self.faults = self.faults.saturating_add(1);
                Err(TreeFault::Failed)
            }
        }
    }
}

/// How much the write after so many leaves, where it is to fail.
fn find_torn(fails: &[(u64, usize)], writes: u64) -> Option<usize>
    ensures { result ≡ option_map (λ m. m.1) (find (λ m. m.0 == writes + 1) fails.now) }
{
    match fails.iter().find(|member| is_next(member, writes)) {
        None => None,
        Some(member) => Some(member.1),
    }
}

fn is_next(member: &(u64, usize), writes: u64) -> bool
    ensures { result ≡ (member.now.0 == writes + 1) }
{
    member.0 > writes && member.0 - writes == 1
}
