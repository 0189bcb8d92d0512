//! Trials of the top call over folders in memory: reads rows of files, of runs in which a call fails, and of stores that
//! were cut or written by hand, and prints behind each run what it comes to and what stands then. The next row goes on from
//! that. A build of the tutorial site makes 13 calls of the source, 17 of the site and 2 of the cache, which are its read and
//! its write of the store: a fuse of so many stops nothing, and the write of the store is also torn.
#![tactic(auto)]

mod faults;
mod folders;
mod forging;
mod gate;
mod meeting;
mod row;
mod rows;
mod runs;
mod trial;

use row::arguments;
use rows::answer;
use std::alloc::Global;
use std::sync::Wait;
use std::test::Fail;
use std::thread::Threads;
use trial::Trial;

fn main(rt: HostRuntime) -> Result<(), Fail> {
    let alloc = rt.alloc();
    let mut trial = Trial::new(alloc);
    for line in rt.lines(alloc) {
        let line = line?;
        if let Some(text) = told(&rt, alloc, &mut trial, line.as_str())? {
            println!(rt; "{line} -> {text}")?;
        }
    }
    Ok(())
}

/// What a row comes to: a word, and its arguments behind bars.
fn told<R: Threads + Wait + Sync>(
    rt: &R,
    alloc: Global,
    trial: &mut Trial,
    line: &str,
) -> Result<Option<String>, Fail> {
    let (call, rest) = line.split_once('|').unwrap_or((line, ""));
    let args = arguments(alloc, rest)?;
    answer(rt, alloc, trial, call, &args)
}
