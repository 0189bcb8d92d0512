// What each row does.
use crate::faults::Fault;
use crate::forging::{cut, sealed};
use crate::meeting::met;
use crate::row::{bytes_at, size_at, word_at};
use crate::trial::Trial;
use std::alloc::Global;
use std::sync::Wait;
use std::test::Fail;
use std::thread::Threads;

/// What a row comes to, and nothing where it is no run. Rows that name a file are `file` in the source, `page` and `site`.
/// `new` forgets all files, `clear` empties the site and the cache, and `store` seals a text as the store.
pub fn answer<R: Threads + Wait + Sync>(
    rt: &R,
    alloc: Global,
    trial: &mut Trial,
    call: &str,
    args: &[Vec<u8>],
) -> Result<Option<String>, Fail> {
    match call {
        "build" | "clean" => Ok(Some(trial.run(alloc, call, Fault::of(args)?)?)),
        "cut" => Ok(Some(cut(alloc, trial, size_at(args, 0)?, bytes_at(args, 1)?)?)),
        "meeting" => Ok(Some(met(rt, alloc, trial, word_at(args, 0)?)?)),
        _ => change(alloc, trial, call, args),
    }
}

fn change(
    alloc: Global,
    trial: &mut Trial,
    call: &str,
    args: &[Vec<u8>],
) -> Result<Option<String>, Fail> {
    match call {
        "new" => *trial = Trial::new(alloc),
        "clear" => trial.clear(alloc),
        "store" => trial.put_store(alloc, &sealed(alloc, bytes_at(args, 0)?)?)?,
        _ => trial.set(alloc, call, args)?,
    }
    Ok(None)
}
