//! The program: the words, the folders and the standard output of the system, and the status as exit code.
#![tactic(auto)]

use hk_app::{Status, site_main};
use hk_base::NoMemory;
use hk_os::{OsTree, StdSink};
use hk_outside::OpenGate;
use std::alloc::Global;
use std::io::ErrorKind;
use std::process::ExitCode;
use std::sync::Wait;
use std::thread::Threads;
use std::{env, io};

/// Does what the words say in the folder in which the program runs: the sources are there, the site in `_site` and the
/// store in `_cache`. The exit code is that of the status.
fn main(rt: HostRuntime) -> ExitCode {
    let status = match run(&rt, &rt, rt.alloc()) {
        Ok(status) => status,
        Err(NoMemory) => Status::NoMemory,
    };
    ExitCode::from(status.code())
}

fn run<R: Threads + Wait + Sync>(
    rt: &HostRuntime,
    threads: &R,
    alloc: Global,
) -> Result<Status, NoMemory> {
    let words = words(rt, alloc)?;
    let mut source = OsTree::new(rt, String::from_str(alloc, ".")?);
    let mut site = OsTree::new(rt, String::from_str(alloc, "_site")?);
    let mut cache = OsTree::new(rt, String::from_str(alloc, "_cache")?);
    let mut out = StdSink::new(io::writer(rt));
    Ok(site_main(
        threads,
        alloc,
        words.as_slice(),
        &mut source,
        &mut site,
        &mut cache,
        &mut out,
        &OpenGate,
    ))
}

/// The words after the program's name. Where one of them is not UTF-8 there are none, which is no command either.
fn words(rt: &HostRuntime, alloc: Global) -> Result<Vec<String>, NoMemory> {
    match env::args(rt) {
        Ok(args) => Ok(args.skip(1).collect(alloc)?),
        Err(error) if error.kind() == ErrorKind::OutOfMemory => Err(NoMemory),
        Err(_) => Ok(Vec::new(alloc)),
    }
}
