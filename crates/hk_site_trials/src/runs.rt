// Runs over folders in memory.
use crate::gate::Meeting;
use hk_app::{site_main, site_main_one};
use hk_base::NoMemory;
use hk_outside::{MemSink, MemTree};
use std::alloc::Global;
use std::sync::Wait;
use std::thread::Threads;

/// The folders that a run changes.
#[derive(Drop)]
pub struct Left {
    pub site: MemTree,
    pub cache: MemTree,
}

/// What a run finds, and what it leaves.
#[derive(Drop)]
pub struct World {
    pub source: MemTree,
    pub left: Left,
    pub out: MemSink,
}

/// A run that is over.
#[derive(Drop)]
pub struct Ran {
    pub status: u8,
    pub world: World,
}

/// The words of a line.
pub fn words_of(alloc: Global, line: &str) -> Result<Vec<String>, NoMemory> {
    let mut words = Vec::new(alloc);
    for word in line.split_whitespace() {
        words.push(String::from_str(alloc, word)?)?;
    }
    Ok(words)
}

/// Does what the words say, on one thread. It has no promise, so that its callers carry none.
pub fn run_one(alloc: Global, words: Vec<String>, mut world: World) -> Ran {
    let status = site_main_one(
        alloc,
        &words,
        &mut world.source,
        &mut world.left.site,
        &mut world.left.cache,
        &mut world.out,
    );
    Ran {
        status: status.code(),
        world,
    }
}

/// Does what the words say, with the gate told of each poll. It has no promise, so that its callers carry none.
pub fn run_at<R: Threads + Wait + Sync>(
    rt: &R,
    alloc: Global,
    words: Vec<String>,
    mut world: World,
    gate: &Meeting,
) -> Ran {
    let status = site_main(
        rt,
        alloc,
        &words,
        &mut world.source,
        &mut world.left.site,
        &mut world.left.cache,
        &mut world.out,
        gate,
    );
    Ran {
        status: status.code(),
        world,
    }
}
