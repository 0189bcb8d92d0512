// The beginning of a build: the plan, and what is taken of the cache.
ghost use Rattle.std.specs.Prelude.{◌≡◌, ◌≤◌, IfOk};
ghost use Rattle.hk_app.specs.Beginning.{Begins, TakesStore};
ghost use Rattle.hk_app.specs.World.{Folder, folder, folders};
ghost use Rattle.hk_words.specs.declared.commands.Command.TheVariants as the;

use crate::Status;
use crate::ended::Ended;
use crate::reading::{Gathered, gather};
use crate::taken::Taken;
use crate::taking::take_store;
use hk_base::{NoMemory, Shared};
use hk_outside::{Tree, TreeFault};
use hk_rules::Plan;
use hk_words::BuildOptions;
use std::alloc::Global;

/// What a build goes on with, or what it came to without.
#[derive(Drop)]
pub enum Begun {
    Over(Ended),
    Ready(Shared<Plan>, Taken),
}

/// Reads the source and the store.
pub fn begin_build<S: Tree, C: Tree>(
    alloc: Global,
    source: &mut S,
    cache: &mut C,
    options: BuildOptions,
) -> Result<Begun, NoMemory>
    ensures { (site : Folder) → Begins (the.Build options)
        (folders (folder (S.files source.old) (S.faults source.old)) site (folder (C.files cache.old) (C.faults cache.old)))
        (folders (folder (S.files source.new) (S.faults source.new)) site (folder (C.files cache.new) (C.faults cache.new)))
        result }
{
    match gather(alloc, source)? {
        Gathered::Refused(ended) => Ok(Begun::Over(ended)),
        Gathered::Planned(plan) => begin_over_store(alloc, cache, plan),
    }
}

/// Reads the source, and no store.
pub fn begin_rebuild<S: Tree>(
    alloc: Global,
    source: &mut S,
    options: BuildOptions,
) -> Result<Begun, NoMemory>
    ensures { (site cache : Folder) → Begins (the.Rebuild options)
        (folders (folder (S.files source.old) (S.faults source.old)) site cache)
        (folders (folder (S.files source.new) (S.faults source.new)) site cache)
        result }
{
    match gather(alloc, source)? {
        Gathered::Refused(ended) => Ok(Begun::Over(ended)),
        Gathered::Planned(plan) => Ok(Begun::Ready(
            Shared::new(alloc, plan)?,
            Taken::nothing(alloc)?,
        )),
    }
}

/// Reads the store of a plan's site.
fn begin_over_store<C: Tree>(alloc: Global, cache: &mut C, plan: Plan) -> Result<Begun, NoMemory>
    ensures takes { TakesStore plan (folder (C.files cache.old) (C.faults cache.old)) (folder (C.files cache.new) (C.faults cache.new)) result }
    ensures same { C.files cache.new ≡ C.files cache.old }
    ensures later { C.faults cache.old ≤ C.faults cache.new }
{
    match take_store(alloc, cache) {
        Ok(taken) => Ok(Begun::Ready(Shared::new(alloc, plan)?, taken)),
        Err(TreeFault::Failed) => Ok(Begun::Over(Ended::new(
            alloc,
            Status::StoreFault,
            b"store cannot be read\n",
        )?)),
        Err(TreeFault::NoMemory) => Err(NoMemory),
    }
}
