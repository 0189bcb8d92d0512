// One run with several workers.
ghost use Rattle.std.specs.Prelude.{◌≡◌, ◌≤◌, ◌⊎◌, Some, map, string_bytes};
ghost use Rattle.hk_build.specs.Planned.{IsPlanned};
ghost use Rattle.hk_store.specs.Stored.{IsStored};
ghost use Rattle.hk_app.specs.Finishing.{Moves};
ghost use Rattle.hk_app.specs.Promise.{Promise};
ghost use Rattle.hk_app.specs.Run.{EndsTold, EndsWith};
ghost use Rattle.hk_app.specs.TakenBy.{taken_by};
ghost use Rattle.hk_app.specs.World.{Folder, Folders, folder, output, folders};
ghost use Rattle.hk_words.specs.Words as spec;
ghost use Rattle.hk_words.specs.Words.{HasWorkers};
ghost use Rattle.hk_words.specs.declared.commands.Command.TheVariants as the;

use crate::Status;
use crate::beginning::{Begun, begin_build, begin_rebuild};
use crate::ended::Ended;
use crate::finishing::finish;
use crate::generating::{gather_generated, tell_generated};
use crate::reading::Gathered;
use crate::run::{say, work};
use crate::taken::Taken;
use crate::taking::nothing_stored;
use hk_base::{NoMemory, Shared};
use hk_build::build_in_pool;
use hk_outside::{Gate, Sink, Tree};
use hk_rules::Plan;
use hk_words::{BuildOptions, Command, GenerateOptions, command};
use std::alloc::Global;
use std::sync::Wait;
use std::thread::Threads;

/// Does what the words say, as `site_main_one` does, but that a build with more than one worker runs its compilers in a
/// thread for each worker; it may wait for them. The promise is the same for every number of workers.
/// The gate is told before each poll in such threads, and after what the poll answered was handed on.
pub fn site_main<R: Threads + Wait + Sync, S: Tree, O: Tree, C: Tree, W: Sink, G: Gate>(
    rt: &R,
    alloc: Global,
    words: &[String],
    source: &mut S,
    site: &mut O,
    cache: &mut C,
    out: &mut W,
    gate: &G,
) -> Status
    ensures { Promise (map (λ w. string_bytes w) words.now)
        (folders (folder (S.files source.old) (S.faults source.old)) (folder (O.files site.old) (O.faults site.old)) (folder (C.files cache.old) (C.faults cache.old)))
        (folders (folder (S.files source.new) (S.faults source.new)) (folder (O.files site.new) (O.faults site.new)) (folder (C.files cache.new) (C.faults cache.new)))
        (output (W.written out.old) (W.faults out.old)) (output (W.written out.new) (W.faults out.new)) result }
{
    match work_in_pool(rt, alloc, words, source, site, cache, gate) {
        Ok(ended) => say(alloc, out, ended.text.as_slice(), ended.status),
        Err(_) => Status::NoMemory,
    }
}

fn work_in_pool<R: Threads + Wait + Sync, S: Tree, O: Tree, C: Tree, G: Gate>(
    rt: &R,
    alloc: Global,
    words: &[String],
    source: &mut S,
    site: &mut O,
    cache: &mut C,
    gate: &G,
) -> Result<Ended, NoMemory>
    ensures { EndsWith (map (λ w. string_bytes w) words.now)
        (folders (folder (S.files source.old) (S.faults source.old)) (folder (O.files site.old) (O.faults site.old)) (folder (C.files cache.old) (C.faults cache.old)))
        (folders (folder (S.files source.new) (S.faults source.new)) (folder (O.files site.new) (O.faults site.new)) (folder (C.files cache.new) (C.faults cache.new)))
        result }
{
    match command(alloc, words) {
        Ok(Some(Command::Build(options))) if options.workers > 1 => {
            build(rt, alloc, words, source, site, cache, gate, options)
        }
        Ok(Some(Command::Rebuild(options))) if options.workers > 1 => {
            rebuild(rt, alloc, words, source, site, cache, gate, options)
        }
        Ok(Some(Command::Generate(options))) if options.workers > 1 => {
            generate(rt, alloc, words, gate, options)
        }
        _ => work(alloc, words, source, site, cache),
    }
}

fn build<R: Threads + Wait + Sync, S: Tree, O: Tree, C: Tree, G: Gate>(
    rt: &R,
    alloc: Global,
    words: &[String],
    source: &mut S,
    site: &mut O,
    cache: &mut C,
    gate: &G,
    options: BuildOptions,
) -> Result<Ended, NoMemory>
    requires { spec.command (map (λ w. string_bytes w) words.now) ≡ Some (the.Build options) }
    ensures { EndsWith (map (λ w. string_bytes w) words.now)
        (folders (folder (S.files source.old) (S.faults source.old)) (folder (O.files site.old) (O.faults site.old)) (folder (C.files cache.old) (C.faults cache.old)))
        (folders (folder (S.files source.new) (S.faults source.new)) (folder (O.files site.new) (O.faults site.new)) (folder (C.files cache.new) (C.faults cache.new)))
        result }
{
    has_workers(words, options);
    match begin_build(alloc, source, cache, options)? {
        Begun::Over(ended) => Ok(ended),
        Begun::Ready(plan, taken) => {
            build_plan(rt, alloc, site, cache, &plan, &taken, gate, options)
        }
    }
}

fn rebuild<R: Threads + Wait + Sync, S: Tree, O: Tree, C: Tree, G: Gate>(
    rt: &R,
    alloc: Global,
    words: &[String],
    source: &mut S,
    site: &mut O,
    cache: &mut C,
    gate: &G,
    options: BuildOptions,
) -> Result<Ended, NoMemory>
    requires { spec.command (map (λ w. string_bytes w) words.now) ≡ Some (the.Rebuild options) }
    ensures { EndsWith (map (λ w. string_bytes w) words.now)
        (folders (folder (S.files source.old) (S.faults source.old)) (folder (O.files site.old) (O.faults site.old)) (folder (C.files cache.old) (C.faults cache.old)))
        (folders (folder (S.files source.new) (S.faults source.new)) (folder (O.files site.new) (O.faults site.new)) (folder (C.files cache.new) (C.faults cache.new)))
        result }
{
    has_workers(words, options);
    match begin_rebuild(alloc, source, options)? {
        Begun::Over(ended) => Ok(ended),
        Begun::Ready(plan, taken) => {
            build_plan(rt, alloc, site, cache, &plan, &taken, gate, options)
        }
    }
}

/// Runs the compilers of a plan in threads, over what was taken of the cache, and ends the build.
fn build_plan<R: Threads + Wait + Sync, O: Tree, C: Tree, G: Gate>(
    rt: &R,
    alloc: Global,
    site: &mut O,
    cache: &mut C,
    plan: &Shared<Plan>,
    taken: &Taken,
    gate: &G,
    options: BuildOptions,
) -> Result<Ended, NoMemory>
    requires workers { HasWorkers (the.Build options) }
    requires planned { IsPlanned plan.now }
    requires stored { IsStored taken.now.stored }
    ensures ends { (source source' : Folder) → EndsTold options.trace
        (folders source (folder (O.files site.old) (O.faults site.old)) (folder (C.files cache.old) (C.faults cache.old)))
        (folders source' (folder (O.files site.new) (O.faults site.new)) (folder (C.files cache.new) (C.faults cache.new)))
        plan.now (taken_by taken.now) result }
    ensures site { Moves (folder (O.files site.old) (O.faults site.old)) (folder (O.files site.new) (O.faults site.new)) }
    ensures cache { Moves (folder (C.files cache.old) (C.faults cache.old)) (folder (C.files cache.new) (C.faults cache.new)) }
{
    let build = build_in_pool(
        rt,
        alloc,
        plan,
        &taken.stored,
        taken.bytes(),
        options.workers,
        gate,
    )?;
    finish(alloc, site, cache, plan.get(), taken, &build, options.trace)
}

/// Builds a generated site in threads.
fn generate<R: Threads + Wait + Sync, G: Gate>(
    rt: &R,
    alloc: Global,
    words: &[String],
    gate: &G,
    options: GenerateOptions,
) -> Result<Ended, NoMemory>
    requires { spec.command (map (λ w. string_bytes w) words.now) ≡ Some (the.Generate options) }
    ensures { (old : Folders) → EndsWith (map (λ w. string_bytes w) words.now) old old result }
{
    has_crew(words, options);
    match gather_generated(alloc, options)? {
        Gathered::Refused(ended) => Ok(ended),
        Gathered::Planned(plan) => {
            let plan = Shared::new(alloc, plan)?;
            let nothing = nothing_stored(alloc);
            let build = build_in_pool(rt, alloc, &plan, &nothing, None, options.workers, gate)?;
            tell_generated(alloc, plan.get(), &build)
        }
    }
}

/// The workers of a build number 1 to 64.
fn has_workers(words: &[String], options: BuildOptions)
    requires { (spec.command (map (λ w. string_bytes w) words.now) ≡ Some (the.Build options)) ⊎ (spec.command (map (λ w. string_bytes w) words.now) ≡ Some (the.Rebuild options)) }
    ensures { HasWorkers (the.Build options) }
{}

/// So do those that build a generated site.
fn has_crew(words: &[String], options: GenerateOptions)
    requires { spec.command (map (λ w. string_bytes w) words.now) ≡ Some (the.Generate options) }
    ensures { HasWorkers (the.Generate options) }
{}
