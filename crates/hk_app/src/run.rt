// One run, from the words to the status.
ghost use Rattle.std.specs.Prelude.{◌≡◌, ◌≤◌, ◌≢◌, map, string_bytes};
ghost use Rattle.hk_build.specs.Planned.{IsPlanned};
ghost use Rattle.hk_store.specs.Stored.{IsStored};
ghost use Rattle.hk_app.specs.Finishing.{Moves};
ghost use Rattle.hk_app.specs.Promise.{Promise};
ghost use Rattle.hk_app.specs.Run.{SaysAs, EndsWith, EndsAs, EndsTold};
ghost use Rattle.hk_app.specs.TakenBy.{taken_by};
ghost use Rattle.hk_app.specs.World.{Folder, folder, output, folders};
ghost use Rattle.hk_words.specs.declared.commands.Command.TheVariants as the;

use crate::Status;
use crate::beginning::{Begun, begin_build, begin_rebuild};
use crate::checking::{check, deps};
use crate::cleaning::clean;
use crate::ended::Ended;
use crate::finishing::finish;
use crate::generating::generate;
use crate::linking::links;
use crate::taken::Taken;
use hk_base::{NoMemory, Shared};
use hk_build::build_one;
use hk_outside::{Sink, Tree, TreeFault};
use hk_rules::Plan;
use hk_words::{BuildOptions, Command, command, usage_text};
use std::alloc::Global;

/// Does what the words say, on the caller's thread. The text of the run is one write to `out`, the last call. The source
/// stays as it was. Always returns.
///
/// - `build` reads the source folder with its `site.toml` and the file `store` of the cache, runs the compilers of the plan
///   over the stored results, and leaves in the site folder exactly the pages and in `store` what the next build goes by.
///   An item is compiled only where it is out of date. Where an item failed or waits, the site stays as it was, `store` is
///   written, and the text is the report. A damaged store counts as an empty one, and a line says so.
/// - `rebuild` does the same without reading `store`.
/// - `check` and `deps` run the compilers without the store, and write nothing but their text: the number of items, or what
///   each item asked for; or the report.
/// - `clean` removes every file of the site, and then every file of the cache.
/// - `gen` builds the site that it is given by two numbers, in memory.
/// - `links` runs the compilers as `check` does and tests the links of the pages that they make; it writes nothing but its
///   text: the links that lead nowhere and how many there are, or the report.
///
/// Statuses, in their order: `Usage` exactly where the words are no command; `ReadFault` only where the source's count of
/// faults rose; `BadRules` exactly where `site.toml` is absent or refused; `BadSite` exactly where its rules make no plan;
/// `StoreFault` while reading only where the cache's count rose; `Report` exactly where an item of the plan failed or waits;
/// `BadLinks` exactly where `links` finds a link that leads nowhere inside the site;
/// `WriteFault` only where the site's count rose; `StoreFault` while saving or removing only where the cache's count rose;
/// `OutFault` only where the sink's count rose; `NoMemory` for want of memory, and then nothing was written to `out`.
///
/// One read for each file of the source that is not ignored, one list of the site, one read and at most one write for
/// each page, one read and one write of the store; n log n comparisons of paths. The compilers' work is linear in what they
/// load and make; an item that is reused costs the bytes of its fingerprint and of the pages that it asked for.
pub fn site_main_one<S: Tree, O: Tree, C: Tree, W: Sink>(
    alloc: Global,
    words: &[String],
    source: &mut S,
    site: &mut O,
    cache: &mut C,
    out: &mut W,
) -> Status
    ensures { Promise (map (λ w. string_bytes w) words.now)
        (folders (folder (S.files source.old) (S.faults source.old)) (folder (O.files site.old) (O.faults site.old)) (folder (C.files cache.old) (C.faults cache.old)))
        (folders (folder (S.files source.new) (S.faults source.new)) (folder (O.files site.new) (O.faults site.new)) (folder (C.files cache.new) (C.faults cache.new)))
        (output (W.written out.old) (W.faults out.old)) (output (W.written out.new) (W.faults out.new)) result }
{
    match work(alloc, words, source, site, cache) {
        Ok(ended) => say(alloc, out, ended.text.as_slice(), ended.status),
        Err(_) => Status::NoMemory,
    }
}

/// All of a run but the writing of its text.
pub fn work<S: Tree, O: Tree, C: Tree>(
    alloc: Global,
    words: &[String],
    source: &mut S,
    site: &mut O,
    cache: &mut C,
) -> Result<Ended, NoMemory>
    ensures { EndsWith (map (λ w. string_bytes w) words.now)
        (folders (folder (S.files source.old) (S.faults source.old)) (folder (O.files site.old) (O.faults site.old)) (folder (C.files cache.old) (C.faults cache.old)))
        (folders (folder (S.files source.new) (S.faults source.new)) (folder (O.files site.new) (O.faults site.new)) (folder (C.files cache.new) (C.faults cache.new)))
        result }
{
    match command(alloc, words)? {
        Some(task) => perform(alloc, task, source, site, cache),
        None => Ended::new(alloc, Status::Usage, usage_text()),
    }
}

fn perform<S: Tree, O: Tree, C: Tree>(
    alloc: Global,
    task: Command,
    source: &mut S,
    site: &mut O,
    cache: &mut C,
) -> Result<Ended, NoMemory>
    ensures { EndsAs task
        (folders (folder (S.files source.old) (S.faults source.old)) (folder (O.files site.old) (O.faults site.old)) (folder (C.files cache.old) (C.faults cache.old)))
        (folders (folder (S.files source.new) (S.faults source.new)) (folder (O.files site.new) (O.faults site.new)) (folder (C.files cache.new) (C.faults cache.new)))
        result }
{
    match task {
        Command::Build(options) => build(alloc, source, site, cache, options),
        Command::Rebuild(options) => rebuild(alloc, source, site, cache, options),
        Command::Check => check(alloc, source),
        Command::Deps => deps(alloc, source),
        Command::Clean => clean(alloc, site, cache),
        Command::Generate(options) => generate(alloc, options),
        Command::Links => links(alloc, source),
    }
}

fn build<S: Tree, O: Tree, C: Tree>(
    alloc: Global,
    source: &mut S,
    site: &mut O,
    cache: &mut C,
    options: BuildOptions,
) -> Result<Ended, NoMemory>
    ensures { EndsAs (the.Build options)
        (folders (folder (S.files source.old) (S.faults source.old)) (folder (O.files site.old) (O.faults site.old)) (folder (C.files cache.old) (C.faults cache.old)))
        (folders (folder (S.files source.new) (S.faults source.new)) (folder (O.files site.new) (O.faults site.new)) (folder (C.files cache.new) (C.faults cache.new)))
        result }
{
    match begin_build(alloc, source, cache, options)? {
        Begun::Over(ended) => Ok(ended),
        Begun::Ready(plan, taken) => build_plan(alloc, site, cache, &plan, &taken, options.trace),
    }
}

fn rebuild<S: Tree, O: Tree, C: Tree>(
    alloc: Global,
    source: &mut S,
    site: &mut O,
    cache: &mut C,
    options: BuildOptions,
) -> Result<Ended, NoMemory>
    ensures { EndsAs (the.Rebuild options)
        (folders (folder (S.files source.old) (S.faults source.old)) (folder (O.files site.old) (O.faults site.old)) (folder (C.files cache.old) (C.faults cache.old)))
        (folders (folder (S.files source.new) (S.faults source.new)) (folder (O.files site.new) (O.faults site.new)) (folder (C.files cache.new) (C.faults cache.new)))
        result }
{
    match begin_rebuild(alloc, source, options)? {
        Begun::Over(ended) => Ok(ended),
        Begun::Ready(plan, taken) => build_plan(alloc, site, cache, &plan, &taken, options.trace),
    }
}

/// Runs the compilers of a plan over what was taken of the cache, and ends the build.
fn build_plan<O: Tree, C: Tree>(
    alloc: Global,
    site: &mut O,
    cache: &mut C,
    plan: &Shared<Plan>,
    taken: &Taken,
    trace: bool,
) -> Result<Ended, NoMemory>
    requires planned { IsPlanned plan.now }
    requires stored { IsStored taken.now.stored }
    ensures ends { (source source' : Folder) → EndsTold trace
        (folders source (folder (O.files site.old) (O.faults site.old)) (folder (C.files cache.old) (C.faults cache.old)))
        (folders source' (folder (O.files site.new) (O.faults site.new)) (folder (C.files cache.new) (C.faults cache.new)))
        plan.now (taken_by taken.now) result }
    ensures site { Moves (folder (O.files site.old) (O.faults site.old)) (folder (O.files site.new) (O.faults site.new)) }
    ensures cache { Moves (folder (C.files cache.old) (C.faults cache.old)) (folder (C.files cache.new) (C.faults cache.new)) }
{
    let build = build_one(alloc, plan, &taken.stored, taken.bytes())?;
    finish(alloc, site, cache, plan.get(), taken, &build, trace)
}

/// Writes the text of a run, and turns the status where it cannot be written.
pub fn say<W: Sink>(alloc: Global, out: &mut W, text: &[u8], status: Status) -> Status
    requires { status ≢ Status.OutFault × status ≢ Status.NoMemory }
    ensures said { SaysAs (output (W.written out.old) (W.faults out.old)) (output (W.written out.new) (W.faults out.new)) text.now status result }
    ensures later { W.faults out.old ≤ W.faults out.new }
{
    match out.write(alloc, text) {
        Ok(()) => status,
        Err(TreeFault::Failed) => Status::OutFault,
        Err(TreeFault::NoMemory) => Status::NoMemory,
    }
}
