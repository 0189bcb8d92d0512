// The end of a build: the site, the store and the text.
ghost use Rattle.std.specs.Prelude.{◌≡◌, ◌≤◌, ◌-◌, ◌++◌, IfOk, length};
ghost use Rattle.hk_reuse.specs.Entries.{Entries, entries_in};
ghost use Rattle.hk_store.specs.Stored.{IsStored};
ghost use Rattle.hk_texts.specs.Printed as printed;
ghost use Rattle.hk_texts.specs.Printed.{store_unwritten_line};
ghost use Rattle.hk_build.specs.Build.{shown};
ghost use Rattle.hk_build.specs.Ended.{HasBuilt, IsBuild};
ghost use Rattle.hk_build.specs.Planned.{IsPlanned};
ghost use Rattle.hk_app.specs.Finishing.{IsFront, Moves, Saves};
ghost use Rattle.hk_app.specs.Promise.{AllEnd, traced};
ghost use Rattle.hk_app.specs.Run.{EndsBuild, EndsTold};
ghost use Rattle.hk_app.specs.TakenBy.{taken_by};
ghost use Rattle.hk_app.specs.World.{Folder, folder, folders};

use crate::Status;
use crate::ended::Ended;
use crate::taken::Taken;
use hk_base::{NoMemory, Text};
use hk_build::{Build, kept_items_leave_histories, report_lines, shown_trace, site_pages};
use hk_outside::{Tree, TreeFault};
use hk_reuse::entries_are_stored;
use hk_rules::Plan;
use hk_texts::summary;
use hk_writer::{Counts, write_site};
use std::alloc::Global;

/// Writes the pages of a build and its store, or where some item isn't done the store alone, and says so. In front stand the
/// line of a damaged store and, where it is asked for, the trace.
pub fn finish<O: Tree, C: Tree>(
    alloc: Global,
    site: &mut O,
    cache: &mut C,
    plan: &Plan,
    taken: &Taken,
    build: &Build,
    trace: bool,
) -> Result<Ended, NoMemory>
    requires planned { IsPlanned plan.now }
    requires stored { IsStored taken.now.stored }
    requires built { IsBuild plan.now (entries_in taken.now.stored) build.now }
    ensures ends { (source source' : Folder) → EndsTold trace
        (folders source (folder (O.files site.old) (O.faults site.old)) (folder (C.files cache.old) (C.faults cache.old)))
        (folders source' (folder (O.files site.new) (O.faults site.new)) (folder (C.files cache.new) (C.faults cache.new)))
        plan.now (taken_by taken.now) result }
    ensures site { Moves (folder (O.files site.old) (O.faults site.old)) (folder (O.files site.new) (O.faults site.new)) }
    ensures cache { Moves (folder (C.files cache.old) (C.faults cache.old)) (folder (C.files cache.new) (C.faults cache.new)) }
{
    let front = front_of(alloc, plan, taken, build, trace)?;
    let ended = settle(alloc, site, cache, plan, taken, build)?;
    ended.after(front)
}

/// The line of a damaged store and the trace.
fn front_of(
    alloc: Global,
    plan: &Plan,
    taken: &Taken,
    build: &Build,
    trace: bool,
) -> Result<Text, NoMemory>
    requires planned { IsPlanned plan.now }
    requires stored { IsStored taken.now.stored }
    requires built { IsBuild plan.now (entries_in taken.now.stored) build.now }
    ensures { IfOk result (IsFront trace plan.now (taken_by taken.now)) }
{
    kept_items_leave_histories();
    entries_are_stored();
    let lines = trace_of(alloc, plan, build, trace)?;
    let mut front = Vec::from_slice(alloc, taken.damage.as_slice())?;
    front.extend_from_slice(lines.as_slice())?;
    Ok(Text::from_vec(front))
}

/// The lines of the events of the items that were compiled, where they are asked for.
fn trace_of(alloc: Global, plan: &Plan, build: &Build, trace: bool) -> Result<Text, NoMemory>
    requires { HasBuilt plan.now build.now }
    ensures { IfOk result (λ t. (entries : Entries) → IsBuild plan.now entries build.now
        → t ≡ traced trace plan.now (shown plan.now entries build.now.results.history)) }
{
    if !trace {
        return Text::from_slice(alloc, b"");
    }
    shown_trace(alloc, plan, build)
}

/// Writes the site and the store of a build.
fn settle<O: Tree, C: Tree>(
    alloc: Global,
    site: &mut O,
    cache: &mut C,
    plan: &Plan,
    taken: &Taken,
    build: &Build,
) -> Result<Ended, NoMemory>
    requires planned { IsPlanned plan.now }
    requires stored { IsStored taken.now.stored }
    requires built { IsBuild plan.now (entries_in taken.now.stored) build.now }
    ensures ends { (source source' : Folder) → EndsBuild
        (folders source (folder (O.files site.old) (O.faults site.old)) (folder (C.files cache.old) (C.faults cache.old)))
        (folders source' (folder (O.files site.new) (O.faults site.new)) (folder (C.files cache.new) (C.faults cache.new)))
        plan.now (taken_by taken.now) result }
    ensures site { Moves (folder (O.files site.old) (O.faults site.old)) (folder (O.files site.new) (O.faults site.new)) }
    ensures cache { Moves (folder (C.files cache.old) (C.faults cache.old)) (folder (C.files cache.new) (C.faults cache.new)) }
{
    match report_lines(alloc, plan, &build.results)? {
        Some(text) => {
            let ended = Ended {
                status: Status::Report,
                text,
            };
            save(alloc, cache, build.store.as_slice(), ended)
        }
        None => write(alloc, site, cache, plan, taken, build),
    }
}

/// Writes the pages of a build whose items are all done, and its store.
fn write<O: Tree, C: Tree>(
    alloc: Global,
    site: &mut O,
    cache: &mut C,
    plan: &Plan,
    taken: &Taken,
    build: &Build,
) -> Result<Ended, NoMemory>
    requires planned { IsPlanned plan.now }
    requires stored { IsStored taken.now.stored }
    requires built { IsBuild plan.now (entries_in taken.now.stored) build.now }
    requires all { AllEnd plan.now (taken_by taken.now) }
    ensures ends { (source source' : Folder) → EndsBuild
        (folders source (folder (O.files site.old) (O.faults site.old)) (folder (C.files cache.old) (C.faults cache.old)))
        (folders source' (folder (O.files site.new) (O.faults site.new)) (folder (C.files cache.new) (C.faults cache.new)))
        plan.now (taken_by taken.now) result }
    ensures site { Moves (folder (O.files site.old) (O.faults site.old)) (folder (O.files site.new) (O.faults site.new)) }
    ensures cache { Moves (folder (C.files cache.old) (C.faults cache.old)) (folder (C.files cache.new) (C.faults cache.new)) }
{
    kept_items_leave_histories();
    let pages = site_pages(alloc, plan, &build.results)?;
    match write_site(alloc, site, &pages) {
        Ok(counts) => {
            let ended = done(alloc, plan, build, &counts)?;
            save(alloc, cache, build.store.as_slice(), ended)
        }
        Err(TreeFault::Failed) => {
            Ended::new(alloc, Status::WriteFault, b"site cannot be written\n")
        }
        Err(TreeFault::NoMemory) => Err(NoMemory),
    }
}

/// The summary of a build.
fn done(alloc: Global, plan: &Plan, build: &Build, counts: &Counts) -> Result<Ended, NoMemory>
    requires compiled { length build.now.compiled.items ≤ length plan.now.items }
    ensures { IfOk result (λ e. (e.status ≡ Status.Ok)
        × (e.text ≡ printed.summary (length build.now.compiled.items) (length plan.now.items - length build.now.compiled.items) counts.now.written counts.now.removed)) }
{
    let compiled = build.compiled.len() as u64;
    let reused = plan.count() as u64 - compiled;
    let text = summary(alloc, compiled, reused, counts.written, counts.removed)?;
    Ok(Ended {
        status: Status::Ok,
        text,
    })
}

/// Writes the store, and says where it cannot be written.
fn save<C: Tree>(
    alloc: Global,
    cache: &mut C,
    store: &[u8],
    ended: Ended,
) -> Result<Ended, NoMemory>
    ensures saves { Saves store.now ended (folder (C.files cache.old) (C.faults cache.old)) (folder (C.files cache.new) (C.faults cache.new)) result }
    ensures cache { Moves (folder (C.files cache.old) (C.faults cache.old)) (folder (C.files cache.new) (C.faults cache.new)) }
{
    match cache.write(alloc, b"store", store) {
        Ok(()) => Ok(ended),
        Err(TreeFault::Failed) => unsaved(ended),
        Err(TreeFault::NoMemory) => Err(NoMemory),
    }
}

/// What a build comes to whose store cannot be written.
fn unsaved(ended: Ended) -> Result<Ended, NoMemory>
    ensures { IfOk result (λ e. (e.status ≡ Status.StoreFault) × (e.text ≡ ended.text ++ store_unwritten_line)) }
{
    let mut text = ended.text.into_vec();
    text.extend_from_slice(b"store cannot be written\n")?;
    Ok(Ended {
        status: Status::StoreFault,
        text: Text::from_vec(text),
    })
}
