// The commands that compile a site and write nothing but their text.
ghost use Rattle.std.specs.Prelude.{◌≡◌, IfOk};
ghost use Rattle.hk_build.specs.Planned.{IsPlanned};
ghost use Rattle.hk_app.specs.Promise.{count_line, deps_lines};
ghost use Rattle.hk_app.specs.Run.{EndsAs, EndsCheck};
ghost use Rattle.hk_app.specs.Checking.{CompilesTo};
ghost use Rattle.hk_app.specs.World.{Folder, folder, folders};
ghost use Rattle.hk_words.specs.declared.commands.Command.TheVariants as the;

use crate::Status;
use crate::ended::Ended;
use crate::reading::{Gathered, gather};
use hk_base::{NoMemory, Shared, Text};
use hk_build::{check_one, report_lines};
use hk_fix::Results;
use hk_outside::Tree;
use hk_rules::Plan;
use hk_texts::{deps_text, items_line};
use std::alloc::Global;

/// Compiles the site, and says how many items it has.
pub fn check<S: Tree>(alloc: Global, source: &mut S) -> Result<Ended, NoMemory>
    ensures { (site cache : Folder) → EndsAs the.Check
        (folders (folder (S.files source.old) (S.faults source.old)) site cache)
        (folders (folder (S.files source.new) (S.faults source.new)) site cache)
        result }
{
    match gather(alloc, source)? {
        Gathered::Refused(ended) => Ok(ended),
        Gathered::Planned(plan) => check_plan(alloc, plan),
    }
}

/// Compiles the site, and says what each item asked for.
pub fn deps<S: Tree>(alloc: Global, source: &mut S) -> Result<Ended, NoMemory>
    ensures { (site cache : Folder) → EndsAs the.Deps
        (folders (folder (S.files source.old) (S.faults source.old)) site cache)
        (folders (folder (S.files source.new) (S.faults source.new)) site cache)
        result }
{
    match gather(alloc, source)? {
        Gathered::Refused(ended) => Ok(ended),
        Gathered::Planned(plan) => tell_deps(alloc, plan),
    }
}

/// The results of a site whose items are all done, or else what the report makes of it.
#[derive(Drop)]
pub enum Compiled {
    Stopped(Ended),
    Whole(Results),
}

/// Compiles a plan from nothing that is kept.
pub fn compile(alloc: Global, plan: &Shared<Plan>) -> Result<Compiled, NoMemory>
    requires { IsPlanned plan.now }
    ensures { IfOk result (CompilesTo plan.now) }
{
    let results = check_one(alloc, plan)?;
    match report_lines(alloc, plan.get(), &results)? {
        Some(text) => Ok(Compiled::Stopped(Ended {
            status: Status::Report,
            text,
        })),
        None => Ok(Compiled::Whole(results)),
    }
}

fn check_plan(alloc: Global, plan: Plan) -> Result<Ended, NoMemory>
    requires { IsPlanned plan }
    ensures { IfOk result (EndsCheck count_line plan) }
{
    let plan = Shared::new(alloc, plan)?;
    match compile(alloc, &plan)? {
        Compiled::Stopped(ended) => Ok(ended),
        Compiled::Whole(_) => shown(items_line(alloc, plan.get().count() as u64)?),
    }
}

fn tell_deps(alloc: Global, plan: Plan) -> Result<Ended, NoMemory>
    requires { IsPlanned plan }
    ensures { IfOk result (EndsCheck deps_lines plan) }
{
    let plan = Shared::new(alloc, plan)?;
    match compile(alloc, &plan)? {
        Compiled::Stopped(ended) => Ok(ended),
        Compiled::Whole(results) => shown(deps_text(alloc, plan.get(), &results.outcomes)?),
    }
}

/// What a command comes to that shows a text.
fn shown(text: Text) -> Result<Ended, NoMemory>
    ensures { IfOk result (λ e. (e.status ≡ Status.Ok) × (e.text ≡ text)) }
{
    Ok(Ended {
        status: Status::Ok,
        text,
    })
}
