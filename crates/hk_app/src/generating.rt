// The build of a generated site, in memory.
ghost use Rattle.std.specs.Prelude.{◌≡◌, IfOk, length};
ghost use Rattle.hk_build.specs.Ended.{IsBuild};
ghost use Rattle.hk_reuse.specs.Entries.{no_entries};
ghost use Rattle.hk_app.specs.Generating.{GathersGenerated};
ghost use Rattle.hk_app.specs.Generated.{site_line, with_target};
ghost use Rattle.hk_app.specs.Run.{EndsAs, EndsCheck};
ghost use Rattle.hk_app.specs.World.{Folders};
ghost use Rattle.hk_words.specs.declared.commands.Command.TheVariants as the;

use crate::Status;
use crate::ended::Ended;
use crate::reading::{Gathered, plan_files};
use crate::taking::nothing_stored;
use hk_base::{NoMemory, Shared};
use hk_build::{Build, build_one, report_lines};
use hk_chain::ItemNo;
use hk_gen::{generated_line, generated_site};
use hk_rules::Plan;
use hk_words::GenerateOptions;
use std::alloc::Global;

/// Builds a generated site from nothing that is kept, and says how many items and pages it has and the digest of its
/// store. No folder is touched.
pub fn generate(alloc: Global, options: GenerateOptions) -> Result<Ended, NoMemory>
    ensures { (old : Folders) → EndsAs (the.Generate options) old old result }
{
    match gather_generated(alloc, options)? {
        Gathered::Refused(ended) => Ok(ended),
        Gathered::Planned(plan) => {
            let plan = Shared::new(alloc, plan)?;
            let build = build_one(alloc, &plan, &nothing_stored(alloc), None)?;
            tell_generated(alloc, plan.get(), &build)
        }
    }
}

/// The plan of a generated site.
pub fn gather_generated(alloc: Global, options: GenerateOptions) -> Result<Gathered, NoMemory>
    ensures { IfOk result (GathersGenerated options) }
{
    plan_files(alloc, generated_site(alloc, options.number, options.count)?)
}

/// What the build of a generated site comes to.
pub fn tell_generated(alloc: Global, plan: &Plan, build: &Build) -> Result<Ended, NoMemory>
    requires { IsBuild plan.now no_entries build.now }
    ensures { IfOk result (EndsCheck site_line plan.now) }
{
    match report_lines(alloc, plan, &build.results)? {
        Some(text) => Ok(Ended {
            status: Status::Report,
            text,
        }),
        None => Ok(Ended {
            status: Status::Ok,
            text: generated_line(
                alloc,
                plan.count() as u64,
                pages(plan),
                build.store.as_slice(),
            )?,
        }),
    }
}

/// How many items have a target.
fn pages(plan: &Plan) -> u64
    ensures { result ≡ with_target plan.now (length plan.now.items) }
{
    let mut pages = 0;
    for item in 0..plan.count() {
        if plan.target_of(ItemNo(item)).is_some() {
            pages += 1;
        }
    }
    pages
}
