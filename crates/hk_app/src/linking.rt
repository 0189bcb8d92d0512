// The command that tests the links of a site.
ghost use Rattle.std.specs.Prelude.{◌≡◌, IfOk};
ghost use Rattle.hk_build.specs.Planned.{IsPlanned};
ghost use Rattle.hk_app.specs.Linking as spec;
ghost use Rattle.hk_app.specs.Linking.{EndsLinks};
ghost use Rattle.hk_app.specs.Run.{EndsAs};
ghost use Rattle.hk_app.specs.World.{Folder, folder, folders};
ghost use Rattle.hk_words.specs.declared.commands.Command.TheVariants as the;

use crate::Status;
use crate::checking::{Compiled, compile};
use crate::ended::Ended;
use crate::reading::{Gathered, gather};
use hk_base::{NoMemory, Shared};
use hk_build::{LinkLines, link_lines};
use hk_outside::Tree;
use hk_rules::Plan;
use std::alloc::Global;

/// Compiles the site, and says which of its links lead nowhere inside it.
pub fn links<S: Tree>(alloc: Global, source: &mut S) -> Result<Ended, NoMemory>
    ensures { (site cache : Folder) → EndsAs the.Links
        (folders (folder (S.files source.old) (S.faults source.old)) site cache)
        (folders (folder (S.files source.new) (S.faults source.new)) site cache)
        result }
{
    match gather(alloc, source)? {
        Gathered::Refused(ended) => Ok(ended),
        Gathered::Planned(plan) => test_links(alloc, plan),
    }
}

fn test_links(alloc: Global, plan: Plan) -> Result<Ended, NoMemory>
    requires { IsPlanned plan }
    ensures { IfOk result (EndsLinks plan) }
{
    let plan = Shared::new(alloc, plan)?;
    match compile(alloc, &plan)? {
        Compiled::Stopped(ended) => Ok(ended),
        Compiled::Whole(results) => Ok(tested(link_lines(alloc, plan.get(), &results)?)),
    }
}

/// What the command comes to where each link leads somewhere, or not.
fn tested(lines: LinkLines) -> Ended
    ensures status { result.status ≡ spec.status_of lines.all_lead }
    ensures text { result.text ≡ lines.text }
{
    Ended {
        status: if lines.all_lead {
            Status::Ok
        } else {
            Status::BadLinks
        },
        text: lines.text,
    }
}
