// What the source comes to under its rules: a plan, or the refusal of one.
ghost use Rattle.std.specs.Prelude.{◌≡◌, ◌≤◌, IfOk, option_map};
ghost use Rattle.hk_build.specs.SitePlan.{site_plan};
ghost use Rattle.hk_app.specs.Gathering.{AreRead, ReadsAs, Gathers};
ghost use Rattle.hk_app.specs.Promise.{fault_line};
ghost use Rattle.hk_app.specs.FolderReading as spec;
ghost use Rattle.hk_app.specs.FolderReading.{files_reading, plan_reading, rules_path, found_at};
ghost use Rattle.hk_app.specs.World.{folder};
ghost use Rattle.hk_texts.specs.Printed as printed;

use crate::Status;
use crate::ended::Ended;
use crate::folder::read_folder;
use hk_base::{NoMemory, Refusal, Text};
use hk_build::{SiteFault, plan_site};
use hk_outside::{Tree, TreeFault};
use hk_rules::{Plan, Rules, RulesFault, is_ignored, read_rules};
use hk_texts::{feed_line, plan_line, rules_line, tag_line};
use std::alloc::Global;

/// A plan, or what the run comes to without one.
#[derive(Drop)]
pub enum Gathered {
    Refused(Ended),
    Planned(Plan),
}

/// Reads the source, its rules and the plan that they make of it.
pub fn gather<S: Tree>(alloc: Global, source: &mut S) -> Result<Gathered, NoMemory>
    ensures gathers { IfOk result (Gathers (folder (S.files source.old) (S.faults source.old)) (folder (S.files source.new) (S.faults source.new))) }
    ensures same { S.files source.new ≡ S.files source.old }
    ensures later { S.faults source.old ≤ S.faults source.new }
{
    match read_folder(alloc, source) {
        Ok(files) => plan_files(alloc, files),
        Err(TreeFault::Failed) => Ok(Gathered::Refused(Ended::new(
            alloc,
            Status::ReadFault,
            b"source cannot be read\n",
        )?)),
        Err(TreeFault::NoMemory) => Err(NoMemory),
    }
}

/// The plan of files, in the order of their paths, by the rules among them.
pub fn plan_files(alloc: Global, files: Vec<(Text, Text)>) -> Result<Gathered, NoMemory>
    ensures reads { IfOk result (ReadsAs (files_reading files.items)) }
{
    match rules_text(files.as_slice()) {
        Some(bytes) => match read_rules(alloc, bytes) {
            Ok(rules) => plan_unignored(alloc, rules, files),
            Err(Refusal::Fault(fault)) => Ok(Gathered::Refused(bad_rules(alloc, &fault)?)),
            Err(Refusal::NoMemory) => Err(NoMemory),
        },
        None => Ok(Gathered::Refused(Ended::new(alloc, Status::BadRules, b"site.toml: absent\n")?)),
    }
}

fn plan_unignored(
    alloc: Global,
    rules: Rules,
    files: Vec<(Text, Text)>,
) -> Result<Gathered, NoMemory>
    requires { AreRead rules }
    ensures reads { IfOk result (ReadsAs (plan_reading (site_plan rules (spec.unignored files.items)))) }
{
    match plan_site(alloc, rules, unignored(files)) {
        Ok(plan) => Ok(Gathered::Planned(plan)),
        Err(Refusal::Fault(fault)) => Ok(Gathered::Refused(bad_site(alloc, &fault)?)),
        Err(Refusal::NoMemory) => Err(NoMemory),
    }
}

/// The files that the rules speak of.
fn unignored(files: Vec<(Text, Text)>) -> Vec<(Text, Text)>
    ensures { result.items ≡ spec.unignored files.items }
{
    let mut files = files;
    files.retain(|file| !is_ignored(file.0.as_slice()));
    files
}

/// The bytes of `site.toml`.
fn rules_text(files: &[(Text, Text)]) -> Option<&[u8]>
    ensures { option_map (λ b. b.now) result ≡ found_at rules_path files.now }
{
    for (path, bytes) in files {
        if path.as_slice() == b"site.toml".as_slice() {
            return Some(bytes.as_slice());
        }
    }
    None
}

fn bad_rules(alloc: Global, fault: &RulesFault) -> Result<Ended, NoMemory>
    ensures { IfOk result (λ e. (e.status ≡ Status.BadRules) × (e.text ≡ printed.rules_line fault.now)) }
{
    let text = rules_line(alloc, fault)?;
    Ok(Ended {
        status: Status::BadRules,
        text,
    })
}

fn bad_site(alloc: Global, fault: &SiteFault) -> Result<Ended, NoMemory>
    ensures { IfOk result (λ e. (e.status ≡ Status.BadSite) × (e.text ≡ fault_line fault.now)) }
{
    let text = match fault {
        SiteFault::Plan(fault) => plan_line(alloc, fault)?,
        SiteFault::Tags(fault) => tag_line(alloc, fault)?,
        SiteFault::Feeds(fault) => feed_line(alloc, fault)?,
    };
    Ok(Ended {
        status: Status::BadSite,
        text,
    })
}
