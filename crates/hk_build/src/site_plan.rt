// The plan of a site: that of its rules with a rule for each page of their tables.
ghost use Rattle.std.specs.Prelude.{◌≡◌, IfOk};
ghost use Rattle.hk_base.specs.Answers.{Answers};
ghost use Rattle.hk_rules_file.specs.Linked.{HasLinkedTables, IsLinked};
ghost use Rattle.hk_build.specs.Planned.{IsPlanned};
ghost use Rattle.hk_build.specs.SitePlan as spec;

use crate::site_fault::SiteFault;
use hk_base::{NoMemory, Refusal, Text};
use hk_feed::check_feeds;
use hk_rules::{Plan, Rules, make_plan};
use hk_tags::{expand, without_tables};
use std::alloc::Global;

/// The plan of a site, of rules that were read and of the files that they speak of, in path order.
///
/// Where the rules have tables for tags or numbered pages, the plan that they make without these gives the members of the
/// tables; then it is the plan of the rules with a rule for each page. The files are copied once for it. Without such tables
/// one plan is made, and nothing is copied.
///
/// The faults come in this order: that of the first plan, that of the tables' pages, that of the second plan, and that of the
/// feeds. The cost is that of the plans, of the tables' pages, and of one test of each item for each feed.
#[tactic(auto, unfolding(crate::specs::SitePlan::site_plan))]
pub fn plan_site(
    alloc: Global,
    rules: Rules,
    files: Vec<(Text, Text)>,
) -> Result<Plan, Refusal<SiteFault>>
    requires linked { IsLinked rules }
    requires tables { HasLinkedTables rules }
    ensures value { Answers (spec.site_plan rules files.items) result }
    ensures planned { IfOk result (λ plan. IsPlanned plan) }
{
    match expanded_plan(alloc, rules, files) {
        Ok(plan) => fed(alloc, plan),
        Err(refusal) => Err(refusal),
    }
}

/// The plan of rules as they stand.
fn plan_of_rules(
    alloc: Global,
    rules: Rules,
    files: Vec<(Text, Text)>,
) -> Result<Plan, Refusal<SiteFault>>
    requires { IsLinked rules }
    ensures value { Answers (spec.rules_plan rules files.items) result }
    ensures planned { IfOk result (λ plan. IsPlanned plan) }
{
    match make_plan(alloc, rules, files) {
        Ok(plan) => Ok(plan),
        Err(Refusal::Fault(fault)) => Err(Refusal::Fault(SiteFault::Plan(fault))),
        Err(Refusal::NoMemory) => Err(Refusal::NoMemory),
    }
}

/// The plan of rules with their tables, or as they stand where they have none.
fn expanded_plan(
    alloc: Global,
    rules: Rules,
    files: Vec<(Text, Text)>,
) -> Result<Plan, Refusal<SiteFault>>
    requires linked { IsLinked rules }
    requires tables { HasLinkedTables rules }
    ensures value { Answers (spec.expanded_plan rules files.items) result }
    ensures planned { IfOk result (λ plan. IsPlanned plan) }
{
    if has_tables(&rules) {
        tables_plan(alloc, &rules, files)
    } else {
        plan_of_rules(alloc, rules, files)
    }
}

fn has_tables(rules: &Rules) -> bool
    ensures { result ≡ spec.has_tables rules.now }
{
    !rules.tags.is_empty() || !rules.pages.is_empty()
}

/// The plan of rules with one for each page of their tables.
fn tables_plan(
    alloc: Global,
    rules: &Rules,
    files: Vec<(Text, Text)>,
) -> Result<Plan, Refusal<SiteFault>>
    requires linked { IsLinked rules.now }
    requires tables { HasLinkedTables rules.now }
    ensures value { Answers (spec.tables_plan rules.now files.items) result }
    ensures planned { IfOk result (λ plan. IsPlanned plan) }
{
    match base_plan(alloc, rules, &files) {
        Ok(base) => plan_over(alloc, rules, &base, files),
        Err(refusal) => Err(refusal),
    }
}

/// The plan of rules without their tables, on copies.
fn base_plan(
    alloc: Global,
    rules: &Rules,
    files: &[(Text, Text)],
) -> Result<Plan, Refusal<SiteFault>>
    requires { IsLinked rules.now }
    ensures { Answers (spec.rules_plan rules.now files.now) result }
{
    let untabled = without_tables(alloc, rules)?;
    let copies = copied(alloc, files)?;
    plan_of_rules(alloc, untabled, copies)
}

/// The plan of rules with one for each page of their tables, by their plan without these.
fn plan_over(
    alloc: Global,
    rules: &Rules,
    base: &Plan,
    files: Vec<(Text, Text)>,
) -> Result<Plan, Refusal<SiteFault>>
    requires linked { IsLinked rules.now }
    requires tables { HasLinkedTables rules.now }
    ensures value { Answers (spec.plan_over rules.now files.items base.now) result }
    ensures planned { IfOk result (λ plan. IsPlanned plan) }
{
    match expanded_rules(alloc, rules, base) {
        Ok(all) => plan_of_rules(alloc, all, files),
        Err(refusal) => Err(refusal),
    }
}

fn expanded_rules(alloc: Global, rules: &Rules, base: &Plan) -> Result<Rules, Refusal<SiteFault>>
    requires linked { IsLinked rules.now }
    requires tables { HasLinkedTables rules.now }
    ensures value { Answers (spec.expanded rules.now base.now) result }
    ensures linked { IfOk result (λ r. IsLinked r) }
{
    match expand(alloc, rules, base) {
        Ok(rules) => Ok(rules),
        Err(Refusal::Fault(fault)) => Err(Refusal::Fault(SiteFault::Tags(fault))),
        Err(Refusal::NoMemory) => Err(Refusal::NoMemory),
    }
}

/// A plan, where its feeds can be made.
fn fed(alloc: Global, plan: Plan) -> Result<Plan, Refusal<SiteFault>>
    ensures value { Answers (spec.fed plan) result }
    ensures same { IfOk result (λ p. p ≡ plan) }
{
    match check_feeds(alloc, &plan, plan.feeds()) {
        Ok(()) => Ok(plan),
        Err(Refusal::Fault(fault)) => Err(Refusal::Fault(SiteFault::Feeds(fault))),
        Err(Refusal::NoMemory) => Err(Refusal::NoMemory),
    }
}

/// The same files again.
fn copied(alloc: Global, files: &[(Text, Text)]) -> Result<Vec<(Text, Text)>, NoMemory>
    ensures { IfOk result (λ v. v.items ≡ files.now) }
{
    let mut copies = Vec::with_capacity(alloc, files.len())?;
    for file in files {
        copies.push(copied_file(alloc, file)?)?;
    }
    Ok(copies)
}

fn copied_file(alloc: Global, file: &(Text, Text)) -> Result<(Text, Text), NoMemory>
    ensures { IfOk result (λ f. f ≡ file.now) }
{
    let path = Text::from_slice(alloc, file.0.as_slice())?;
    Ok((path, Text::from_slice(alloc, file.1.as_slice())?))
}
