// The plan that rules make of the files of a folder.
ghost use Rattle.std.specs.Prelude.{◌≡◌, ◌≤◌, length};
ghost use Rattle.std.specs.List.{find};
ghost use Rattle.std.specs.List.Sorted.{IsStrictlySortedBy};
ghost use Rattle.std.specs.Map.{keys_of};
ghost use Rattle.std.specs.Option.{option_copied};
ghost use Rattle.hk_base.specs.Answers.{Answers};
ghost use Rattle.hk_base.specs.Identifier.{ident_cmp};
ghost use Rattle.hk_rules_file.specs.Linked.{IsLinked};
ghost use Rattle.hk_rules.specs.LinkedPlan.{AreLinkedItems};
ghost use Rattle.hk_rules.specs.Outcomes.{Passes};
ghost use Rattle.hk_rules.specs.Planning as spec;

use crate::clashes::check_targets;
use crate::headers::headers_of;
use crate::owner::Owner;
use crate::plan::Plan;
use crate::plan_fault::PlanFault;
use crate::sources::sources_of;
use crate::targets::targets_of;
use crate::universe::{MOST_ITEMS, universe};
use hk_base::{Identifier, Refusal, Text, is_path};
use hk_chain::Context;
use hk_meta::Split;
use hk_pattern::Pattern;
use hk_rules_file::{FeedRule, Rules};
use std::alloc::Global;

/// What rules and contexts name by number, and the feeds of their pages.
#[derive(Drop)]
struct Named {
    contexts: Vec<Context>,
    patterns: Vec<Pattern>,
    feeds: Vec<FeedRule>,
}

/// The plan that rules make of the files of a folder, which are to be in path order and none of them ignored.
///
/// A file whose path ends in `.metadata` goes with another one; every other file is a resource. A `match` rule claims
/// each resource whose path its pattern matches, tested without a version, and a `create` rule its paths, each in the
/// rule's version; the first rule that claims an identifier owns it. A claim whose path and version are no identifier
/// counts for nothing.
///
/// The faults are tested in this order: `BadName` with the first file whose path is no identifier's; `TooManyItems` for
/// more than 65,535 items; `BadHeader` with the first item whose header, or else companion, is refused; `BadTarget` with
/// the first item whose route gives a bad path; `SameTarget` with the least target of two items, and the two least;
/// `NestedTarget` with the least target that lies above another, and the least below it.
///
/// The rules have to be linked, as those that `read_rules` gives: the numbers in them in range, their names and texts
/// different and of their form. So is the plan then, as `Plan::linked` tells: in each item's chain and in the contexts.
///
/// Each pattern of a rule is tested once on each path; then `n log n`, and for each pattern that a list or a step names
/// one pass over the items, which is never made again.
pub fn make_plan(
    alloc: Global,
    rules: Rules,
    files: Vec<(Text, Text)>,
) -> Result<Plan, Refusal<PlanFault>>
    requires { IsLinked rules }
    ensures { Answers (spec.plan_of rules files.items) result }
{
    check_names(alloc, &files)?;
    let sources = sources_of(alloc, files)?;
    let Rules {
        rules,
        contexts,
        patterns,
        feeds,
        ..
    } = rules;
    let items = universe(alloc, rules, &sources)?;
    let named = Named {
        contexts,
        patterns,
        feeds,
    };
    plan_items(alloc, named, items)
}

fn plan_items(
    alloc: Global,
    named: Named,
    items: Vec<(Identifier, Owner)>,
) -> Result<Plan, Refusal<PlanFault>>
    requires sorted { IsStrictlySortedBy ident_cmp (keys_of items.items) }
    requires linked { length items.items ≤ 65535 → AreLinkedItems named.contexts.items named.patterns.items items.items }
    ensures { Answers (spec.plan_items named.contexts.items named.patterns.items named.feeds.items items.items) result }
{
    check_count(&items)?;
    let headers = headers_of(alloc, &items)?;
    plan_headed(alloc, named, items, headers)
}

fn plan_headed(
    alloc: Global,
    named: Named,
    items: Vec<(Identifier, Owner)>,
    headers: Vec<Split>,
) -> Result<Plan, Refusal<PlanFault>>
    requires sorted { IsStrictlySortedBy ident_cmp (keys_of items.items) }
    requires few { length items.items ≤ 65535 }
    requires headed { length headers.items ≡ length items.items }
    requires linked { AreLinkedItems named.contexts.items named.patterns.items items.items }
    ensures { Answers (spec.plan_headed named.contexts.items named.patterns.items named.feeds.items items.items headers.items) result }
{
    let targets = targets_of(alloc, &items)?;
    plan_routed(alloc, named, items, headers, targets)
}

fn plan_routed(
    alloc: Global,
    named: Named,
    items: Vec<(Identifier, Owner)>,
    headers: Vec<Split>,
    targets: Vec<Option<Text>>,
) -> Result<Plan, Refusal<PlanFault>>
    requires sorted { IsStrictlySortedBy ident_cmp (keys_of items.items) }
    requires few { length items.items ≤ 65535 }
    requires headed { length headers.items ≡ length items.items }
    requires routed { length targets.items ≡ length items.items }
    requires linked { AreLinkedItems named.contexts.items named.patterns.items items.items }
    ensures { Answers (spec.plan_routed named.contexts.items named.patterns.items named.feeds.items items.items headers.items targets.items) result }
{
    check_targets(alloc, &items, &targets)?;
    let Named {
        contexts,
        patterns,
        feeds,
    } = named;
    let plan = Plan::of_parts(alloc, items, headers, targets, contexts, patterns, feeds)?;
    Ok(plan)
}

fn check_names(alloc: Global, files: &[(Text, Text)]) -> Result<(), Refusal<PlanFault>>
    ensures { Passes (spec.name_fault files.now) result }
{
    match first_bad_name(files) {
        None => Ok(()),
        Some(file) => Err(Refusal::Fault(PlanFault::BadName {
            path: Text::from_slice(alloc, file.0.as_slice())?,
        })),
    }
}

fn first_bad_name(files: &[(Text, Text)]) -> Option<&(Text, Text)>
    ensures { option_copied result ≡ find spec.is_bad_name files.now }
{
    files.iter().find(|file| is_bad_name(file))
}

fn is_bad_name(file: &(Text, Text)) -> bool
    ensures { result ≡ spec.is_bad_name file.now }
{
    !is_path(file.0.as_slice())
}

fn check_count(items: &[(Identifier, Owner)]) -> Result<(), Refusal<PlanFault>>
    ensures { Passes (spec.count_fault items.now) result }
{
    if items.len() > MOST_ITEMS {
        Err(Refusal::Fault(PlanFault::TooManyItems))
    } else {
        Ok(())
    }
}
