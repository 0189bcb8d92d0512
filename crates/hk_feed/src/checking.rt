// Whether feeds can be made.
ghost use Rattle.std.specs.Prelude.{◌≡◌, ◌<◌, IfOk, All, length};
ghost use Rattle.std.specs.List.{find};
ghost use Rattle.hk_rules.specs.Outcomes.{Passes};
ghost use Rattle.hk_rules.specs.Plan.{lookups};
ghost use Rattle.hk_feed.specs.FeedFaults as spec;
ghost use Rattle.hk_feed.specs.Members.{members as members_of};

use crate::clashes::is_taken;
use crate::feed_fault::FeedFault;
use crate::members::{date_at, members};
use hk_base::{NoMemory, Refusal, Text, is_path};
use hk_chain::ItemNo;
use hk_rules::Plan;
use hk_rules_file::FeedRule;
use std::alloc::Global;

/// Whether the feeds can be made of what a plan builds. The feeds are tested in order, each for these faults in turn:
/// `BadTarget`, exactly where its target is no identifier's path; `Taken`, exactly where an item or an earlier feed has
/// its target or one that lies above or below it; `NoSnapshot`, exactly where a member saves no page under its snapshot
/// name, with the first such member; `NoDate`, exactly where a member has no date, with the first such member. Members are
/// the items that the feed's pattern matches and that have a target, in identifier order.
///
/// For each feed one test of each item's identifier and target, and one of each member.
pub fn check_feeds(alloc: Global, plan: &Plan, feeds: &[FeedRule]) -> Result<(), Refusal<FeedFault>>
    ensures { Passes (spec.feeds_fault (lookups plan.now) feeds.now) result }
{
    for (place, feed) in feeds.iter().enumerate() {
        check_feed(alloc, plan, &feeds[..place], feed)?;
    }
    Ok(())
}

fn check_feed(
    alloc: Global,
    plan: &Plan,
    earlier: &[FeedRule],
    feed: &FeedRule,
) -> Result<(), Refusal<FeedFault>>
    ensures { Passes (spec.feed_fault (lookups plan.now) earlier.now feed.now) result }
{
    check_target(alloc, plan, earlier, feed)?;
    let members = members(alloc, plan, feed)?;
    check_members(alloc, plan, feed.snapshot.as_slice(), &members)
}

fn check_target(
    alloc: Global,
    plan: &Plan,
    earlier: &[FeedRule],
    feed: &FeedRule,
) -> Result<(), Refusal<FeedFault>>
    ensures { Passes (spec.target_fault (lookups plan.now) earlier.now feed.now) result }
{
    let target = feed.target.as_slice();
    if !is_path(target) {
        let target = Text::from_slice(alloc, target)?;
        return Err(Refusal::Fault(FeedFault::BadTarget { target }));
    }
    if is_taken(plan, earlier, target) {
        let target = Text::from_slice(alloc, target)?;
        return Err(Refusal::Fault(FeedFault::Taken { target }));
    }
    Ok(())
}

fn check_members(
    alloc: Global,
    plan: &Plan,
    name: &[u8],
    members: &[ItemNo],
) -> Result<(), Refusal<FeedFault>>
    requires { All (λ item. item < length plan.now.items) members.now }
    ensures { Passes (spec.members_fault (lookups plan.now) name.now members.now) result }
{
    check_snapshots(alloc, plan, name, members)?;
    check_dates(alloc, plan, members)
}

fn check_snapshots(
    alloc: Global,
    plan: &Plan,
    name: &[u8],
    members: &[ItemNo],
) -> Result<(), Refusal<FeedFault>>
    requires { All (λ item. item < length plan.now.items) members.now }
    ensures { Passes (spec.snapshot_fault (lookups plan.now) name.now members.now) result }
{
    for item in members {
        if lacks_snapshot(plan, name, *item) {
            return Err(Refusal::Fault(no_snapshot(alloc, plan, name, *item)?));
        }
    }
    Ok(())
}

fn lacks_snapshot(plan: &Plan, name: &[u8], item: ItemNo) -> bool
    requires { item < length plan.now.items }
    ensures { result ≡ spec.lacks_snapshot (lookups plan.now) name.now item }
{
    plan.pair(item, name).is_none()
}

fn no_snapshot(alloc: Global, plan: &Plan, name: &[u8], item: ItemNo) -> Result<FeedFault, NoMemory>
    requires { item < length plan.now.items }
    ensures { IfOk result (λ f. f ≡ spec.no_snapshot (lookups plan.now) name.now item) }
{
    Ok(FeedFault::NoSnapshot {
        id: plan.id(item).copy(alloc)?,
        name: Text::from_slice(alloc, name)?,
    })
}

fn check_dates(alloc: Global, plan: &Plan, members: &[ItemNo]) -> Result<(), Refusal<FeedFault>>
    requires { All (λ item. item < length plan.now.items) members.now }
    ensures { Passes (spec.date_fault (lookups plan.now) members.now) result }
{
    for item in members {
        if lacks_date(plan, *item) {
            return Err(Refusal::Fault(no_date(alloc, plan, *item)?));
        }
    }
    Ok(())
}

fn lacks_date(plan: &Plan, item: ItemNo) -> bool
    requires { item < length plan.now.items }
    ensures { result ≡ spec.lacks_date (lookups plan.now) item }
{
    date_at(plan, item).is_none()
}

fn no_date(alloc: Global, plan: &Plan, item: ItemNo) -> Result<FeedFault, NoMemory>
    requires { item < length plan.now.items }
    ensures { IfOk result (λ f. f ≡ spec.no_date (lookups plan.now) item) }
{
    Ok(FeedFault::NoDate {
        id: plan.id(item).copy(alloc)?,
    })
}
