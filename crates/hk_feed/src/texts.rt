// The text of a feed.
ghost use Rattle.std.specs.Prelude.{◌≡◌, ◌++◌, ◌<◌, IfOk, OnOk, All, length};
ghost use Rattle.std.specs.String.{string_bytes};
ghost use Rattle.hk_chain.specs.Kept.{at_place};
ghost use Rattle.hk_rules.specs.Plan.{lookups};
ghost use Rattle.hk_feed.specs.FeedText as spec;

use crate::atom::write_atom;
use crate::entries::{Entry, entries};
use crate::lines::append;
use crate::rss::write_rss;
use hk_base::{NoMemory, Text};
use hk_fix::Results;
use hk_rules::Plan;
use hk_rules_file::{FeedKind, FeedRule};
use std::alloc::Global;

/// The text of a feed, of the pages that a run gave. Its entries are of the first members in recent order, as many as the
/// limit says; of those, one whose page under the snapshot name isn't text, or isn't known, is left out, and so is a member
/// without a date. Where `check_feeds` accepts the feed and every item is done, each member has its date and its page.
///
/// An entry has the item's title, the root and the URL of its target as link, its date, and the body of its page. All
/// values are written as text of XML. `NoMemory` only for want of memory. Linear in the bytes of the feed, after one test of
/// each item and a sort of the members.
#[tactic(auto, unfolding(crate::specs::FeedText::feed_text))]
pub fn feed_text(
    alloc: Global,
    plan: &Plan,
    results: &Results,
    feed: &FeedRule,
) -> Result<Text, NoMemory>
    ensures { IfOk result (λ text. text ≡ spec.feed_text (lookups plan.now) (at_place results.now.pages) feed.now) }
{
    let entries = entries(alloc, plan, &results.pages, feed)?;
    let mut out = String::new(alloc);
    write_feed(alloc, &mut out, plan, feed, &entries)?;
    Ok(Text::from_vec(out.into_bytes()))
}

fn write_feed(
    alloc: Global,
    out: &mut String,
    plan: &Plan,
    feed: &FeedRule,
    entries: &[Entry],
) -> Result<(), NoMemory>
    requires { All (λ entry. entry.item < length plan.now.items) entries.now }
    ensures { OnOk result (string_bytes out.new ≡ string_bytes out.old ++ spec.text_of (lookups plan.now) feed.now entries.now) }
{
    begin_document(out)?;
    write_kind(alloc, out, plan, feed, entries)?;
    Ok(())
}

fn begin_document(out: &mut String) -> Result<(), NoMemory>
    ensures { OnOk result (string_bytes out.new ≡ string_bytes out.old ++ spec.first_line) }
{
    append(out, "<?xml version=\"1.0\" encoding=\"utf-8\"?>\n")
}

fn write_kind(
    alloc: Global,
    out: &mut String,
    plan: &Plan,
    feed: &FeedRule,
    entries: &[Entry],
) -> Result<(), NoMemory>
    requires { All (λ entry. entry.item < length plan.now.items) entries.now }
    ensures { OnOk result (string_bytes out.new ≡ string_bytes out.old ++ spec.text_of_kind (lookups plan.now) feed.now entries.now feed.now.kind) }
{
    match feed.kind {
        FeedKind::Atom => write_atom(alloc, out, plan, feed, entries),
        FeedKind::Rss => write_rss(alloc, out, plan, feed, entries),
    }
}
