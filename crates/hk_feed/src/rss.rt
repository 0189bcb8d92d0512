// RSS 2.0 feeds.
ghost use Rattle.std.specs.Prelude.{◌≡◌, ◌++◌, ◌<◌, OnOk, All, length};
ghost use Rattle.std.specs.List.{flat_map};
ghost use Rattle.std.specs.String.{string_bytes};
ghost use Rattle.hk_rules.specs.Plan.{lookups};
ghost use Rattle.hk_feed.specs.FeedText as spec;

use crate::entries::Entry;
use crate::lines::{
    append, date_text, joined, link_of, write_element, write_feed_title, write_item_title,
};
use hk_base::NoMemory;
use hk_chain::ItemNo;
use hk_rules::Plan;
use hk_rules_file::FeedRule;
use std::alloc::Global;

const DATES: &[u8] = b"%a, %d %b %Y %H:%M:%S";

/// What follows the first line of an RSS feed.
pub(crate) fn write_rss(
    alloc: Global,
    out: &mut String,
    plan: &Plan,
    feed: &FeedRule,
    entries: &[Entry],
) -> Result<(), NoMemory>
    requires { All (λ entry. entry.item < length plan.now.items) entries.now }
    ensures { OnOk result (string_bytes out.new ≡ string_bytes out.old ++ spec.rss_text (lookups plan.now) feed.now entries.now) }
{
    begin_channel(out)?;
    write_head(alloc, out, feed)?;
    write_items(alloc, out, plan, feed, entries)?;
    end_channel(out)?;
    Ok(())
}

fn begin_channel(out: &mut String) -> Result<(), NoMemory>
    ensures { OnOk result (string_bytes out.new ≡ string_bytes out.old ++ spec.rss_start) }
{
    append(out, "<rss version=\"2.0\"><channel>\n")
}

fn end_channel(out: &mut String) -> Result<(), NoMemory>
    ensures { OnOk result (string_bytes out.new ≡ string_bytes out.old ++ spec.rss_end) }
{
    append(out, "</channel></rss>\n")
}

fn write_head(alloc: Global, out: &mut String, feed: &FeedRule) -> Result<(), NoMemory>
    ensures { OnOk result (string_bytes out.new ≡ string_bytes out.old ++ spec.rss_head feed.now) }
{
    write_feed_title(alloc, out, feed)?;
    write_site(alloc, out, feed)?;
    write_description(alloc, out, feed)?;
    Ok(())
}

fn write_site(alloc: Global, out: &mut String, feed: &FeedRule) -> Result<(), NoMemory>
    ensures { OnOk result (string_bytes out.new ≡ string_bytes out.old ++ spec.link_line (spec.slash_after feed.now.root)) }
{
    let site = joined(alloc, feed.root.as_slice(), b"/")?;
    write_link(alloc, out, &site)
}

fn write_description(alloc: Global, out: &mut String, feed: &FeedRule) -> Result<(), NoMemory>
    ensures { OnOk result (string_bytes out.new ≡ string_bytes out.old ++ spec.description_line feed.now.description) }
{
    let text = feed.description.as_slice();
    write_element(alloc, out, "<description>", text, "</description>\n")
}

fn write_link(alloc: Global, out: &mut String, link: &[u8]) -> Result<(), NoMemory>
    ensures { OnOk result (string_bytes out.new ≡ string_bytes out.old ++ spec.link_line link.now) }
{
    write_element(alloc, out, "<link>", link, "</link>\n")
}

fn write_items(
    alloc: Global,
    out: &mut String,
    plan: &Plan,
    feed: &FeedRule,
    entries: &[Entry],
) -> Result<(), NoMemory>
    requires { All (λ entry. entry.item < length plan.now.items) entries.now }
    ensures { OnOk result (string_bytes out.new ≡ string_bytes out.old ++ flat_map (spec.rss_item (lookups plan.now) feed.now.root) entries.now) }
{
    for entry in entries {
        write_item(alloc, out, plan, feed, entry)?;
    }
    Ok(())
}

fn write_item(
    alloc: Global,
    out: &mut String,
    plan: &Plan,
    feed: &FeedRule,
    entry: &Entry,
) -> Result<(), NoMemory>
    requires { entry.now.item < length plan.now.items }
    ensures { OnOk result (string_bytes out.new ≡ string_bytes out.old ++ spec.rss_item (lookups plan.now) feed.now.root entry.now) }
{
    begin_item(out)?;
    write_item_title(alloc, out, plan, entry.item)?;
    write_item_links(alloc, out, plan, feed, entry.item)?;
    write_item_date(alloc, out, plan, entry.item)?;
    write_body(alloc, out, entry)?;
    Ok(())
}

fn begin_item(out: &mut String) -> Result<(), NoMemory>
    ensures { OnOk result (string_bytes out.new ≡ string_bytes out.old ++ spec.item_start) }
{
    append(out, "<item>\n")
}

fn write_item_links(
    alloc: Global,
    out: &mut String,
    plan: &Plan,
    feed: &FeedRule,
    item: ItemNo,
) -> Result<(), NoMemory>
    requires { item < length plan.now.items }
    ensures { OnOk result (string_bytes out.new ≡ string_bytes out.old ++ spec.rss_links (spec.link_of (lookups plan.now) feed.now.root item)) }
{
    let link = link_of(alloc, plan, feed.root.as_slice(), item)?;
    write_links(alloc, out, &link)
}

fn write_links(alloc: Global, out: &mut String, link: &[u8]) -> Result<(), NoMemory>
    ensures { OnOk result (string_bytes out.new ≡ string_bytes out.old ++ spec.rss_links link.now) }
{
    write_link(alloc, out, link)?;
    write_element(alloc, out, "<guid>", link, "</guid>\n")
}

fn write_item_date(
    alloc: Global,
    out: &mut String,
    plan: &Plan,
    item: ItemNo,
) -> Result<(), NoMemory>
    requires { item < length plan.now.items }
    ensures { OnOk result (string_bytes out.new ≡ string_bytes out.old ++ spec.date_line (spec.date_text (lookups plan.now) spec.rss_dates item)) }
{
    let date = date_text(alloc, plan, DATES, item)?;
    write_date(alloc, out, date.as_slice())
}

fn write_date(alloc: Global, out: &mut String, date: &[u8]) -> Result<(), NoMemory>
    ensures { OnOk result (string_bytes out.new ≡ string_bytes out.old ++ spec.date_line date.now) }
{
    write_element(alloc, out, "<pubDate>", date, " GMT</pubDate>\n")
}

fn write_body(alloc: Global, out: &mut String, entry: &Entry) -> Result<(), NoMemory>
    ensures { OnOk result (string_bytes out.new ≡ string_bytes out.old ++ spec.body_lines entry.now) }
{
    let body = entry.page.get().body.as_slice();
    write_element(
        alloc,
        out,
        "<description>",
        body,
        "</description>\n</item>\n",
    )
}
