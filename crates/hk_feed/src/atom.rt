// Atom feeds.
ghost use Rattle.std.specs.Prelude.{◌≡◌, ◌++◌, ◌<◌, IfOk, OnOk, All, length};
ghost use Rattle.std.specs.List.{flat_map};
ghost use Rattle.std.specs.String.{string_bytes};
ghost use Rattle.hk_rules.specs.Plan.{lookups};
ghost use Rattle.hk_feed.specs.FeedText as spec;

use crate::entries::Entry;
use crate::lines::{
    append, date_text, joined, link_of, link_to, write_element, write_feed_title, write_item_title,
};
use hk_base::{NoMemory, Text};
use hk_chain::ItemNo;
use hk_rules::Plan;
use hk_rules_file::FeedRule;
use std::alloc::Global;

const DATES: &[u8] = b"%Y-%m-%dT%H:%M:%SZ";

/// What follows the first line of an Atom feed.
pub(crate) fn write_atom(
    alloc: Global,
    out: &mut String,
    plan: &Plan,
    feed: &FeedRule,
    entries: &[Entry],
) -> Result<(), NoMemory>
    requires { All (λ entry. entry.item < length plan.now.items) entries.now }
    ensures { OnOk result (string_bytes out.new ≡ string_bytes out.old ++ spec.atom_text (lookups plan.now) feed.now entries.now) }
{
    begin_feed(out)?;
    write_head(alloc, out, feed)?;
    write_feed_date(alloc, out, plan, entries)?;
    write_entries(alloc, out, plan, feed, entries)?;
    end_feed(out)?;
    Ok(())
}

fn begin_feed(out: &mut String) -> Result<(), NoMemory>
    ensures { OnOk result (string_bytes out.new ≡ string_bytes out.old ++ spec.atom_start) }
{
    append(out, "<feed xmlns=\"http://www.w3.org/2005/Atom\">\n")
}

fn end_feed(out: &mut String) -> Result<(), NoMemory>
    ensures { OnOk result (string_bytes out.new ≡ string_bytes out.old ++ spec.atom_end) }
{
    append(out, "</feed>\n")
}

fn write_head(alloc: Global, out: &mut String, feed: &FeedRule) -> Result<(), NoMemory>
    ensures { OnOk result (string_bytes out.new ≡ string_bytes out.old ++ spec.atom_head feed.now) }
{
    write_feed_title(alloc, out, feed)?;
    write_subtitle(alloc, out, feed)?;
    write_addresses(alloc, out, feed)?;
    write_author(alloc, out, feed)?;
    Ok(())
}

fn write_subtitle(alloc: Global, out: &mut String, feed: &FeedRule) -> Result<(), NoMemory>
    ensures { OnOk result (string_bytes out.new ≡ string_bytes out.old ++ spec.subtitle_line feed.now.description) }
{
    let text = feed.description.as_slice();
    write_element(alloc, out, "<subtitle>", text, "</subtitle>\n")
}

fn write_addresses(alloc: Global, out: &mut String, feed: &FeedRule) -> Result<(), NoMemory>
    ensures { OnOk result (string_bytes out.new ≡ string_bytes out.old ++ spec.self_lines feed.now.root (spec.link_to feed.now.root feed.now.target)) }
{
    let root = feed.root.as_slice();
    let itself = link_to(alloc, root, feed.target.as_slice())?;
    write_self(alloc, out, root, &itself)
}

/// The feed's own address, that of the site, and the feed's id.
fn write_self(alloc: Global, out: &mut String, root: &[u8], itself: &[u8]) -> Result<(), NoMemory>
    ensures { OnOk result (string_bytes out.new ≡ string_bytes out.old ++ spec.self_lines root.now itself.now) }
{
    write_element(alloc, out, "<link href=\"", itself, "\" rel=\"self\"/>\n")?;
    write_site(alloc, out, root)?;
    write_id(alloc, out, itself)?;
    Ok(())
}

fn write_site(alloc: Global, out: &mut String, root: &[u8]) -> Result<(), NoMemory>
    ensures { OnOk result (string_bytes out.new ≡ string_bytes out.old ++ spec.href_line (spec.slash_after root.now)) }
{
    let site = joined(alloc, root, b"/")?;
    write_link(alloc, out, &site)
}

fn write_link(alloc: Global, out: &mut String, link: &[u8]) -> Result<(), NoMemory>
    ensures { OnOk result (string_bytes out.new ≡ string_bytes out.old ++ spec.href_line link.now) }
{
    write_element(alloc, out, "<link href=\"", link, "\"/>\n")
}

fn write_author(alloc: Global, out: &mut String, feed: &FeedRule) -> Result<(), NoMemory>
    ensures { OnOk result (string_bytes out.new ≡ string_bytes out.old ++ spec.author_line feed.now) }
{
    let author = feed.author.as_slice();
    write_element(alloc, out, "<author><name>", author, "</name>")?;
    write_email(alloc, out, &feed.email)?;
    append(out, "</author>\n")
}

fn write_email(alloc: Global, out: &mut String, email: &Option<Text>) -> Result<(), NoMemory>
    ensures { OnOk result (string_bytes out.new ≡ string_bytes out.old ++ spec.email_text email.now) }
{
    match email {
        Some(email) => write_element(alloc, out, "<email>", email.as_slice(), "</email>"),
        None => Ok(()),
    }
}

fn write_feed_date(
    alloc: Global,
    out: &mut String,
    plan: &Plan,
    entries: &[Entry],
) -> Result<(), NoMemory>
    requires { All (λ entry. entry.item < length plan.now.items) entries.now }
    ensures { OnOk result (string_bytes out.new ≡ string_bytes out.old ++ spec.updated_line (spec.updated (lookups plan.now) entries.now)) }
{
    let date = updated(alloc, plan, entries)?;
    write_updated(alloc, out, date.as_slice())
}

/// The date of the first entry, or that at which time began.
fn updated(alloc: Global, plan: &Plan, entries: &[Entry]) -> Result<Text, NoMemory>
    requires { All (λ entry. entry.item < length plan.now.items) entries.now }
    ensures { IfOk result (λ text. text ≡ spec.updated (lookups plan.now) entries.now) }
{
    match entries.first() {
        Some(first) => date_text(alloc, plan, DATES, first.item),
        None => Text::from_slice(alloc, b"1970-01-01T00:00:00Z"),
    }
}

fn write_updated(alloc: Global, out: &mut String, date: &[u8]) -> Result<(), NoMemory>
    ensures { OnOk result (string_bytes out.new ≡ string_bytes out.old ++ spec.updated_line date.now) }
{
    write_element(alloc, out, "<updated>", date, "</updated>\n")
}

fn write_id(alloc: Global, out: &mut String, link: &[u8]) -> Result<(), NoMemory>
    ensures { OnOk result (string_bytes out.new ≡ string_bytes out.old ++ spec.id_line link.now) }
{
    write_element(alloc, out, "<id>", link, "</id>\n")
}

fn write_entries(
    alloc: Global,
    out: &mut String,
    plan: &Plan,
    feed: &FeedRule,
    entries: &[Entry],
) -> Result<(), NoMemory>
    requires { All (λ entry. entry.item < length plan.now.items) entries.now }
    ensures { OnOk result (string_bytes out.new ≡ string_bytes out.old ++ flat_map (spec.atom_entry (lookups plan.now) feed.now.root) entries.now) }
{
    for entry in entries {
        write_entry(alloc, out, plan, feed, entry)?;
    }
    Ok(())
}

fn write_entry(
    alloc: Global,
    out: &mut String,
    plan: &Plan,
    feed: &FeedRule,
    entry: &Entry,
) -> Result<(), NoMemory>
    requires { entry.now.item < length plan.now.items }
    ensures { OnOk result (string_bytes out.new ≡ string_bytes out.old ++ spec.atom_entry (lookups plan.now) feed.now.root entry.now) }
{
    begin_entry(out)?;
    write_item_title(alloc, out, plan, entry.item)?;
    write_item_links(alloc, out, plan, feed, entry.item)?;
    write_item_date(alloc, out, plan, entry.item)?;
    write_content(alloc, out, entry)?;
    Ok(())
}

fn begin_entry(out: &mut String) -> Result<(), NoMemory>
    ensures { OnOk result (string_bytes out.new ≡ string_bytes out.old ++ spec.entry_start) }
{
    append(out, "<entry>\n")
}

fn write_item_links(
    alloc: Global,
    out: &mut String,
    plan: &Plan,
    feed: &FeedRule,
    item: ItemNo,
) -> Result<(), NoMemory>
    requires { item < length plan.now.items }
    ensures { OnOk result (string_bytes out.new ≡ string_bytes out.old ++ spec.atom_links (spec.link_of (lookups plan.now) feed.now.root item)) }
{
    let link = link_of(alloc, plan, feed.root.as_slice(), item)?;
    write_links(alloc, out, &link)
}

fn write_links(alloc: Global, out: &mut String, link: &[u8]) -> Result<(), NoMemory>
    ensures { OnOk result (string_bytes out.new ≡ string_bytes out.old ++ spec.atom_links link.now) }
{
    write_link(alloc, out, link)?;
    write_id(alloc, out, link)?;
    Ok(())
}

fn write_item_date(
    alloc: Global,
    out: &mut String,
    plan: &Plan,
    item: ItemNo,
) -> Result<(), NoMemory>
    requires { item < length plan.now.items }
    ensures { OnOk result (string_bytes out.new ≡ string_bytes out.old ++ spec.updated_line (spec.date_text (lookups plan.now) spec.atom_dates item)) }
{
    let date = date_text(alloc, plan, DATES, item)?;
    write_updated(alloc, out, date.as_slice())
}

fn write_content(alloc: Global, out: &mut String, entry: &Entry) -> Result<(), NoMemory>
    ensures { OnOk result (string_bytes out.new ≡ string_bytes out.old ++ spec.content_lines entry.now) }
{
    let body = entry.page.get().body.as_slice();
    write_element(
        alloc,
        out,
        "<content type=\"html\">",
        body,
        "</content>\n</entry>\n",
    )
}
