// Lines of feeds.
ghost use Rattle.std.specs.Prelude.{◌≡◌, ◌++◌, ◌<◌, true, IfOk, OnOk, length};
ghost use Rattle.std.specs.String.{string_bytes};
ghost use Rattle.hk_meta.specs.DatePattern.{pattern_ok};
ghost use Rattle.hk_rules.specs.Plan.{lookups};
ghost use Rattle.hk_feed.specs.FeedText as spec;
ghost use Rattle.hk_feed.specs.Titles as titles;

use crate::members::date_at;
use crate::title::title_at;
use crate::xml::append_xml;
use hk_base::{NoMemory, Text};
use hk_chain::ItemNo;
use hk_html::url_of;
use hk_meta::format_date;
use hk_rules::Plan;
use hk_rules_file::FeedRule;
use std::alloc::Global;

pub(crate) fn append(out: &mut String, text: &str) -> Result<(), NoMemory>
    ensures { OnOk result (string_bytes out.new ≡ string_bytes out.old ++ text.now) }
{
    out.push_str(text)?;
    Ok(())
}

/// A value between two marks.
pub(crate) fn write_element(
    alloc: Global,
    out: &mut String,
    front: &str,
    value: &[u8],
    back: &str,
) -> Result<(), NoMemory>
    ensures { OnOk result (string_bytes out.new ≡ string_bytes out.old ++ spec.element front.now value.now back.now) }
{
    append(out, front)?;
    append_xml(alloc, out, value)?;
    append(out, back)
}

/// The root and the URL of a target.
pub(crate) fn link_to(alloc: Global, root: &[u8], target: &[u8]) -> Result<Vec<u8>, NoMemory>
    ensures { IfOk result (λ link. link.items ≡ spec.link_to root.now target.now) }
{
    let url = url_of(alloc, target)?;
    joined(alloc, root, url.as_slice())
}

/// The root and the URL of an item's target.
pub(crate) fn link_of(
    alloc: Global,
    plan: &Plan,
    root: &[u8],
    item: ItemNo,
) -> Result<Vec<u8>, NoMemory>
    requires { item < length plan.now.items }
    ensures { IfOk result (λ link. link.items ≡ spec.link_of (lookups plan.now) root.now item) }
{
    link_to(alloc, root, plan.target_of(item).unwrap_or(&[]))
}

pub(crate) fn joined(alloc: Global, front: &[u8], back: &[u8]) -> Result<Vec<u8>, NoMemory>
    ensures { IfOk result (λ v. v.items ≡ front.now ++ back.now) }
{
    let mut bytes = Vec::from_slice(alloc, front)?;
    bytes.extend_from_slice(back)?;
    Ok(bytes)
}

/// The date of an item, printed by a pattern.
pub(crate) fn date_text(
    alloc: Global,
    plan: &Plan,
    pattern: &[u8],
    item: ItemNo,
) -> Result<Text, NoMemory>
    requires item { item < length plan.now.items }
    requires pattern { pattern_ok pattern.now ≡ true }
    ensures { IfOk result (λ text. text ≡ spec.date_text (lookups plan.now) pattern.now item) }
{
    match date_at(plan, item) {
        Some(date) => format_date(alloc, &date, pattern),
        None => Text::from_slice(alloc, b""),
    }
}

fn write_title(alloc: Global, out: &mut String, title: &[u8]) -> Result<(), NoMemory>
    ensures { OnOk result (string_bytes out.new ≡ string_bytes out.old ++ spec.title_line title.now) }
{
    write_element(alloc, out, "<title>", title, "</title>\n")
}

/// The line of a feed's own title.
pub(crate) fn write_feed_title(
    alloc: Global,
    out: &mut String,
    feed: &FeedRule,
) -> Result<(), NoMemory>
    ensures { OnOk result (string_bytes out.new ≡ string_bytes out.old ++ spec.title_line feed.now.title) }
{
    write_title(alloc, out, feed.title.as_slice())
}

/// The line of an item's title.
pub(crate) fn write_item_title(
    alloc: Global,
    out: &mut String,
    plan: &Plan,
    item: ItemNo,
) -> Result<(), NoMemory>
    requires { item < length plan.now.items }
    ensures { OnOk result (string_bytes out.new ≡ string_bytes out.old ++ spec.title_line (titles.title_at (lookups plan.now) item)) }
{
    write_title(alloc, out, title_at(plan, item))
}
