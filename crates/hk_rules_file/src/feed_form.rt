// The form of a table for a feed.
ghost use Rattle.std.specs.Prelude.{◌≡◌, ◌≤◌, [], IfOk, Some, option_map};
ghost use Rattle.toml.specs.View.{view, table_view, items_view};
ghost use Rattle.hk_base.specs.Answers.{Answers};
ghost use Rattle.hk_rules_file.specs.FeedForm as spec;
ghost use Rattle.hk_rules_file.specs.RuleForm.{optional};
ghost use Rattle.toml.specs.Data.{as_str};

use crate::fault::RulesFault;
use crate::table_form::{
    TableKind, early_fault, no_table, pattern_at, required, table_fault, text_at,
};
use crate::tables::{FeedKind, FeedRule};
use hk_base::{NoMemory, Refusal, Text};
use hk_forms::{table_in, text_in, value_at};
use hk_steps::{Drafts, copy_by, count_of, snapshot_or_final};
use std::alloc::Global;
use toml::{Table, Value};

/// How many items a feed has at most, where its table doesn't say it.
const USUAL_LIMIT: u32 = 10;

/// The feeds that the values are, numbered from 1, or the first fault.
pub(crate) fn feeds_from(
    alloc: Global,
    items: &[Value],
) -> Result<Drafts<FeedRule>, Refusal<RulesFault>>
    ensures { Answers (spec.feeds_from (items_view items.now) 1 []) result }
{
    let mut feeds = Drafts::new(alloc);
    let mut number = 1;
    for item in items {
        feeds.push(feed_of(alloc, number, table_in(item))?)?;
        number += 1;
    }
    Ok(feeds)
}

fn feed_of(
    alloc: Global,
    number: u32,
    table: Option<&Table>,
) -> Result<FeedRule, Refusal<RulesFault>>
    ensures reads { Answers (spec.feed_of number (option_map (λ m. table_view m.now) table.entry)) result }
    ensures within { IfOk result (λ r. number ≤ 64) }
{
    let Some(table) = table else {
        return Err(Refusal::Fault(no_table(alloc, TableKind::Feed)?));
    };
    match feed_by(alloc, number, table) {
        Ok(feed) => Ok(feed),
        Err(Refusal::Fault(word)) => Err(Refusal::Fault(table_fault(
            TableKind::Feed,
            number,
            word,
        ))),
        Err(Refusal::NoMemory) => Err(Refusal::NoMemory),
    }
}

fn feed_by(alloc: Global, number: u32, table: &Table) -> Result<FeedRule, Refusal<Text>>
    ensures reads { Answers (spec.feed_by number (table_view table.now)) result }
    ensures within { IfOk result (λ r. number ≤ 64) }
{
    if let Some(word) = early_fault(alloc, TableKind::Feed, number, table)? {
        return Err(Refusal::Fault(word));
    }
    feed_in(alloc, table)
}

fn feed_in(alloc: Global, table: &Table) -> Result<FeedRule, Refusal<Text>>
    ensures { Answers (spec.feed_in (table_view table.now)) result }
{
    let kind = kind_at(alloc, table)?;
    let target = text_at(alloc, "target", table)?;
    let of = pattern_at(alloc, "of", table)?;
    let title = text_at(alloc, "title", table)?;
    let description = text_at(alloc, "description", table)?;
    let author = text_at(alloc, "author", table)?;
    let root = text_at(alloc, "root", table)?;
    let email = email_at(alloc, table)?;
    let snapshot = snapshot_at(alloc, table)?;
    let limit = limit_at(alloc, table)?;
    Ok(FeedRule {
        kind,
        target,
        of,
        title,
        description,
        author,
        root,
        email,
        snapshot,
        limit,
    })
}

fn kind_at(alloc: Global, table: &Table) -> Result<FeedKind, Refusal<Text>>
    ensures { Answers (spec.kind_at (table_view table.now)) result }
{
    required(alloc, "kind", kind_named(hk_steps::text_at(table, "kind")))
}

fn kind_named(text: Option<&str>) -> Option<FeedKind>
    ensures { result ≡ spec.kind_named (option_map (λ s. s.now) text.entry) }
{
    match text {
        Some(word) => kind_of(word),
        None => None,
    }
}

fn kind_of(word: &str) -> Option<FeedKind>
    ensures { result ≡ spec.kind_named (Some word.now) }
{
    match word {
        "atom" => Some(FeedKind::Atom),
        "rss" => Some(FeedKind::Rss),
        _ => None,
    }
}

fn email_at(alloc: Global, table: &Table) -> Result<Option<Text>, Refusal<Text>>
    ensures { Answers (spec.email_at (table_view table.now)) result }
{
    let email = text_or_none(alloc, value_at(table, "email"))?;
    required(alloc, "email", email)
}

fn text_or_none(alloc: Global, value: Option<&Value>) -> Result<Option<Option<Text>>, NoMemory>
    ensures { IfOk result (λ o. o ≡ optional as_str (option_map (λ v. view v.now) value.entry)) }
{
    let Some(value) = value else {
        return Ok(Some(None));
    };
    match copy_by(alloc, text_in(value))? {
        Some(text) => Ok(Some(Some(text))),
        None => Ok(None),
    }
}

fn snapshot_at(alloc: Global, table: &Table) -> Result<Text, Refusal<Text>>
    ensures { Answers (spec.snapshot_at (table_view table.now)) result }
{
    let snapshot = snapshot_or_final(alloc, value_at(table, "snapshot"))?;
    required(alloc, "snapshot", snapshot)
}

fn limit_at(alloc: Global, table: &Table) -> Result<u32, Refusal<Text>>
    ensures { Answers (spec.limit_at (table_view table.now)) result }
{
    required(alloc, "limit", count_or_ten(value_at(table, "limit")))
}

fn count_or_ten(value: Option<&Value>) -> Option<u32>
    ensures { result ≡ spec.count_or_ten (option_map (λ v. view v.now) value.entry) }
{
    match value {
        Some(value) => count_of(value),
        None => Some(USUAL_LIMIT),
    }
}
