// Reading of the rules file.
ghost use Rattle.std.specs.Prelude.{◌≡◌, ◌≤◌, length, nat_lt, IfOk, option_map};
ghost use Rattle.toml.specs.Data.{no_members};
ghost use Rattle.toml.specs.View.{view, table_view, items_view};
ghost use Rattle.hk_base.specs.Answers.{Answers};
ghost use Rattle.hk_forms.specs.Members as members;
ghost use Rattle.hk_rules_file.specs.FileEntries.{contexts_at};
ghost use Rattle.hk_rules_file.specs.Linked.{IsLinked, HasLinkedTables};
ghost use Rattle.hk_rules_file.specs.RuleForm as rule_form;
ghost use Rattle.hk_rules_file.specs.RulesForm as spec;

use crate::context_form::{Entry, contexts_from, listed, names_of};
use crate::fault::RulesFault;
use crate::feed_form::feeds_from;
use crate::numbering::Names;
use crate::pages_form::pages_from;
use crate::rule_form::rules_from;
use crate::rules::Rules;
use crate::tags_form::tags_from;
use hk_base::{NoMemory, Refusal, Text};
use hk_forms::{items_in, table_in, value_at};
use std::alloc::Global;
use toml::{Table, Value};

/// The most bytes that a rules file may have.
const MOST_BYTES: usize = 1_048_576;

/// The most rules that a file may have.
const MOST_RULES: usize = 1024;

/// Reads the rules that a file has. A top table without any of its keys has none, and the context that is built in.
/// The faults are tested in this order, and the first counts:
///
/// - `TooLong` for more than 1,048,576 bytes;
/// - `NotToml` for bytes that are no TOML;
/// - `BadRule` with the number 0: the least other key of the top table, or else the first of the keys `context`, `feed`,
///   `paginate`, `rule` and `tags` whose value isn't of its form: a table of tables for `context`, and an array of tables for
///   the others;
/// - `TooManyRules` for more than 1,024;
/// - `BadContext` for the first context, in the byte order of the names, that is the 257th, is named `default`, has a
///   bad name or another key than `fields`, or whose fields aren't of their form or name a context that there is not;
/// - then for each rule in order `BadRule` with its number, from 1, and its least other key, or else the first of the
///   keys `match`, `create`, `version`, `route` and `compile` whose value isn't of its form; and for each step in order
///   `DoubleSnapshot` for a name that an earlier step saves under, or `UnknownContext` for a name that no context has;
/// - then for each of the tables for tags in order `BadTags` with its number, from 1, and its least other key, or else the
///   first of the keys `of`, `field`, `prefix`, `compile`, `route`, `context`, `item` and `order` that is missing or bad;
///   a chain that saves twice under one name or names a context that there is not is bad, and so is `of` in a 65th table;
/// - then so `BadPaginate`, by `of`, `prefix`, `per`, `first`, `compile`, `route`, `context`, `item` and `order`;
/// - then so `BadFeed`, by `kind`, `target`, `of`, `title`, `description`, `author`, `root`, `email`, `snapshot` and
///   `limit`, and `kind` is bad in a 65th table.
///
/// Contexts are numbered in the byte order of their names, the one that is built in at its place, and patterns in the
/// order of their first use, the contexts before the rules, and these before the chains of the tables. So each number in
/// the steps, fields and tables is that of a context or a pattern that there is, the names under which a chain saves differ
/// and none is `_final`, no two contexts have one name, no two patterns one text, and a list's limit is from 1 to 65,535.
/// Linear in the bytes, but for `n log n` comparisons of names and of patterns' texts.
pub fn read_rules(alloc: Global, bytes: &[u8]) -> Result<Rules, Refusal<RulesFault>>
    ensures read { Answers (spec.rules_of bytes.now) result }
    ensures linked { IfOk result (λ r. IsLinked r) }
    ensures tables { IfOk result (λ r. HasLinkedTables r) }
{
    if bytes.len() > MOST_BYTES {
        return Err(Refusal::Fault(RulesFault::TooLong));
    }
    rules_of_bytes(alloc, bytes)
}

fn rules_of_bytes(alloc: Global, bytes: &[u8]) -> Result<Rules, Refusal<RulesFault>>
    ensures read { Answers (spec.rules_of_document (spec.document bytes.now)) result }
    ensures linked { IfOk result (λ r. IsLinked r) }
    ensures tables { IfOk result (λ r. HasLinkedTables r) }
{
    let Ok(text) = str::from_utf8(bytes) else {
        return Err(Refusal::Fault(RulesFault::NotToml));
    };
    match toml::table_from_str(alloc, text) {
        Ok(table) => rules_of_table(alloc, &table),
        Err(error) if error.is_memory() => Err(Refusal::NoMemory),
        Err(_) => Err(Refusal::Fault(RulesFault::NotToml)),
    }
}

fn rules_of_table(alloc: Global, table: &Table) -> Result<Rules, Refusal<RulesFault>>
    ensures read { Answers (spec.rules_of_table (table_view table.now)) result }
    ensures linked { IfOk result (λ r. IsLinked r) }
    ensures tables { IfOk result (λ r. HasLinkedTables r) }
{
    let other = other_top_key(alloc, table)?;
    let empty = Table::new(alloc);
    let contexts = contexts_at(&empty, value_at(table, "context"));
    let feeds = tables_at(value_at(table, "feed"));
    let pages = tables_at(value_at(table, "paginate"));
    let rules = tables_at(value_at(table, "rule"));
    let tags = tables_at(value_at(table, "tags"));
    top_by(alloc, other, contexts, feeds, pages, rules, tags)
}

fn other_top_key(alloc: Global, table: &Table) -> Result<Option<Text>, NoMemory>
    ensures { IfOk result (λ o. o ≡ rule_form.first_other spec.is_top_key (table_view table.now)) }
{
    for (key, _value) in table.iter() {
        let key = key.as_str();
        if !is_top_key(key) {
            return Ok(Some(Text::from_slice(alloc, key.as_bytes())?));
        }
    }
    Ok(None)
}

#[tactic(auto, unfolding(crate::specs::RulesForm::is_top_key))]
fn is_top_key(key: &str) -> bool
    ensures { result ≡ spec.is_top_key key.now }
{
    ((key == "rule" || key == "context") || key == "tags") || (key == "paginate" || key == "feed")
}

/// The table of the contexts, by the value at its key, and an empty one where there is none.
fn contexts_at<'a>(empty: &'a Table, value: Option<&'a Value>) -> Option<&'a Table>
    requires { table_view empty.now ≡ no_members }
    ensures { option_map (λ m. table_view m.now) result ≡ spec.contexts_at (option_map (λ v. view v.now) value.entry) }
{
    match value {
        Some(value) => table_of_tables(table_in(value)),
        None => Some(empty),
    }
}

fn table_of_tables(table: Option<&Table>) -> Option<&Table>
    ensures { option_map (λ m. table_view m.now) result ≡ spec.table_of_tables (option_map (λ m. table_view m.now) table.entry) }
{
    match table {
        Some(table) if holds_tables(table) => Some(table),
        _ => None,
    }
}

fn holds_tables(table: &Table) -> bool
    ensures { result ≡ spec.hold_tables (table_view table.now) }
{
    for (_key, value) in table.iter() {
        if !value.is_table() {
            return false;
        }
    }
    true
}

/// The array of tables that a value is, and an empty one where there is none.
fn tables_at(value: Option<&Value>) -> Option<&[Value]>
    ensures { option_map (λ s. items_view s.now) result ≡ spec.tables_at (option_map (λ v. view v.now) value.entry) }
{
    match value {
        Some(value) => array_of_tables(items_in(value)),
        None => Some(&[]),
    }
}

fn array_of_tables(items: Option<&[Value]>) -> Option<&[Value]>
    ensures { option_map (λ s. items_view s.now) result ≡ spec.array_of_tables (option_map (λ s. items_view s.now) items.entry) }
{
    match items {
        Some(items) if are_tables(items) => Some(items),
        _ => None,
    }
}

fn are_tables(items: &[Value]) -> bool
    ensures { result ≡ spec.are_tables (items_view items.now) }
{
    for item in items {
        if !item.is_table() {
            return false;
        }
    }
    true
}

fn top_by(
    alloc: Global,
    other: Option<Text>,
    contexts: Option<&Table>,
    feeds: Option<&[Value]>,
    pages: Option<&[Value]>,
    rules: Option<&[Value]>,
    tags: Option<&[Value]>,
) -> Result<Rules, Refusal<RulesFault>>
    ensures read { Answers (spec.top_by other (option_map (λ m. table_view m.now) contexts.entry)
        (option_map (λ s. items_view s.now) feeds.entry) (option_map (λ s. items_view s.now) pages.entry)
        (option_map (λ s. items_view s.now) rules.entry) (option_map (λ s. items_view s.now) tags.entry)) result }
    ensures linked { IfOk result (λ r. IsLinked r) }
    ensures tables { IfOk result (λ r. HasLinkedTables r) }
{
    if let Some(word) = other {
        return Err(Refusal::Fault(RulesFault::BadRule { number: 0, word }));
    }
    parts_by(alloc, contexts, feeds, pages, rules, tags)
}

fn parts_by(
    alloc: Global,
    contexts: Option<&Table>,
    feeds: Option<&[Value]>,
    pages: Option<&[Value]>,
    rules: Option<&[Value]>,
    tags: Option<&[Value]>,
) -> Result<Rules, Refusal<RulesFault>>
    ensures read { Answers (spec.parts_by (option_map (λ m. table_view m.now) contexts.entry)
        (option_map (λ s. items_view s.now) feeds.entry) (option_map (λ s. items_view s.now) pages.entry)
        (option_map (λ s. items_view s.now) rules.entry) (option_map (λ s. items_view s.now) tags.entry)) result }
    ensures linked { IfOk result (λ r. IsLinked r) }
    ensures tables { IfOk result (λ r. HasLinkedTables r) }
{
    let Some(contexts) = contexts else {
        let word = Text::from_slice(alloc, b"context")?;
        return Err(Refusal::Fault(RulesFault::BadRule { number: 0, word }));
    };
    let Some(feeds) = feeds else {
        let word = Text::from_slice(alloc, b"feed")?;
        return Err(Refusal::Fault(RulesFault::BadRule { number: 0, word }));
    };
    let Some(pages) = pages else {
        let word = Text::from_slice(alloc, b"paginate")?;
        return Err(Refusal::Fault(RulesFault::BadRule { number: 0, word }));
    };
    let Some(rules) = rules else {
        let word = Text::from_slice(alloc, b"rule")?;
        return Err(Refusal::Fault(RulesFault::BadRule { number: 0, word }));
    };
    let Some(tags) = tags else {
        let word = Text::from_slice(alloc, b"tags")?;
        return Err(Refusal::Fault(RulesFault::BadRule { number: 0, word }));
    };
    unless_many(alloc, contexts, rules, tags, pages, feeds)
}

fn unless_many(
    alloc: Global,
    contexts: &Table,
    rules: &[Value],
    tags: &[Value],
    pages: &[Value],
    feeds: &[Value],
) -> Result<Rules, Refusal<RulesFault>>
    ensures read { Answers (spec.unless_many (nat_lt spec.most_rules (members.count_items (items_view rules.now))) (table_view contexts.now)
        (items_view rules.now) (items_view tags.now) (items_view pages.now) (items_view feeds.now)) result }
    ensures linked { IfOk result (λ r. IsLinked r) }
    ensures tables { IfOk result (λ r. HasLinkedTables r) }
{
    if rules.len() > MOST_RULES {
        return Err(Refusal::Fault(RulesFault::TooManyRules));
    }
    parts_in(alloc, contexts, rules, tags, pages, feeds)
}

fn parts_in(
    alloc: Global,
    contexts: &Table,
    rules: &[Value],
    tags: &[Value],
    pages: &[Value],
    feeds: &[Value],
) -> Result<Rules, Refusal<RulesFault>>
    requires { length rules.now ≤ 1024 }
    ensures read { Answers (spec.parts_in (table_view contexts.now) (items_view rules.now) (items_view tags.now)
        (items_view pages.now) (items_view feeds.now)) result }
    ensures linked { IfOk result (λ r. IsLinked r) }
    ensures tables { IfOk result (λ r. HasLinkedTables r) }
{
    // the keys of a table differ
    let _count = contexts.len();
    let contexts = listed(alloc, contexts)?;
    let names = names_of(alloc, &contexts)?;
    parts_with(alloc, &names, &contexts, rules, tags, pages, feeds)
}

fn parts_with(
    alloc: Global,
    names: &Names,
    contexts: &[Entry<'_>],
    rules: &[Value],
    tags: &[Value],
    pages: &[Value],
    feeds: &[Value],
) -> Result<Rules, Refusal<RulesFault>>
    requires { length rules.now ≤ 1024 }
    ensures { Answers (spec.parts_with names.now (contexts_at contexts.now) (items_view rules.now) (items_view tags.now)
        (items_view pages.now) (items_view feeds.now)) result }
{
    let (contexts, pool) = contexts_from(alloc, names, contexts)?;
    let (rules, pool) = rules_from(alloc, names, pool, rules)?;
    let (tags, pool) = tags_from(alloc, names, pool, tags)?;
    let (pages, pool) = pages_from(alloc, names, pool, pages)?;
    let feeds = feeds_from(alloc, feeds)?;
    Ok(Rules {
        rules: rules.into_vec(),
        contexts: contexts.into_vec(),
        patterns: pool.into_patterns(),
        tags: tags.into_vec(),
        pages: pages.into_vec(),
        feeds: feeds.into_vec(),
    })
}
