// Rules with a rule for each page of their tables.
ghost use Rattle.std.specs.Prelude.{◌≡◌, ◌<◌, ◌≤◌, IfOk, None, bytes_eq, length};
ghost use Rattle.std.specs.List.{AllByRecursion, IsDistinct};
ghost use Rattle.std.specs.List.Sorted.{IsStrictlySortedBy};
ghost use Rattle.std.specs.Ordering.{nat_cmp};
ghost use Rattle.std.specs.Cmp.Lexicographic.{slice_cmp};
ghost use Rattle.std.specs.BTreeSet.{insert_key};
ghost use Rattle.hk_base.specs.Answers.{Answers};
ghost use Rattle.hk_base.specs.Identifier.{ident_cmp};
ghost use Rattle.hk_forms.specs.IdForm.{ident_at};
ghost use Rattle.hk_rules.specs.Outcomes.{AnswersList};
ghost use Rattle.hk_rules.specs.Plan.{lookups};
ghost use Rattle.hk_rules_file.specs.Linked.{HasLinkedTables, IsLinked, context_names};
ghost use Rattle.hk_rules_file.specs.Numbering.{numbered, texts_of};
ghost use Rattle.hk_rules_file.specs.TableForm.{required};
ghost use Rattle.hk_tags.specs.Expanding as spec;
ghost use Rattle.hk_tags.specs.Listings.{ArePagesWithin, ListsByPiece, ListsByTag};
ghost use Rattle.hk_tags.specs.Made.{making_of};
ghost use Rattle.hk_tags.specs.Pages as pages;
ghost use Rattle.hk_tags.specs.Turns.{in_turn};
ghost use Rattle.hk_tags.specs.declared.tag_fault.TagFault.TheVariants.{BadPath};

use crate::copying::{copy_contexts, copy_feeds, copy_pattern, copy_rules};
use crate::dates::{Ordered, in_order};
use crate::growing::{Growing, Making, with_page};
use crate::members::members;
use crate::name_order::in_name_order;
use crate::piece_pages::pages_of_items;
use crate::table_page::TablePage;
use crate::tag_fault::TagFault;
use crate::tag_pages::tag_pages;
use hk_base::{Identifier, NoMemory, Refusal, Text};
use hk_pattern::Pattern;
use hk_rules::{FeedRule, PageRule, Plan, Rules, TagRule};
use hk_rules_file::Pool;
use std::alloc::Global;
use std::collections::BTreeSet;
use std::marker::Model;

/// The most items of a plan.
const MOST_ITEMS: usize = 65_535;

/// The rules so far, and the identifiers of the pages so far.
#[derive(Drop)]
struct Grown {
    growing: Growing,
    made: BTreeSet<Identifier>,
}

impl Model for Grown {
    ghost use Rattle.std.specs.Coded.{codes};
    ghost use Rattle.hk_pattern.specs.contracts.pattern.Pattern as pattern;
    ghost use Rattle.hk_route.specs.contracts.route.Route as route;
    ghost use Rattle.hk_tags.specs.Expanding.{GrownView};

    ghost Value = { GrownView };

    ghost coded = { Prim.hlevel (codes, pattern.the_row.coded, route.the_row.coded) };

    ghost view = { λ g. record { growing = g.growing; made = g.made.keys } };
}

/// The rules with one for each page of their tables, which creates it, and with its context; `base` is the plan that the
/// rules make without these. All contexts stand in the order of their names then, and each number of one follows. The tables
/// are done, and the feeds are handed on.
///
/// A table for tags gives a page for each tag of its members, in the byte order of the tags, which lists the members that
/// have it. A table for numbered pages puts its members into its order and cuts them into pieces, a page each; without
/// members there is one page.
///
/// The tables for tags are tested before those for pages. In each `NoDate` comes first, for the first member without a date
/// where numbered pages are ordered by one; then for each page in turn `BadPath` where its path is no identifier's, and
/// `Taken` where `base` or an earlier page has it; after all tables `TooManyItems` for more than 65,535 items of `base` and
/// pages together.
///
/// Each item is tested once by each table; then linear in the members of the pages and the fields and steps of their
/// tables, but for `n log n` comparisons of tags, dates, identifiers and patterns' texts. The contexts are sorted once, and
/// the numbers are changed in one pass over the rules and the contexts.
pub fn expand(alloc: Global, rules: &Rules, base: &Plan) -> Result<Rules, Refusal<TagFault>>
    requires linked { IsLinked rules.now }
    requires tables { HasLinkedTables rules.now }
    ensures value { Answers (spec.expand rules.now base.now) result }
    ensures tags { AllByRecursion (ListsByTag (lookups base.now)) rules.now.tags }
    ensures pieces { AllByRecursion (ListsByPiece (lookups base.now)) rules.now.pages }
    ensures linked { IfOk result (λ r. IsLinked r) }
    ensures names { IfOk result (λ r. IsStrictlySortedBy (slice_cmp nat_cmp) (context_names r.contexts)) }
{
    expanded(alloc, rules, base)
}

#[tactic(auto, unfolding(crate::specs::Expanding::expand))]
fn expanded(alloc: Global, rules: &Rules, base: &Plan) -> Result<Rules, Refusal<TagFault>>
    requires linked { IsLinked rules.now }
    requires tables { HasLinkedTables rules.now }
    ensures { Answers (spec.expand rules.now base.now) result }
{
    let grown = grown_of(alloc, rules)?;
    let tagged = with_tags(alloc, base, &rules.tags, grown)?;
    let paged = with_pieces(alloc, base, &rules.pages, tagged)?;
    counted(alloc, base, &rules.feeds, paged)
}

/// The rules without tables, where the plan has no more items than it may have.
fn counted(
    alloc: Global,
    base: &Plan,
    feeds: &[FeedRule],
    grown: Grown,
) -> Result<Rules, Refusal<TagFault>>
    ensures { Answers (spec.counted (lookups base.now) feeds.now grown) result }
{
    let Grown { growing, made } = grown;
    let room = MOST_ITEMS - base.count() as usize;
    if made.len() > room {
        return Err(Refusal::Fault(TagFault::TooManyItems));
    }
    let growing = in_name_order(alloc, growing)?;
    let feeds = copy_feeds(alloc, feeds)?;
    Ok(whole(alloc, growing, feeds))
}

/// The rules without tables, and with these feeds.
fn whole(alloc: Global, growing: Growing, feeds: Vec<FeedRule>) -> Rules
    ensures { result ≡ spec.whole feeds.items growing }
{
    let Growing {
        rules,
        contexts,
        pool,
    } = growing;
    Rules {
        rules,
        contexts,
        patterns: pool.into_patterns(),
        tags: Vec::new(alloc),
        pages: Vec::new(alloc),
        feeds,
    }
}

/// The rules before any page.
fn grown_of(alloc: Global, rules: &Rules) -> Result<Grown, NoMemory>
    requires { IsDistinct bytes_eq (texts_of rules.now.patterns) }
    ensures { IfOk result (λ g. g ≡ spec.start rules.now) }
{
    let copies = copy_rules(alloc, &rules.rules)?;
    let contexts = copy_contexts(alloc, &rules.contexts)?;
    let pool = pool_of(alloc, &rules.patterns)?;
    let growing = Growing {
        rules: copies,
        contexts,
        pool,
    };
    let made = BTreeSet::new(alloc);
    Ok(Grown { growing, made })
}

/// The patterns by number again. Their texts differ.
fn pool_of(alloc: Global, patterns: &[Pattern]) -> Result<Pool, NoMemory>
    requires { IsDistinct bytes_eq (texts_of patterns.now) }
    ensures { IfOk result (λ pool. pool ≡ patterns.now) }
{
    let mut pool = Pool::new(alloc);
    for pattern in patterns {
        pool = with_pattern(alloc, pool, pattern)?;
    }
    Ok(pool)
}

fn with_pattern(alloc: Global, pool: Pool, pattern: &Pattern) -> Result<Pool, NoMemory>
    ensures { IfOk result (λ p. p ≡ (numbered pool pattern.now).1) }
{
    let pattern = copy_pattern(alloc, pattern)?;
    let (_number, pool) = pool.number(alloc, pattern)?;
    Ok(pool)
}

fn with_tags(
    alloc: Global,
    base: &Plan,
    tables: &[TagRule],
    grown: Grown,
) -> Result<Grown, Refusal<TagFault>>
    requires { AllByRecursion (λ table. table.context < length grown.growing.contexts) tables.now }
    ensures value { Answers (in_turn (spec.with_tag_table (lookups base.now)) tables.now grown) result }
    ensures more { IfOk result (λ g. length grown.growing.contexts ≤ length g.growing.contexts) }
{
    let mut grown = grown;
    for table in tables {
        grown = with_tag_table(alloc, base, table, grown)?;
    }
    Ok(grown)
}

fn with_tag_table(
    alloc: Global,
    base: &Plan,
    table: &TagRule,
    grown: Grown,
) -> Result<Grown, Refusal<TagFault>>
    requires { table.now.context < length grown.growing.contexts }
    ensures value { Answers (spec.with_tag_table (lookups base.now) grown table.now) result }
    ensures more { IfOk result (λ g. length grown.growing.contexts ≤ length g.growing.contexts) }
{
    let pages = tag_pages(alloc, base, table)?;
    let making = Making::of_tags(table);
    with_pages(alloc, base, &making, pages, grown)
}

fn with_pieces(
    alloc: Global,
    base: &Plan,
    tables: &[PageRule],
    grown: Grown,
) -> Result<Grown, Refusal<TagFault>>
    requires contexts { AllByRecursion (λ table. table.context < length grown.growing.contexts) tables.now }
    requires some { AllByRecursion (λ table. 1 ≤ table.per) tables.now }
    ensures { Answers (in_turn (spec.with_page_table (lookups base.now)) tables.now grown) result }
{
    let mut grown = grown;
    for table in tables {
        grown = with_page_table(alloc, base, table, grown)?;
    }
    Ok(grown)
}

fn with_page_table(
    alloc: Global,
    base: &Plan,
    table: &PageRule,
    grown: Grown,
) -> Result<Grown, Refusal<TagFault>>
    requires context { table.now.context < length grown.growing.contexts }
    requires some { 1 ≤ table.now.per }
    ensures value { Answers (spec.with_page_table (lookups base.now) grown table.now) result }
    ensures more { IfOk result (λ g. length grown.growing.contexts ≤ length g.growing.contexts) }
{
    let pages = piece_pages(alloc, base, table)?;
    let making = Making::of_pages(table);
    with_pages(alloc, base, &making, pages, grown)
}

/// The pages of a table for numbered pages.
#[tactic(auto, unfolding(crate::specs::Pages::piece_pages))]
fn piece_pages(
    alloc: Global,
    base: &Plan,
    table: &PageRule,
) -> Result<Vec<TablePage>, Refusal<TagFault>>
    requires { 1 ≤ table.now.per }
    ensures { AnswersList (spec.dated_pages (lookups base.now) (pages.piece_pages (lookups base.now) table.now)) result }
{
    let members = members(alloc, base, &table.of)?;
    let ordered = in_order(alloc, base, table.order, members)?;
    match ordered {
        Ordered::Items(items) => {
            let pages = pages_of_items(alloc, table, &items)?;
            Ok(pages)
        }
        Ordered::Lacks(item) => {
            let id = base.id(item).copy(alloc)?;
            Err(Refusal::Fault(TagFault::NoDate { id }))
        }
    }
}

fn with_pages(
    alloc: Global,
    base: &Plan,
    making: &Making<'_>,
    pages: Vec<TablePage>,
    grown: Grown,
) -> Result<Grown, Refusal<TagFault>>
    requires context { making.now.context < length grown.growing.contexts }
    requires within { ArePagesWithin (length base.now.items) pages.items }
    ensures value { Answers (spec.with_pages (lookups base.now) (making_of making.now) pages.items grown) result }
    ensures more { IfOk result (λ g. length grown.growing.contexts ≤ length g.growing.contexts) }
{
    let mut grown = grown;
    for page in pages {
        grown = with_one(alloc, base, making, page, grown)?;
    }
    Ok(grown)
}

/// With a page more.
fn with_one(
    alloc: Global,
    base: &Plan,
    making: &Making<'_>,
    page: TablePage,
    grown: Grown,
) -> Result<Grown, Refusal<TagFault>>
    requires context { making.now.context < length grown.growing.contexts }
    requires within { AllByRecursion (λ item. item < length base.now.items) page.members }
    ensures value { Answers (spec.with_one (lookups base.now) (making_of making.now) grown page) result }
    ensures more { IfOk result (λ g. length grown.growing.contexts ≤ length g.growing.contexts) }
{
    let Grown { growing, made } = grown;
    let id = page_ident(alloc, base, &made, page.path.as_slice())?;
    let made = with_ident(alloc, made, &id)?;
    let growing = with_page(alloc, base, growing, making, page, id)?;
    Ok(Grown { growing, made })
}

fn with_ident(
    alloc: Global,
    made: BTreeSet<Identifier>,
    id: &Identifier,
) -> Result<BTreeSet<Identifier>, NoMemory>
    ensures { IfOk result (λ s. s.keys ≡ insert_key ident_cmp made.keys id.now) }
{
    let mut made = made;
    made.insert(id.copy(alloc)?)?;
    Ok(made)
}

/// The identifier of a page.
fn page_ident(
    alloc: Global,
    base: &Plan,
    made: &BTreeSet<Identifier>,
    path: &[u8],
) -> Result<Identifier, Refusal<TagFault>>
    ensures { Answers (spec.page_ident (lookups base.now) made.now.keys path.now) result }
{
    let id = path_ident(alloc, path)?;
    let taken = is_taken(base, made, &id);
    unless_taken(taken, id)
}

fn unless_taken(taken: bool, id: Identifier) -> Result<Identifier, Refusal<TagFault>>
    ensures { Answers (spec.unless_taken taken id) result }
{
    if taken {
        return Err(Refusal::Fault(TagFault::Taken { id }));
    }
    Ok(id)
}

/// Whether the plan or an earlier page has the identifier.
fn is_taken(base: &Plan, made: &BTreeSet<Identifier>, id: &Identifier) -> bool
    ensures { result ≡ spec.is_taken (lookups base.now) made.now.keys id.now }
{
    base.find(id).is_some() || made.contains(id)
}

fn path_ident(alloc: Global, path: &[u8]) -> Result<Identifier, Refusal<TagFault>>
    ensures { Answers (required (BadPath path.now) (ident_at path.now None)) result }
{
    match Identifier::read(alloc, path, None) {
        Ok(id) => Ok(id),
        Err(Refusal::Fault(_)) => {
            let path = Text::from_slice(alloc, path)?;
            Err(Refusal::Fault(TagFault::BadPath { path }))
        }
        Err(Refusal::NoMemory) => Err(Refusal::NoMemory),
    }
}
