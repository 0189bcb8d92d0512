// Rules with a page more.
ghost use Rattle.std.specs.Prelude.{◌≡◌, ◌<◌, ◌++◌, IfOk, OnOk, codes, length, map};
ghost use Rattle.std.specs.List.{AllByRecursion};
ghost use Rattle.hk_rules.specs.Plan.{lookups};
ghost use Rattle.hk_tags.specs.Growing as spec;
ghost use Rattle.hk_tags.specs.Made.{making_of};

use crate::copying::{copy_optional_route, copy_step, copy_text, push_fields};
use crate::table_page::TablePage;
use hk_base::{Identifier, NoMemory, Text};
use hk_chain::{Chain, Context, ContextNo, Field, ItemNo, Order, PatternNo, Step};
use hk_pattern::{Items, Pattern};
use hk_route::Route;
use hk_rules::{PageRule, Plan, Rule, RuleSource, TagRule};
use hk_rules_file::Pool;
use std::alloc::Global;
use std::marker::Model;

/// How the pages of a table are made.
#[derive(Clone, Copy)]
pub(crate) struct Making<'a> {
    pub(crate) route: &'a Option<Route>,
    pub(crate) chain: &'a Chain,
    pub(crate) context: ContextNo,
    pub(crate) item: ContextNo,
    pub(crate) order: Order,
}

impl<'a> Making<'a> {
    pub(crate) fn of_tags(table: &'a TagRule) -> Making<'a>
        ensures { making_of result ≡ spec.tags_making table.now }
    {
        Making {
            route: &table.route,
            chain: &table.chain,
            context: table.context,
            item: table.item,
            order: table.order,
        }
    }

    pub(crate) fn of_pages(table: &'a PageRule) -> Making<'a>
        ensures { making_of result ≡ spec.pages_making table.now }
    {
        Making {
            route: &table.route,
            chain: &table.chain,
            context: table.context,
            item: table.item,
            order: table.order,
        }
    }
}

/// The rules so far, their contexts, and their patterns.
#[derive(Drop)]
pub(crate) struct Growing {
    pub(crate) rules: Vec<Rule>,
    pub(crate) contexts: Vec<Context>,
    pub(crate) pool: Pool,
}

impl Model for Growing {
    ghost use Rattle.std.specs.Coded.{codes};
    ghost use Rattle.hk_pattern.specs.contracts.pattern.Pattern as pattern;
    ghost use Rattle.hk_route.specs.contracts.route.Route as route;
    ghost use Rattle.hk_tags.specs.Growing.{GrowingView};

    ghost Value = { GrowingView };

    ghost coded = { Prim.hlevel (codes, pattern.the_row.coded, route.the_row.coded) };

    ghost view = { λ g. record { rules = g.rules.items; contexts = g.contexts.items; patterns = g.pool } };
}

/// The rules with one that creates the page, and with its context. Linear in the page's items, the chain and the fields
/// of the table's context, but for the number of the page's pattern.
pub(crate) fn with_page(
    alloc: Global,
    base: &Plan,
    growing: Growing,
    making: &Making<'_>,
    page: TablePage,
    id: Identifier,
) -> Result<Growing, NoMemory>
    requires context { making.now.context < length growing.contexts }
    requires members { AllByRecursion (λ item. item < length base.now.items) page.members }
    ensures { IfOk result (λ g. g ≡ spec.with_page (lookups base.now) growing (making_of making.now) page id) }
{
    let Growing {
        mut rules,
        mut contexts,
        pool,
    } = growing;
    let ids = ids_of(alloc, base, page.members.as_slice())?;
    let (pattern, pool) = pool.number(alloc, Pattern::Ids(ids))?;
    let context = page_context(alloc, &contexts, making, page, pattern)?;
    let number = number_of(contexts.len())?;
    contexts.push(context)?;
    rules.push(page_rule(alloc, making, number, id)?)?;
    Ok(Growing {
        rules,
        contexts,
        pool,
    })
}

/// More than 2^32 count as want of memory.
pub(crate) fn number_of(count: usize) -> Result<ContextNo, NoMemory>
    ensures { IfOk result (λ n. n ≡ count) }
{
    match u32::try_from(count) {
        Ok(number) => Ok(ContextNo(number)),
        Err(_) => Err(NoMemory),
    }
}

fn ids_of(alloc: Global, base: &Plan, items: &[ItemNo]) -> Result<Items<Identifier>, NoMemory>
    requires { AllByRecursion (λ item. item < length base.now.items) items.now }
    ensures { IfOk result (λ v. v ≡ spec.ids_of (lookups base.now) items.now) }
{
    let mut ids = Items::new(alloc);
    for item in items {
        ids.push(base.id(*item).copy(alloc)?)?;
    }
    Ok(ids)
}

/// The context of a page: the list of its items, its own texts, and the fields of the table's context.
fn page_context(
    alloc: Global,
    contexts: &[Context],
    making: &Making<'_>,
    page: TablePage,
    pattern: PatternNo,
) -> Result<Context, NoMemory>
    requires { making.now.context < length contexts.now }
    ensures { IfOk result (λ c. c ≡ spec.page_context contexts.now (making_of making.now) page pattern) }
{
    let TablePage { path, own, .. } = page;
    let behind = &contexts[making.context.0 as usize];
    let name = page_name(alloc, behind.name.as_slice(), path.as_slice())?;
    let mut fields = Vec::new(alloc);
    fields.push(posts(alloc, making, pattern)?)?;
    push_consts(&mut fields, own)?;
    push_fields(alloc, &mut fields, &behind.fields)?;
    Ok(Context { name, fields })
}

fn push_consts(fields: &mut Vec<Field>, own: Vec<(Text, Text)>) -> Result<(), NoMemory>
    ensures { OnOk result (fields.new.items ≡ fields.old.items ++ map spec.const_field own.items) }
{
    for (key, text) in own {
        fields.push(Field::Const(key, text))?;
    }
    Ok(())
}

fn page_name(alloc: Global, name: &[u8], path: &[u8]) -> Result<Text, NoMemory>
    ensures { IfOk result (λ t. t ≡ name.now ++ (codes "@" ++ path.now)) }
{
    let mut whole = Vec::from_slice(alloc, name)?;
    whole.push(b'@')?;
    whole.extend_from_slice(path)?;
    Ok(Text::from_vec(whole))
}

/// The list of a page's items.
fn posts(alloc: Global, making: &Making<'_>, pattern: PatternNo) -> Result<Field, NoMemory>
    ensures { IfOk result (λ f. f ≡ spec.posts (making_of making.now) pattern) }
{
    let key = Text::from_slice(alloc, b"posts")?;
    let snapshot = Text::from_slice(alloc, b"_final")?;
    Ok(Field::List {
        key,
        of: pattern,
        snapshot,
        order: making.order,
        limit: None,
        context: making.item,
    })
}

fn page_rule(
    alloc: Global,
    making: &Making<'_>,
    context: ContextNo,
    id: Identifier,
) -> Result<Rule, NoMemory>
    ensures { IfOk result (λ r. r ≡ spec.page_rule (making_of making.now) context id) }
{
    let mut ids = Items::new(alloc);
    ids.push(id)?;
    let route = copy_optional_route(alloc, making.route)?;
    let chain = chain_in(alloc, making.chain, making.context, context)?;
    Ok(Rule {
        source: RuleSource::Create(ids),
        version: None,
        route,
        chain,
    })
}

/// The same steps, with the new context in the place of the old one.
fn chain_in(alloc: Global, chain: &Chain, old: ContextNo, new: ContextNo) -> Result<Chain, NoMemory>
    ensures { IfOk result (λ c. c ≡ map (spec.step_in old new) chain.now) }
{
    let mut steps = Vec::with_capacity(alloc, chain.steps.len())?;
    for step in &chain.steps {
        let step = copy_step(alloc, step)?;
        steps.push(step_in(old, new, step))?;
    }
    Ok(Chain { steps })
}

/// A step that names the new context in the place of the old one.
fn step_in(old: ContextNo, new: ContextNo, step: Step) -> Step
    ensures { result ≡ spec.step_in old new step }
{
    match step {
        Step::Apply { id, context } => Step::Apply {
            id,
            context: in_place(old, new, context),
        },
        Step::SelfApply(context) => Step::SelfApply(in_place(old, new, context)),
        step => step,
    }
}

fn in_place(old: ContextNo, new: ContextNo, number: ContextNo) -> ContextNo
    ensures { result ≡ spec.in_place old new number }
{
    if number == old { new } else { number }
}
