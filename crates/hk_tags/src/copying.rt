// Second rules, patterns, routes, steps and fields that are the same.
ghost use Rattle.std.specs.Prelude.{◌≡◌, ◌++◌, IfOk, OnOk};
ghost use Rattle.hk_chain.specs.declared.context.Field.TheVariants as fields;

use hk_base::{Identifier, NoMemory, Text};
use hk_chain::{Chain, Context, ContextNo, Field, Order, PatternNo, Step};
use hk_pattern::{Boxed, Glob, Items, Pattern};
use hk_route::Route;
use hk_rules::{FeedRule, Rule, RuleSource};
use std::alloc::Global;

pub(crate) fn copy_text(alloc: Global, text: &Text) -> Result<Text, NoMemory>
    ensures { IfOk result (λ t. t ≡ text.now) }
{
    Text::from_slice(alloc, text.as_slice())
}

fn copy_optional(alloc: Global, text: &Option<Text>) -> Result<Option<Text>, NoMemory>
    ensures { IfOk result (λ t. t ≡ text.now) }
{
    match text {
        Some(text) => Ok(Some(copy_text(alloc, text)?)),
        None => Ok(None),
    }
}

fn copy_glob(alloc: Global, glob: &Glob) -> Result<Glob, NoMemory>
    ensures { IfOk result (λ g. g ≡ glob.now) }
{
    match Glob::read(alloc, glob.text()) {
        Ok(glob) => Ok(glob),
        // the text of a glob is never refused
        Err(_) => Err(NoMemory),
    }
}

fn copy_ids(alloc: Global, ids: &[Identifier]) -> Result<Items<Identifier>, NoMemory>
    ensures { IfOk result (λ v. v ≡ ids.now) }
{
    let mut copies = Items::new(alloc);
    for id in ids {
        copies.push(id.copy(alloc)?)?;
    }
    Ok(copies)
}

/// The same pattern again. Linear.
#[cycle(copies)]
pub(crate) fn copy_pattern(alloc: Global, pattern: &Pattern) -> Result<Pattern, NoMemory>
    ensures { IfOk result (λ p. p ≡ pattern.now) }
{
    match pattern {
        Pattern::Glob(glob) => Ok(Pattern::Glob(copy_glob(alloc, glob)?)),
        Pattern::Ids(ids) => Ok(Pattern::Ids(copy_ids(alloc, ids.as_slice())?)),
        Pattern::And(inner) => Ok(Pattern::And(copy_patterns(alloc, inner.as_slice())?)),
        Pattern::Or(inner) => Ok(Pattern::Or(copy_patterns(alloc, inner.as_slice())?)),
        Pattern::Not(inner) => {
            let inner = copy_pattern(alloc, inner.get())?;
            Ok(Pattern::Not(Boxed::new(alloc, inner)?))
        }
        Pattern::HasVersion(version) => Ok(Pattern::HasVersion(copy_text(alloc, version)?)),
        Pattern::HasNoVersion => Ok(Pattern::HasNoVersion),
    }
}

#[cycle(copies)]
fn copy_patterns(alloc: Global, patterns: &[Pattern]) -> Result<Items<Pattern>, NoMemory>
    ensures { IfOk result (λ v. v ≡ patterns.now) }
{
    let mut copies = Items::new(alloc);
    for pattern in patterns {
        copies.push(copy_pattern(alloc, pattern)?)?;
    }
    Ok(copies)
}

/// The same route again. Linear.
#[cycle(route_copies)]
pub(crate) fn copy_route(alloc: Global, route: &Route) -> Result<Route, NoMemory>
    ensures { IfOk result (λ r. r ≡ route.now) }
{
    match route {
        Route::Id => Ok(Route::Id),
        Route::Extension(text) => Ok(Route::Extension(copy_text(alloc, text)?)),
        Route::Constant(text) => Ok(Route::Constant(copy_text(alloc, text)?)),
        Route::Gsub(old, new) => {
            let old = copy_text(alloc, old)?;
            Ok(Route::Gsub(old, copy_text(alloc, new)?))
        }
        Route::When(pattern, inner) => {
            let pattern = copy_pattern(alloc, pattern)?;
            let inner = copy_route(alloc, inner.get())?;
            Ok(Route::When(pattern, Boxed::new(alloc, inner)?))
        }
        Route::Compose(inner) => Ok(Route::Compose(copy_routes(alloc, inner.as_slice())?)),
        Route::First(inner) => Ok(Route::First(copy_routes(alloc, inner.as_slice())?)),
    }
}

#[cycle(route_copies)]
fn copy_routes(alloc: Global, routes: &[Route]) -> Result<Items<Route>, NoMemory>
    ensures { IfOk result (λ v. v ≡ routes.now) }
{
    let mut copies = Items::new(alloc);
    for route in routes {
        copies.push(copy_route(alloc, route)?)?;
    }
    Ok(copies)
}

pub(crate) fn copy_optional_route(
    alloc: Global,
    route: &Option<Route>,
) -> Result<Option<Route>, NoMemory>
    ensures { IfOk result (λ r. r ≡ route.now) }
{
    match route {
        Some(route) => Ok(Some(copy_route(alloc, route)?)),
        None => Ok(None),
    }
}

pub(crate) fn copy_step(alloc: Global, step: &Step) -> Result<Step, NoMemory>
    ensures { IfOk result (λ s. s ≡ step.now) }
{
    match step {
        Step::Body => Ok(Step::Body),
        Step::Str => Ok(Step::Str),
        Step::Copy => Ok(Step::Copy),
        Step::TemplateBody => Ok(Step::TemplateBody),
        Step::Make(text) => Ok(Step::Make(copy_text(alloc, text)?)),
        Step::Load { id, snapshot } => {
            let id = id.copy(alloc)?;
            let snapshot = copy_text(alloc, snapshot)?;
            Ok(Step::Load { id, snapshot })
        }
        Step::Concat(pattern) => Ok(Step::Concat(*pattern)),
        Step::Apply { id, context } => {
            let id = id.copy(alloc)?;
            let context = *context;
            Ok(Step::Apply { id, context })
        }
        Step::SelfApply(context) => Ok(Step::SelfApply(*context)),
        Step::Save(name) => Ok(Step::Save(copy_text(alloc, name)?)),
        Step::Relativize => Ok(Step::Relativize),
    }
}

fn copy_chain(alloc: Global, chain: &Chain) -> Result<Chain, NoMemory>
    ensures { IfOk result (λ c. c ≡ chain.now) }
{
    let mut steps = Vec::with_capacity(alloc, chain.steps.len())?;
    for step in &chain.steps {
        steps.push(copy_step(alloc, step)?)?;
    }
    Ok(Chain { steps })
}

pub(crate) fn copy_field(alloc: Global, field: &Field) -> Result<Field, NoMemory>
    ensures { IfOk result (λ f. f ≡ field.now) }
{
    match field {
        Field::Body => Ok(Field::Body),
        Field::Metadata => Ok(Field::Metadata),
        Field::Url => Ok(Field::Url),
        Field::Path => Ok(Field::Path),
        Field::Title => Ok(Field::Title),
        Field::Const(key, text) => {
            let key = copy_text(alloc, key)?;
            Ok(Field::Const(key, copy_text(alloc, text)?))
        }
        Field::Date(key, pattern) => {
            let key = copy_text(alloc, key)?;
            Ok(Field::Date(key, copy_text(alloc, pattern)?))
        }
        Field::Bool(key, flag) => Ok(Field::Bool(copy_text(alloc, key)?, *flag)),
        Field::Teaser(key, snapshot) => {
            let key = copy_text(alloc, key)?;
            Ok(Field::Teaser(key, copy_text(alloc, snapshot)?))
        }
        Field::List {
            key,
            of,
            snapshot,
            order,
            limit,
            context,
        } => {
            let key = copy_text(alloc, key)?;
            let snapshot = copy_text(alloc, snapshot)?;
            Ok(list_field(key, *of, snapshot, *order, *limit, *context))
        }
    }
}

fn list_field(
    key: Text,
    of: PatternNo,
    snapshot: Text,
    order: Order,
    limit: Option<u32>,
    context: ContextNo,
) -> Field
    ensures { result ≡ fields.List key of snapshot order limit context }
{
    Field::List {
        key,
        of,
        snapshot,
        order,
        limit,
        context,
    }
}

/// More fields that are the same as these.
pub(crate) fn push_fields(
    alloc: Global,
    out: &mut Vec<Field>,
    fields: &[Field],
) -> Result<(), NoMemory>
    ensures { OnOk result (out.new.items ≡ out.old.items ++ fields.now) }
{
    for field in fields {
        out.push(copy_field(alloc, field)?)?;
    }
    Ok(())
}

pub(crate) fn copy_contexts(alloc: Global, contexts: &[Context]) -> Result<Vec<Context>, NoMemory>
    ensures { IfOk result (λ v. v.items ≡ contexts.now) }
{
    let mut copies = Vec::with_capacity(alloc, contexts.len())?;
    for context in contexts {
        copies.push(copy_context(alloc, context)?)?;
    }
    Ok(copies)
}

fn copy_context(alloc: Global, context: &Context) -> Result<Context, NoMemory>
    ensures { IfOk result (λ c. c ≡ context.now) }
{
    let name = copy_text(alloc, &context.name)?;
    let mut fields = Vec::with_capacity(alloc, context.fields.len())?;
    push_fields(alloc, &mut fields, &context.fields)?;
    Ok(Context { name, fields })
}

pub(crate) fn copy_rules(alloc: Global, rules: &[Rule]) -> Result<Vec<Rule>, NoMemory>
    ensures { IfOk result (λ v. v.items ≡ rules.now) }
{
    let mut copies = Vec::with_capacity(alloc, rules.len())?;
    for rule in rules {
        copies.push(copy_rule(alloc, rule)?)?;
    }
    Ok(copies)
}

fn copy_rule(alloc: Global, rule: &Rule) -> Result<Rule, NoMemory>
    ensures { IfOk result (λ r. r ≡ rule.now) }
{
    let source = copy_source(alloc, &rule.source)?;
    let version = copy_optional(alloc, &rule.version)?;
    let route = copy_optional_route(alloc, &rule.route)?;
    let chain = copy_chain(alloc, &rule.chain)?;
    Ok(Rule {
        source,
        version,
        route,
        chain,
    })
}

fn copy_source(alloc: Global, source: &RuleSource) -> Result<RuleSource, NoMemory>
    ensures { IfOk result (λ s. s ≡ source.now) }
{
    match source {
        RuleSource::Match(pattern) => Ok(RuleSource::Match(copy_pattern(alloc, pattern)?)),
        RuleSource::Create(ids) => Ok(RuleSource::Create(copy_ids(alloc, ids.as_slice())?)),
    }
}

pub(crate) fn copy_feeds(alloc: Global, feeds: &[FeedRule]) -> Result<Vec<FeedRule>, NoMemory>
    ensures { IfOk result (λ v. v.items ≡ feeds.now) }
{
    let mut copies = Vec::with_capacity(alloc, feeds.len())?;
    for feed in feeds {
        copies.push(copy_feed(alloc, feed)?)?;
    }
    Ok(copies)
}

fn copy_feed(alloc: Global, feed: &FeedRule) -> Result<FeedRule, NoMemory>
    ensures { IfOk result (λ f. f ≡ feed.now) }
{
    Ok(FeedRule {
        kind: feed.kind,
        target: copy_text(alloc, &feed.target)?,
        of: copy_pattern(alloc, &feed.of)?,
        title: copy_text(alloc, &feed.title)?,
        description: copy_text(alloc, &feed.description)?,
        author: copy_text(alloc, &feed.author)?,
        root: copy_text(alloc, &feed.root)?,
        email: copy_optional(alloc, &feed.email)?,
        snapshot: copy_text(alloc, &feed.snapshot)?,
        limit: feed.limit,
    })
}
