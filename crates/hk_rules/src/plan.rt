// The plan of a site.
ghost use Rattle.std.specs.Prelude.{◌≡◌, ◌<◌, ◌≤◌, length, option_map, IfOk};
ghost use Rattle.hk_chain.specs.Layout.{pairs};
ghost use Rattle.hk_rules.specs.LinkedPlan.{IsLinkedPlan};
ghost use Rattle.hk_rules.specs.Pairs.{layout};
ghost use Rattle.hk_rules.specs.Plan.{lookups};
ghost use Rattle.hk_rules.specs.PlanView.{IsPlan};
ghost use Rattle.hk_rules.specs.Planning.{plan_by};

use crate::finding::item_with;
use crate::matched::Matched;
use crate::matching::matches_of;
use crate::owner::Owner;
use crate::pairs::{layout_of, name_before, pair_at};
use hk_base::{Identifier, NoMemory, Shared, Text};
use hk_chain::{Chain, Context, ContextNo, ItemNo, Layout, PairNo, PatternNo};
use hk_meta::{Metadata, Split};
use hk_pattern::Pattern;
use hk_rules_file::FeedRule;
use std::alloc::Global;
use std::marker::Model;

/// What is known of a site before a compiler runs: its items in identifier order, and of each who owns it, its header
/// and its target. In contracts it is these lists; `lookups` says what is told of them. Every plan is linked: the numbers
/// in its chains and contexts are those of contexts and patterns that there are, and the names of each kind differ. The
/// items that each pattern matches were found once, when the plan was made.
#[derive(Drop)]
pub struct Plan {
    items: Vec<(Identifier, Owner)>,
    headers: Vec<Split>,
    targets: Vec<Option<Text>>,
    contexts: Vec<Context>,
    patterns: Vec<Pattern>,
    feeds: Vec<FeedRule>,
    layout: Shared<Layout>,
    matches: Vec<Matched>,
}

impl Model for Plan {
    ghost use Rattle.std.specs.Prelude.{◌≡◌, map};
    ghost use Rattle.std.specs.Coded.{codes};
    ghost use Rattle.hk_pattern.specs.contracts.pattern.Pattern as pattern;
    ghost use Rattle.hk_route.specs.contracts.route.Route as route;
    ghost use Rattle.hk_rules.specs.LinkedPlan.{IsLinkedPlan};
    ghost use Rattle.hk_rules.specs.Pairs as pairs;
    ghost use Rattle.hk_rules.specs.Plan.{matches_in};
    ghost use Rattle.hk_rules.specs.PlanView.{PlanView, IsPlan};
    ghost use Rattle.hk_rules.specs.Planning.{plan_by};

    ghost Value = { PlanView };

    ghost coded = { Prim.hlevel (codes, pattern.the_row.coded, route.the_row.coded) };

    ghost view = { λ p. plan_by p.contexts.items p.patterns.items p.feeds.items p.items.items p.headers.items p.targets.items };

    ghost invariant = { λ p. let plan = plan_by p.contexts.items p.patterns.items p.feeds.items p.items.items p.headers.items p.targets.items in IsPlan plan × IsLinkedPlan plan × (p.layout ≡ pairs.layout p.items.items) × (p.matches.items ≡ map (matches_in p.items.items) p.patterns.items) };
}

impl Plan {
    /// The plan of items with their headers and targets. Linear in the items and their chains, and for each pattern one
    /// pass over the items, in which each glob and version in it is tested once on each item and each identifier in it is
    /// looked up once.
    pub(crate) fn of_parts(
        alloc: Global,
        items: Vec<(Identifier, Owner)>,
        headers: Vec<Split>,
        targets: Vec<Option<Text>>,
        contexts: Vec<Context>,
        patterns: Vec<Pattern>,
        feeds: Vec<FeedRule>,
    ) -> Result<Plan, NoMemory>
        requires plan { IsPlan (plan_by contexts.items patterns.items feeds.items items.items headers.items targets.items) }
        requires linked { IsLinkedPlan (plan_by contexts.items patterns.items feeds.items items.items headers.items targets.items) }
        ensures { IfOk result (λ p. p ≡ plan_by contexts.items patterns.items feeds.items items.items headers.items targets.items) }
    {
        let layout = layout_of(alloc, &items)?;
        let layout = Shared::new(alloc, layout)?;
        let matches = matches_of(alloc, &items, &patterns)?;
        Ok(Plan {
            items,
            headers,
            targets,
            contexts,
            patterns,
            feeds,
            layout,
            matches,
        })
    }
}

#[tactic(auto, unfolding(crate::specs::Plan::lookups))]
impl Plan {
    /// How many items there are, and that every plan has the form of one. Constant.
    pub fn count(&self) -> u32
        ensures value { result ≡ (lookups self.now).count }
        ensures items { result ≡ length self.now.items }
        ensures valid { IsPlan self.now }
    {
        self.items.len() as u32
    }

    /// Tells that the plan is linked. Constant.
    pub fn linked(&self)
        ensures { IsLinkedPlan self.now }
    {
        let _items = &self.items;
    }

    /// The pairs of the items, item after item: the names that a chain saves in chain order, and `_final` last. Constant.
    pub fn layout(&self) -> &Shared<Layout>
        ensures { result.now ≡ (lookups self.now).layout }
    {
        &self.layout
    }

    /// The identifier of an item. Constant.
    pub fn id(&self, item: ItemNo) -> &Identifier
        requires { item < length self.now.items }
        ensures { result.now ≡ (lookups self.now).id item }
    {
        &self.items[item.0 as usize].0
    }

    /// The steps of an item's compiler. Constant.
    pub fn chain(&self, item: ItemNo) -> &Chain
        requires { item < length self.now.items }
        ensures { result.now ≡ (lookups self.now).chain item }
    {
        &self.items[item.0 as usize].1.rule.get().chain
    }

    /// The path that an item is written to. Constant.
    pub fn target_of(&self, item: ItemNo) -> Option<&[u8]>
        requires { item < length self.now.items }
        ensures { option_map (λ t. t.now) result ≡ (lookups self.now).target_of item }
    {
        match &self.targets[item.0 as usize] {
            Some(target) => Some(target.as_slice()),
            None => None,
        }
    }

    /// What an item's file holds; nothing where no file belongs to the item. Constant.
    pub fn resource(&self, item: ItemNo) -> Option<&[u8]>
        requires { item < length self.now.items }
        ensures { option_map (λ t. t.now) result ≡ (lookups self.now).resource item }
    {
        match &self.items[item.0 as usize].1.source {
            Some(source) => Some(source.get().text.as_slice()),
            None => None,
        }
    }

    /// What the companion of an item's file holds. Constant.
    pub fn companion(&self, item: ItemNo) -> Option<&[u8]>
        requires { item < length self.now.items }
        ensures { option_map (λ t. t.now) result ≡ (lookups self.now).companion item }
    {
        match &self.items[item.0 as usize].1.source {
            Some(source) => match &source.get().companion {
                Some(text) => Some(text.get().as_slice()),
                None => None,
            },
            None => None,
        }
    }

    /// Where the body of an item's file starts. Constant.
    pub fn body_start(&self, item: ItemNo) -> usize
        requires { item < length self.now.items }
        ensures { result ≡ (lookups self.now).body_start item }
    {
        self.headers[item.0 as usize].body_start
    }

    /// The metadata of an item: its header's, and what its companion adds. Constant.
    pub fn meta(&self, item: ItemNo) -> &Metadata
        requires { item < length self.now.items }
        ensures { result.now ≡ (lookups self.now).meta item }
    {
        &self.headers[item.0 as usize].meta
    }

    /// A context by its number. Constant.
    pub fn context(&self, number: ContextNo) -> &Context
        requires { number < length self.now.contexts }
        ensures { result.now ≡ (lookups self.now).context number }
    {
        &self.contexts[number.0 as usize]
    }

    /// A pattern by its number. Constant.
    pub fn pattern(&self, number: PatternNo) -> &Pattern
        requires { number < length self.now.patterns }
        ensures { result.now ≡ (lookups self.now).pattern number }
    {
        &self.patterns[number.0 as usize]
    }

    /// The feeds that are made of the pages, in the order of the rules file. Constant.
    pub fn feeds(&self) -> &[FeedRule]
        ensures { result.now ≡ self.now.feeds }
    {
        self.feeds.as_slice()
    }

    /// How many patterns there are. Constant.
    pub fn pattern_count(&self) -> usize
        ensures { result ≡ length self.now.patterns }
    {
        self.patterns.len()
    }

    /// The number of the item with this identifier; `None` exactly where there is none. Logarithmic.
    pub fn find(&self, id: &Identifier) -> Option<ItemNo>
        ensures { result ≡ (lookups self.now).find id.now }
    {
        item_with(&self.items, id)
    }

    /// The pair of an item with this name; `None` exactly where the item has none. Linear in the item's chain.
    pub fn pair(&self, item: ItemNo, name: &[u8]) -> Option<PairNo>
        requires { item < length self.now.items }
        ensures { result ≡ (lookups self.now).pair item name.now }
    {
        let last = self.layout.get().final_of(item);
        pair_at(
            last,
            &self.items[item.0 as usize].1.rule.get().chain.steps,
            name,
        )
    }

    /// The name of a pair. Linear in the item's chain.
    pub fn pair_name(&self, pair: PairNo) -> &[u8]
        requires { pair < pairs (layout self.now.items) }
        ensures { result.now ≡ (lookups self.now).pair_name pair }
    {
        let layout = self.layout.get();
        let item = layout.item_of(pair);
        let last = layout.final_of(item);
        name_before(
            last,
            &self.items[item.0 as usize].1.rule.get().chain.steps,
            pair,
        )
    }

    /// The items whose identifiers the pattern matches, in order: they were found when the plan was made. Constant.
    pub fn matches(&self, number: PatternNo) -> &[ItemNo]
        requires { number < length self.now.patterns }
        ensures { result.now ≡ (lookups self.now).matches number }
    {
        self.matches[number.0 as usize].items.as_slice()
    }
}
