// Rules, as they were read.
use crate::tables::{FeedRule, PageRule, TagRule};
use hk_base::{Identifier, Text};
use hk_chain::{Chain, Context};
use hk_pattern::{Items, Pattern};
use hk_route::Route;
use std::marker::Model;

/// Of which paths a rule makes items.
#[derive(Debug, Drop)]
pub enum RuleSource {
    /// Each resource whose path the pattern matches.
    Match(Pattern),
    /// These paths, whether or not there is a resource.
    Create(Items<Identifier>),
}

/// What becomes of the items that a rule gives.
#[derive(Debug, Drop)]
pub struct Rule {
    pub source: RuleSource,
    /// The version of the rule's items.
    pub version: Option<Text>,
    /// What gives an item its target. Without a route there is none.
    pub route: Option<Route>,
    pub chain: Chain,
}

/// Rules and tables in the order of their file, with the contexts and the patterns that they name by number.
#[derive(Debug, Drop)]
pub struct Rules {
    pub rules: Vec<Rule>,
    /// By number; in the byte order of their names.
    pub contexts: Vec<Context>,
    /// By number; no two have the same text.
    pub patterns: Vec<Pattern>,
    /// At most 64, and so of the next two.
    pub tags: Vec<TagRule>,
    pub pages: Vec<PageRule>,
    pub feeds: Vec<FeedRule>,
}

impl Model for Rules {
    ghost use Rattle.std.specs.Coded.{codes};
    ghost use Rattle.hk_pattern.specs.contracts.pattern.Pattern as pattern;
    ghost use Rattle.hk_route.specs.contracts.route.Route as route;
    ghost use Rattle.hk_rules_file.specs.Rules.{RulesView};

    ghost Value = { RulesView };

    ghost coded = { Prim.hlevel (codes, pattern.the_row.coded, route.the_row.coded) };

    ghost view = { λ r. record { rules = r.rules.items; contexts = r.contexts.items; patterns = r.patterns.items; tags = r.tags.items; pages = r.pages.items; feeds = r.feeds.items } };
}
