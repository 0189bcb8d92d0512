//! The plan that rules make of a folder, and the reading of the rules file as it is offered to the crates above.
#![tactic(auto)]

mod clashes;
mod finding;
mod first_rule;
mod headers;
mod matched;
mod matching;
mod owner;
mod pairs;
mod plan;
mod plan_fault;
mod planning;
mod recipe;
mod resource;
mod site;
mod source_file;
mod sources;
mod targets;
mod universe;

pub use first_rule::first_rule_wins;
pub use hk_forms::text_of_pattern;
pub use hk_rules_file::{
    FeedKind, FeedRule, PageRule, Rule, RuleSource, Rules, RulesFault, TagRule, read_rules,
};
pub use plan::Plan;
pub use plan_fault::PlanFault;
pub use planning::make_plan;
pub use recipe::plans_give_recipes;
pub use resource::{is_companion, is_ignored};
