//! The rules file as a whole: its contexts, its rules, and the numbers of what they name.
#![tactic(auto)]

mod context_form;
mod draft_rule;
mod fault;
mod feed_form;
mod field_linking;
mod laws;
mod linking;
mod numbering;
mod pages_form;
mod reading;
mod rule_form;
mod rules;
mod saves;
mod table_form;
mod tables;
mod tags_form;

pub use fault::RulesFault;
pub use laws::rules_laws;
pub use numbering::Pool;
pub use reading::read_rules;
pub use rules::{Rule, RuleSource, Rules};
pub use saves::saved;
pub use tables::{FeedKind, FeedRule, PageRule, TagRule};
