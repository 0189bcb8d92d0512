// A rule before the contexts and the patterns that it names are numbered.
use crate::rules::RuleSource;
use hk_base::Text;
use hk_route::Route;
use hk_steps::{DraftStep, Drafts};

/// A rule.
#[derive(Debug, Drop)]
pub(crate) struct DraftRule {
    pub(crate) source: RuleSource,
    pub(crate) version: Option<Text>,
    pub(crate) route: Option<Route>,
    pub(crate) steps: Drafts<DraftStep>,
}
