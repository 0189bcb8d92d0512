// The steps of a compiler.
use crate::numbers::{ContextNo, PatternNo};
use hk_base::{Identifier, Text};
use std::marker::Model;

/// A step of a compiler, which changes the current page.
#[derive(Debug, Drop)]
pub enum Step {
    /// The resource after its header, as text.
    Body,
    /// The whole resource, as text.
    Str,
    /// The whole resource, as a file.
    Copy,
    /// The resource after its header, as a template.
    TemplateBody,
    /// The given text.
    Make(Text),
    /// The page that an item saves under a name.
    Load { id: Identifier, snapshot: Text },
    /// The finished pages of a pattern's items, one after the other.
    Concat(PatternNo),
    /// The rendering by an item's template.
    Apply { id: Identifier, context: ContextNo },
    /// The rendering of the page's own body.
    SelfApply(ContextNo),
    /// The page is saved under a name.
    Save(Text),
    /// The page's root URLs are made relative to the target.
    Relativize,
}

/// The steps of a compiler, in order.
#[derive(Debug, Drop)]
pub struct Chain {
    pub steps: Vec<Step>,
}

impl Model for Chain {
    ghost use Rattle.std.specs.Prelude.{List};
    ghost use Rattle.hk_chain.specs.declared.chain.Step.{Step};

    ghost Value = { List Step };

    ghost view = { λ c. c.steps.items };
}
