// Contexts: the values that a template's keys have.
use crate::numbers::{ContextNo, PatternNo};
use hk_base::Text;
use std::marker::Model;

/// The order of a list's items.
#[derive(Clone, Copy, Debug, PartialEq, Eq)]
pub enum Order {
    Id,
    Chronological,
    Recent,
}

/// A field of a context. A text in front is the key.
#[derive(Debug, Drop)]
pub enum Field {
    Body,
    Metadata,
    Url,
    Path,
    Title,
    /// A key and its text.
    Const(Text, Text),
    /// A key and the pattern by which the date is printed.
    Date(Text, Text),
    /// A key and its flag.
    Bool(Text, bool),
    /// A key and the name of the page whose teaser it gives.
    Teaser(Text, Text),
    /// A key and a pattern's items, each rendered in a context of the list's own.
    List {
        key: Text,
        of: PatternNo,
        snapshot: Text,
        order: Order,
        limit: Option<u32>,
        context: ContextNo,
    },
}

/// A name and its fields. The first field that has a key wins.
#[derive(Debug, Drop)]
pub struct Context {
    pub name: Text,
    pub fields: Vec<Field>,
}

impl Model for Context {
    ghost use Rattle.hk_chain.specs.Context.{ContextView};

    ghost Value = { ContextView };

    ghost view = { λ c. record { name = c.name; fields = c.fields.items } };
}
