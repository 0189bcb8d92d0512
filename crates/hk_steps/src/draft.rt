// What a rules file says before names of contexts and patterns become numbers.
ghost use Rattle.std.specs.Prelude.{◌≡◌, [], ◌∷◌, ◌++◌, OnOk};

use hk_base::{Identifier, Text};
use hk_chain::{Field, Order, Step};
use hk_pattern::Pattern;
use std::alloc::{AllocError, Global};
use std::marker::Model;

/// A step.
#[derive(Debug, Drop)]
pub enum DraftStep {
    /// A step that names no context and no pattern.
    Ready(Step),
    /// The finished pages of the pattern's items, one after the other.
    Concat(Pattern),
    /// The rendering by an item's template in the context of this name.
    Apply { id: Identifier, context: Text },
    /// The rendering of the page's own body in the context of this name.
    SelfApply(Text),
}

/// A member of the fields of a context.
#[derive(Debug, Drop)]
pub enum DraftField {
    /// The fields of the context that is built in.
    Default,
    /// A field that names no context and no pattern.
    Whole(Field),
    /// The pattern's items as a list, each in the context of this name.
    Several {
        key: Text,
        of: Pattern,
        snapshot: Text,
        order: Order,
        limit: Option<u32>,
        context: Text,
    },
}

/// A list that contracts see as its members.
#[derive(Debug, Drop)]
pub struct Drafts<T> {
    list: Vec<T>,
}

impl<T> Model for Drafts<T> {
    ghost use Rattle.std.specs.Prelude.{List};
    ghost use Rattle.std.specs.Coded.{coded_list};

    ghost Value = { List T };

    ghost coded = { coded_list T.code };

    ghost view = { λ d. d.list.items };
}

impl<T> Drafts<T> {
    /// No members. Constant.
    pub fn new(alloc: Global) -> Drafts<T>
        ensures { result ≡ [] }
    {
        Drafts {
            list: Vec::new(alloc),
        }
    }

    /// The members, lent. Constant.
    pub fn as_slice(&self) -> &[T]
        ensures { result.now ≡ self.now }
    {
        &self.list
    }

    /// The members. Constant.
    pub fn into_vec(self) -> Vec<T>
        ensures { result.items ≡ self }
    {
        self.list
    }
}

impl<T: Drop> Drafts<T> {
    /// One more member at the end. `AllocError` only for want of memory. Constant but for the growth of the list.
    pub fn push(&mut self, member: T) -> Result<(), AllocError>
        ensures { OnOk result (self.new ≡ self.old ++ member ∷ []) }
    {
        self.list.push(member)?;
        Ok(())
    }
}
