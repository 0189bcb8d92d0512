// A page of a table before it is a rule.
use hk_base::Text;
use hk_chain::ItemNo;
use hk_pattern::Items;
use std::marker::Model;

/// A page's path, the items that it lists, in order, and the keys and texts of its own.
#[derive(Drop)]
pub(crate) struct TablePage {
    pub(crate) path: Text,
    pub(crate) members: Items<ItemNo>,
    pub(crate) own: Vec<(Text, Text)>,
}

impl Model for TablePage {
    ghost use Rattle.hk_tags.specs.Pages.{PageView};

    ghost Value = { PageView };

    ghost view = { λ p. record { path = p.path; members = p.members; own = p.own.items } };
}
