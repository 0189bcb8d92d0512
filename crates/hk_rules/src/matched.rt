// The items that a pattern matches.
use hk_chain::ItemNo;
use std::marker::Model;

/// The numbers of the items that a pattern matches, in order.
#[derive(Drop)]
pub struct Matched {
    pub items: Vec<ItemNo>,
}

impl Model for Matched {
    ghost use Rattle.std.specs.Prelude.{ℕ, List};

    ghost Value = { List ℕ };

    ghost view = { λ m. m.items.items };
}
