// Where an identifier stands among the items.
ghost use Rattle.std.specs.Prelude.{◌≡◌, ◌≤◌, length};
ghost use Rattle.std.specs.Map.{keys_of};
ghost use Rattle.std.specs.List.Sorted.{IsStrictlySortedBy};
ghost use Rattle.hk_base.specs.Identifier.{ident_cmp};
ghost use Rattle.hk_rules.specs.Plan.{find_in};

use crate::owner::Owner;
use hk_base::Identifier;
use hk_chain::ItemNo;
use std::cmp::Ordering;

/// The number of the item with this identifier. Logarithmic.
pub(crate) fn item_with(items: &[(Identifier, Owner)], id: &Identifier) -> Option<ItemNo>
    requires few { length items.now ≤ 65535 }
    requires sorted { IsStrictlySortedBy ident_cmp (keys_of items.now) }
    ensures { result ≡ find_in items.now id.now }
{
    let mut low = 0;
    let mut high = items.len();
    while low < high {
        let middle = low + (high - low) / 2;
        match id.cmp(&items[middle].0) {
            Ordering::Less => high = middle,
            Ordering::Equal => return Some(ItemNo(middle as u32)),
            Ordering::Greater => low = middle + 1,
        }
    }
    None
}
