// Which pairs each item has.
ghost use Rattle.std.specs.Prelude.{◌≡◌, ◌+◌, ◌^◌, ◌<◌, ◌++◌, length, replicate, IfOk, OnOk};
ghost use Rattle.hk_chain.specs.Counts.{layout_of};
ghost use Rattle.hk_chain.specs.Layout.{IsLayout, IsShape, pairs, item_of, final_of};

use crate::numbers::{ItemNo, PairNo};
use hk_base::NoMemory;
use std::alloc::Global;
use std::marker::Model;

/// How many items there are, the item of each pair, and the pair of each item's finished page. The pairs stand item
/// after item, the finished page's pair as the last of its item.
#[derive(Debug, Drop)]
pub struct Layout {
    items: u32,
    pair_item: Vec<ItemNo>,
    final_pair: Vec<PairNo>,
}

impl Model for Layout {
    ghost use Rattle.hk_chain.specs.Layout.{Shape, IsLayout};

    ghost Value = { Shape };

    ghost view = { λ l. record { items = l.items; pair_item = l.pair_item.items; final_pair = l.final_pair.items } };

    ghost invariant = { λ l. IsLayout (record { items = l.items; pair_item = l.pair_item.items; final_pair = l.final_pair.items }) };
}

impl Layout {
    /// The layout with these lists. Constant.
    pub fn new(items: u32, pair_item: Vec<ItemNo>, final_pair: Vec<PairNo>) -> Layout
        requires { IsLayout (record { items = items; pair_item = pair_item.items; final_pair = final_pair.items }) }
        ensures { result ≡ record { items = items; pair_item = pair_item.items; final_pair = final_pair.items } }
    {
        Layout {
            items,
            pair_item,
            final_pair,
        }
    }

    /// The layout of items that save so many pages on their way, item after item. `NoMemory` only for want of memory.
    /// Linear in the pairs.
    pub fn of_counts(alloc: Global, counts: &[u32]) -> Result<Layout, NoMemory>
        requires items { length counts.now < 2 ^ 32 }
        requires pairs { pairs (layout_of counts.now) < 2 ^ 32 }
        ensures { IfOk result (λ l. l ≡ layout_of counts.now) }
    {
        let mut pair_item = Vec::new(alloc);
        let mut final_pair = Vec::with_capacity(alloc, counts.len())?;
        for i in 0..counts.len() {
            add_pairs(&mut pair_item, ItemNo(i as u32), counts[i])?;
            final_pair.push(PairNo((pair_item.len() - 1) as u32))?;
        }
        Ok(Layout {
            items: counts.len() as u32,
            pair_item,
            final_pair,
        })
    }

    /// How many items there are, and that every layout has the form of one. Constant.
    pub fn items(&self) -> u32
        ensures value { result ≡ self.now.items }
        ensures valid { IsLayout self.now }
    {
        self.items
    }

    /// How many pairs there are. Constant.
    pub fn pairs(&self) -> u32
        ensures value { result ≡ pairs self.now }
        ensures valid { IsLayout self.now }
    {
        self.pair_item.len() as u32
    }

    /// The item of a pair. Constant.
    pub fn item_of(&self, pair: PairNo) -> ItemNo
        requires { pair < pairs self.now }
        ensures value { result ≡ item_of self.now pair }
        ensures bound { result < self.now.items }
    {
        self.pair_item[pair.0 as usize]
    }

    /// The pair of an item's finished page. Constant.
    pub fn final_of(&self, item: ItemNo) -> PairNo
        requires { item < self.now.items }
        ensures value { result ≡ final_of self.now item }
        ensures bound { result < pairs self.now }
    {
        self.final_pair[item.0 as usize]
    }
}

/// The pairs of one more item.
fn add_pairs(pair_item: &mut Vec<ItemNo>, item: ItemNo, count: u32) -> Result<(), NoMemory>
    ensures { OnOk result (pair_item.new.items ≡ pair_item.old.items ++ replicate (count + 1) item) }
{
    for _ in 0..count {
        pair_item.push(item)?;
    }
    pair_item.push(item)?;
    Ok(())
}
