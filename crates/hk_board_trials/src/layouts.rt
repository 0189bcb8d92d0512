// Layouts, what is kept, facts and pages.
use crate::texts;
use hk_base::NoMemory;
use hk_chain::{Facts, ItemNo, Kept, Layout, Mark, PairNo};
use std::alloc::Global;
use std::test::Fail;

fn counted(alloc: Global) -> Result<Layout, NoMemory> {
    Layout::of_counts(alloc, &[1, 0, 2])
}

/// The item of each pair.
fn pair_items(alloc: Global, layout: &Layout) -> Result<Vec<ItemNo>, NoMemory> {
    let mut items = Vec::new(alloc);
    for pair in 0..layout.pairs() {
        items.push(layout.item_of(PairNo(pair)))?;
    }
    Ok(items)
}

/// The last pair of each item.
fn final_pairs(alloc: Global, layout: &Layout) -> Result<Vec<PairNo>, NoMemory> {
    let mut pairs = Vec::new(alloc);
    for item in 0..layout.items() {
        pairs.push(layout.final_of(ItemNo(item)))?;
    }
    Ok(pairs)
}

/// The item of each pair and the last pair of each item, where the items save one page, none and two.
pub fn layout(alloc: Global) -> Result<String, Fail> {
    let layout = counted(alloc)?;
    let items = pair_items(alloc, &layout)?;
    let pairs = final_pairs(alloc, &layout)?;
    Ok(format!(in alloc; "{items:?} {pairs:?}")?)
}

fn none_kept(alloc: Global) -> Result<Kept, NoMemory> {
    Kept::none(alloc, &counted(alloc)?)
}

/// How many pages and facts there are where nothing is kept, and in a copy of that.
pub fn kept(alloc: Global) -> Result<String, Fail> {
    let kept = none_kept(alloc)?;
    let again = kept.copy(alloc)?;
    let (pages, facts) = (kept.pages.len(), kept.facts.len());
    let (again_pages, again_facts) = (again.pages.len(), again.facts.len());
    Ok(format!(in alloc; "{pages} {facts} {again_pages} {again_facts}")?)
}

/// A copy of facts.
pub fn facts(alloc: Global) -> Result<String, Fail> {
    let group = vec![in alloc; PairNo(1)]?;
    let facts = Facts {
        asks: Vec::new(alloc),
        patterns: Vec::new(alloc),
        trace: vec![in alloc; Mark::Asked(group), Mark::Saved(PairNo(0))]?,
    };
    let again = facts.copy(alloc)?;
    Ok(format!(in alloc; "{again:?}")?)
}

/// How long the body of a page is by way of a second owner.
pub fn page(alloc: Global) -> Result<String, Fail> {
    let second = texts::page(alloc)?.try_clone()?;
    let length = second.get().body.as_slice().len();
    Ok(format!(in alloc; "{length}")?)
}
