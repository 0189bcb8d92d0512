// Pages and facts that are known before a run begins.
ghost use Rattle.std.specs.Prelude.{◌≡◌, IfOk, None, replicate};
ghost use Rattle.hk_chain.specs.Kept.{IsKept, at_place, none_kept};
ghost use Rattle.hk_chain.specs.Traces.{AllAreFacts};

use crate::facts::Facts;
use crate::layout::Layout;
use crate::page::PageRef;
use hk_base::NoMemory;
use std::alloc::Global;
use std::marker::Model;

/// A place for each pair's page and one for each item's facts. An item that is kept has all of them.
#[derive(Drop)]
pub struct Kept {
    pub pages: Vec<Option<PageRef>>,
    pub facts: Vec<Option<Facts>>,
}

impl Model for Kept {
    ghost use Rattle.hk_chain.specs.Kept.{KeptView};

    ghost Value = { KeptView };

    ghost view = { λ k. record { pages = k.pages.items; facts = k.facts.items } };
}

impl Kept {
    /// Nothing is known; so no item is kept. `NoMemory` only for want of memory. Linear in the layout.
    pub fn none(alloc: Global, layout: &Layout) -> Result<Kept, NoMemory>
        ensures value { IfOk result (λ k. k ≡ none_kept layout.now) }
        ensures kept { IsKept layout.now (none_kept layout.now) }
        ensures facts { AllAreFacts layout.now (at_place (none_kept layout.now).facts) }
    {
        Ok(Kept {
            pages: no_pages(alloc, layout.pairs())?,
            facts: no_facts(alloc, layout.items())?,
        })
    }

    /// The same pages, shared, and the same facts again. `NoMemory` only for want of memory. Linear in the pairs and the
    /// facts.
    pub fn copy(&self, alloc: Global) -> Result<Kept, NoMemory>
        ensures { IfOk result (λ k. k ≡ self.now) }
    {
        Ok(Kept {
            pages: same_pages(alloc, &self.pages)?,
            facts: same_facts(alloc, &self.facts)?,
        })
    }
}

fn same_pages(alloc: Global, pages: &[Option<PageRef>]) -> Result<Vec<Option<PageRef>>, NoMemory>
    ensures { IfOk result (λ v. v.items ≡ pages.now) }
{
    let mut same = Vec::with_capacity(alloc, pages.len())?;
    for page in pages {
        same.push(same_page(page)?)?;
    }
    Ok(same)
}

fn same_page(page: &Option<PageRef>) -> Result<Option<PageRef>, NoMemory>
    ensures { IfOk result (λ p. p ≡ page.now) }
{
    match page {
        Some(page) => Ok(Some(page.try_clone()?)),
        None => Ok(None),
    }
}

fn same_facts(alloc: Global, facts: &[Option<Facts>]) -> Result<Vec<Option<Facts>>, NoMemory>
    ensures { IfOk result (λ v. v.items ≡ facts.now) }
{
    let mut same = Vec::with_capacity(alloc, facts.len())?;
    for known in facts {
        same.push(facts_of(alloc, known)?)?;
    }
    Ok(same)
}

fn facts_of(alloc: Global, facts: &Option<Facts>) -> Result<Option<Facts>, NoMemory>
    ensures { IfOk result (λ f. f ≡ facts.now) }
{
    match facts {
        Some(facts) => Ok(Some(facts.copy(alloc)?)),
        None => Ok(None),
    }
}

fn no_pages(alloc: Global, count: u32) -> Result<Vec<Option<PageRef>>, NoMemory>
    ensures { IfOk result (λ v. v.items ≡ replicate count None) }
{
    let mut pages = Vec::with_capacity(alloc, count as usize)?;
    for _ in 0..count {
        pages.push(None)?;
    }
    Ok(pages)
}

fn no_facts(alloc: Global, count: u32) -> Result<Vec<Option<Facts>>, NoMemory>
    ensures { IfOk result (λ v. v.items ≡ replicate count None) }
{
    let mut facts = Vec::with_capacity(alloc, count as usize)?;
    for _ in 0..count {
        facts.push(None)?;
    }
    Ok(facts)
}
