// What a compiler used on its way.
ghost use Rattle.std.specs.Prelude.{◌≡◌, map, IfOk};
ghost use Rattle.hk_chain.specs.Marks.{mark_view};

use crate::numbers::{PairNo, PatternNo};
use hk_base::NoMemory;
use std::alloc::Global;
use std::marker::Model;

/// A step of a trace: a group of pairs that were asked for at once, or a page that was saved.
#[derive(Debug, Drop)]
pub enum Mark {
    Asked(Vec<PairNo>),
    Saved(PairNo),
}

/// The asked pairs and the used patterns, each once at the place of its first use, and the trace: groups and saves in
/// their order, each pair in the first group that asked for it, and no empty group.
#[derive(Debug, Drop)]
pub struct Facts {
    pub asks: Vec<PairNo>,
    pub patterns: Vec<PatternNo>,
    pub trace: Vec<Mark>,
}

impl Model for Facts {
    ghost use Rattle.std.specs.Prelude.{map};
    ghost use Rattle.hk_chain.specs.Facts.{FactsView};

    ghost Value = { FactsView };

    ghost use Rattle.hk_chain.specs.Marks.{mark_view};

    ghost view = { λ f. record { asks = f.asks.items; patterns = f.patterns.items; trace = map mark_view f.trace.items } };
}

impl Facts {
    /// The same facts again. `NoMemory` only for want of memory. Linear in the asked pairs, the patterns and the trace.
    pub fn copy(&self, alloc: Global) -> Result<Facts, NoMemory>
        ensures { IfOk result (λ f. f ≡ self.now) }
    {
        Ok(Facts {
            asks: Vec::from_slice(alloc, &self.asks)?,
            patterns: Vec::from_slice(alloc, &self.patterns)?,
            trace: same_marks(alloc, &self.trace)?,
        })
    }
}

fn same_marks(alloc: Global, marks: &[Mark]) -> Result<Vec<Mark>, NoMemory>
    ensures { IfOk result (λ v. map mark_view v.items ≡ map mark_view marks.now) }
{
    let mut same = Vec::with_capacity(alloc, marks.len())?;
    for mark in marks {
        same.push(same_mark(alloc, mark)?)?;
    }
    Ok(same)
}

fn same_mark(alloc: Global, mark: &Mark) -> Result<Mark, NoMemory>
    ensures { IfOk result (λ m. mark_view m ≡ mark_view mark.now) }
{
    match mark {
        Mark::Asked(pairs) => Ok(Mark::Asked(Vec::from_slice(alloc, pairs)?)),
        Mark::Saved(pair) => Ok(Mark::Saved(*pair)),
    }
}
