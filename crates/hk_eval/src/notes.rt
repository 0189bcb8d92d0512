// What a chain has used so far.
ghost use Rattle.std.specs.Prelude.{◌≡◌, ◌++◌, IfOk, MatchOption, OnOk};
ghost use Rattle.hk_fix.specs.Facts.{firsts};
ghost use Rattle.hk_eval.specs.Blocks.{block_nodes};
ghost use Rattle.hk_eval.specs.Noted.{no_facts, with_group, with_pattern, with_save};
ghost use Rattle.hk_eval.specs.Templates.{IsTreeOf};

use crate::block::Block;
use crate::parsed::Parsed;
use crate::seen::Seen;
use hk_base::NoMemory;
use hk_chain::{Facts, Mark, PageRef, PairNo, PatternNo};
use std::alloc::Global;
use std::collections::BTreeMap;
use std::marker::Model;

/// The facts of what a chain has done so far, and the templates that it parsed, which no contract sees.
#[derive(Drop)]
pub struct Notes {
    asks: Seen,
    patterns: Seen,
    trace: Vec<Mark>,
    /// The parsed templates, each at the number of its page's pair.
    parsed: BTreeMap<u32, Parsed>,
}

impl Model for Notes {
    ghost use Rattle.std.specs.Prelude.{map};
    ghost use Rattle.hk_chain.specs.Facts.{FactsView};

    ghost Value = { FactsView };

    ghost use Rattle.hk_chain.specs.Marks.{mark_view};

    ghost view = { λ n. record { asks = n.asks; patterns = n.patterns; trace = map mark_view n.trace.items } };
}

impl Notes {
    /// Nothing was used. Constant.
    pub fn new(alloc: Global) -> Notes
        ensures { result ≡ no_facts }
    {
        Notes {
            asks: Seen::new(alloc),
            patterns: Seen::new(alloc),
            trace: Vec::new(alloc),
            parsed: BTreeMap::new(alloc),
        }
    }

    /// A pattern was used. `NoMemory` only for want of memory. Logarithmic.
    pub fn note_pattern(&mut self, pattern: PatternNo) -> Result<(), NoMemory>
        ensures { OnOk result (self.new ≡ with_pattern self.old pattern) }
    {
        self.patterns.add(pattern.0)?;
        Ok(())
    }

    /// Pairs were asked for at once. `NoMemory` only for want of memory. Logarithmic for each.
    pub fn note_group(&mut self, alloc: Global, pairs: &[PairNo]) -> Result<(), NoMemory>
        ensures { OnOk result (self.new ≡ with_group self.old pairs.now) }
    {
        let fresh = add_all(alloc, &mut self.asks, pairs)?;
        if !fresh.is_empty() {
            self.trace.push(Mark::Asked(fresh))?;
        }
        Ok(())
    }

    /// A page was saved for a pair. `NoMemory` only for want of memory. Constant.
    pub fn note_save(&mut self, pair: PairNo) -> Result<(), NoMemory>
        ensures { OnOk result (self.new ≡ with_save self.old pair) }
    {
        self.trace.push(Mark::Saved(pair))?;
        Ok(())
    }

    /// One more owner of a template's nodes, where it was parsed for this pair from this text. A refusal counts as want of
    /// memory. Logarithmic, and linear in the text, which is compared.
    pub(crate) fn nodes(&self, pair: PairNo, text: &[u8]) -> Result<Option<Block>, NoMemory>
        ensures { IfOk result (λ o. MatchOption o (Unit {0}) (λ b. IsTreeOf text.now (block_nodes b))) }
    {
        match self.parsed.get(&pair.0) {
            Some(parsed) => parsed.nodes_of(text),
            None => Ok(None),
        }
    }

    /// Keeps the nodes of a pair's page, whose body has the tree. `NoMemory` only for want of memory. Logarithmic.
    pub(crate) fn keep(
        &mut self,
        pair: PairNo,
        page: &PageRef,
        block: &Block,
    ) -> Result<(), NoMemory>
        requires { IsTreeOf page.now.body (block_nodes block.now) }
        ensures { self.new ≡ self.old }
    {
        let parsed = Parsed::new(page, block)?;
        self.parsed.insert(pair.0, parsed)?;
        Ok(())
    }

    /// The facts. `NoMemory` only for want of memory. Linear in the asked pairs and the patterns.
    pub fn into_facts(self, alloc: Global) -> Result<Facts, NoMemory>
        ensures { IfOk result (λ f. f ≡ self) }
    {
        Ok(Facts {
            asks: pairs_in(alloc, self.asks.as_slice())?,
            patterns: patterns_in(alloc, self.patterns.as_slice())?,
            trace: self.trace,
        })
    }
}

/// Adds pairs, and gives those that are new.
fn add_all(alloc: Global, seen: &mut Seen, pairs: &[PairNo]) -> Result<Vec<PairNo>, NoMemory>
    ensures fresh { IfOk result (λ v. v.items ≡ firsts seen.old pairs.now) }
    ensures added { IfOk result (λ v. seen.new ≡ seen.old ++ firsts seen.old pairs.now) }
{
    let mut fresh = Vec::new(alloc);
    for pair in pairs {
        if seen.add(pair.0)? {
            fresh.push(*pair)?;
        }
    }
    Ok(fresh)
}

fn pairs_in(alloc: Global, numbers: &[u32]) -> Result<Vec<PairNo>, NoMemory>
    ensures { IfOk result (λ v. v.items ≡ numbers.now) }
{
    let mut pairs = Vec::with_capacity(alloc, numbers.len())?;
    for number in numbers {
        pairs.push(PairNo(*number))?;
    }
    Ok(pairs)
}

fn patterns_in(alloc: Global, numbers: &[u32]) -> Result<Vec<PatternNo>, NoMemory>
    ensures { IfOk result (λ v. v.items ≡ numbers.now) }
{
    let mut patterns = Vec::with_capacity(alloc, numbers.len())?;
    for number in numbers {
        patterns.push(PatternNo(*number))?;
    }
    Ok(patterns)
}
