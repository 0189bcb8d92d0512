// The numbers of patterns and of contexts.
ghost use Rattle.std.specs.Prelude.{◌≡◌, [], ◌++◌, ◌∷◌, IfOk, length, option_map};
ghost use Rattle.std.specs.Ordering.{nat_cmp};
ghost use Rattle.std.specs.Cmp.Lexicographic.{slice_cmp};
ghost use Rattle.std.specs.BTreeMap.{get};
ghost use Rattle.hk_rules_file.specs.Numbering as spec;

use hk_base::{NoMemory, Text};
use hk_chain::{ContextNo, PatternNo};
use hk_forms::text_of_pattern;
use hk_pattern::Pattern;
use std::alloc::Global;
use std::collections::BTreeMap;
use std::marker::Model;

/// Patterns by number. No two have the same text. In contracts it is their list.
#[derive(Drop)]
pub struct Pool {
    patterns: Vec<Pattern>,
    numbers: BTreeMap<Text, u32>,
}

impl Model for Pool {
    ghost use Rattle.std.specs.Prelude.{◌≡◌, List};
    ghost use Rattle.std.specs.Ordering.{nat_cmp};
    ghost use Rattle.std.specs.Cmp.Lexicographic.{slice_cmp};
    ghost use Rattle.std.specs.BTreeMap.{get};
    ghost use Rattle.std.specs.Coded.{codes};
    ghost use Rattle.hk_base.specs.Bytes.{Bytes};
    ghost use Rattle.hk_pattern.specs.declared.pattern.Pattern.{Pattern};
    ghost use Rattle.hk_pattern.specs.contracts.pattern.Pattern as pattern;
    ghost use Rattle.hk_rules_file.specs.Numbering.{place_of, texts_of};

    ghost Value = { List Pattern };

    ghost coded = { Prim.hlevel (codes, pattern.the_row.coded) };

    ghost view = { λ p. p.patterns.items };

    ghost invariant = { λ p. (text : Bytes) → get (slice_cmp nat_cmp) p.numbers text ≡ place_of text (texts_of p.patterns.items) };
}

impl Pool {
    /// No patterns. Constant.
    pub fn new(alloc: Global) -> Pool
        ensures { result ≡ [] }
    {
        Pool {
            patterns: Vec::new(alloc),
            numbers: BTreeMap::new(alloc),
        }
    }

    /// The patterns. Constant.
    pub fn into_patterns(self) -> Vec<Pattern>
        ensures { result.items ≡ self }
    {
        self.patterns
    }

    /// The number of a pattern, and the patterns with it: one whose text is there has the number of that one, and another
    /// goes last. `NoMemory` only for want of memory. Linear in the pattern, logarithmic in the patterns.
    pub fn number(self, alloc: Global, pattern: Pattern) -> Result<(PatternNo, Pool), NoMemory>
        ensures { IfOk result (λ r. (r.0, r.1) ≡ spec.numbered self pattern) }
    {
        let text = text_of_pattern(alloc, &pattern)?;
        if let Some(number) = self.numbers.get(&text) {
            return Ok((PatternNo(*number), self));
        }
        let Pool {
            mut patterns,
            mut numbers,
        } = self;
        let number = number_of(patterns.as_slice().len())?;
        numbers.insert(text, number)?;
        patterns.push(pattern)?;
        Ok((PatternNo(number), Pool { patterns, numbers }))
    }
}

/// More than 2^32 count as want of memory.
fn number_of(count: usize) -> Result<u32, NoMemory>
    ensures { IfOk result (λ n. n ≡ count) }
{
    match u32::try_from(count) {
        Ok(number) => Ok(number),
        Err(_) => Err(NoMemory),
    }
}

/// The names of the contexts, by number.
#[derive(Drop)]
pub(crate) struct Names {
    names: Vec<Text>,
    numbers: BTreeMap<Text, u32>,
}

impl Model for Names {
    ghost use Rattle.std.specs.Prelude.{◌≡◌, List};
    ghost use Rattle.std.specs.Ordering.{nat_cmp};
    ghost use Rattle.std.specs.Cmp.Lexicographic.{slice_cmp};
    ghost use Rattle.std.specs.BTreeMap.{get};
    ghost use Rattle.hk_base.specs.Bytes.{Bytes};
    ghost use Rattle.hk_rules_file.specs.Numbering.{place_of};

    ghost Value = { List Bytes };

    ghost view = { λ n. n.names.items };

    ghost invariant = { λ n. (text : Bytes) → get (slice_cmp nat_cmp) n.numbers text ≡ place_of text n.names.items };
}

impl Names {
    pub(crate) fn new(alloc: Global) -> Names
        ensures { result ≡ [] }
    {
        Names {
            names: Vec::new(alloc),
            numbers: BTreeMap::new(alloc),
        }
    }

    /// The names with one more, unless it is there already.
    pub(crate) fn with(self, alloc: Global, name: &[u8]) -> Result<Names, NoMemory>
        ensures { IfOk result (λ r. r ≡ spec.with_name self name.now) }
    {
        let text = Text::from_slice(alloc, name)?;
        if let Some(_) = self.numbers.get(&text) {
            return Ok(self);
        }
        let Names {
            mut names,
            mut numbers,
        } = self;
        let number = number_of(names.as_slice().len())?;
        numbers.insert(text, number)?;
        names.push(Text::from_slice(alloc, name)?)?;
        Ok(Names { names, numbers })
    }

    /// The number of the context of this name. Logarithmic.
    pub(crate) fn find(&self, name: &Text) -> Option<ContextNo>
        ensures { result ≡ spec.place_of name.now self.now }
    {
        match self.numbers.get(name) {
            Some(number) => Some(ContextNo(*number)),
            None => None,
        }
    }
}
