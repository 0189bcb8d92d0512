// A small family of compilers, by which the board is tried: each saves a page on its way and loads the other's, before or
// after.
ghost use Rattle.std.specs.Prelude.{◌≡◌, ◌<◌, ◌+◌, ◌∷◌, [], IfOk, true};
ghost use Rattle.hk_fix.specs.Meaning.{fresh};
ghost use Rattle.hk_families.specs.Mutual.{own_pair, other_pair, last_pair, mutual_meaning, mutual_facts, Fits, Keeps, Finishes};

use hk_base::{NoMemory, Text};
use hk_chain::{Facts, ItemNo, Kind, Mark, Page, PageRef, PairNo};
use hk_fix::{Compiler, Maker, Polled};
use std::alloc::Global;
use std::marker::Model;

#[derive(Drop)]
pub struct Mutual {
    early: bool,
    item: ItemNo,
    told: Option<PageRef>,
    is_saved: bool,
    is_asked: bool,
    is_ended: bool,
    is_spent: bool,
    page: PageRef,
    waits: Vec<PairNo>,
    /// Its own pair, the other's, and its own again.
    pairs: [PairNo; 3],
}

impl Model for Mutual {
    ghost use Rattle.std.specs.Prelude.{◌≡◌, [], ◌∷◌};
    ghost use Rattle.hk_families.specs.Mutual.{MutualView, Fits, mutual_page, own_pair, other_pair};

    ghost Value = { MutualView };

    ghost view = { λ m. record { early = m.early; item = m.item; told = m.told; is_saved = m.is_saved; is_asked = m.is_asked; is_ended = m.is_ended; is_spent = m.is_spent } };

    ghost invariant = { λ m. Fits (record { early = m.early; item = m.item; told = m.told; is_saved = m.is_saved; is_asked = m.is_asked; is_ended = m.is_ended; is_spent = m.is_spent }) × (m.page ≡ mutual_page) × (m.waits.items ≡ other_pair m.item ∷ []) × (m.pairs ≡ own_pair m.item ∷ other_pair m.item ∷ own_pair m.item ∷ []) };
}

impl Compiler for Mutual {
    ghost use Rattle.hk_families.specs.Mutual.{mutual_shape, mutual_run, mutual_meaning};
    ghost use Rattle.hk_families.specs.MutualLaws.{mutual-is_shape, mutual-is_run};

    type Common = bool;

    ghost valid = { λ _. Unit {0} };

    ghost shape = { λ _. mutual_shape };

    ghost run = { mutual_run };

    ghost meaning = { mutual_meaning };

    fn item(&self) -> ItemNo {
        self.item
    }

    fn poll(&mut self, alloc: Global) -> Result<Polled, NoMemory> {
        if self.is_spent {
            return Err(NoMemory);
        }
        if self.early && !self.is_saved {
            return self.save();
        }
        if !self.is_asked {
            self.is_asked = true;
            return Ok(Polled::Ask);
        }
        if !self.is_saved {
            return self.save();
        }
        self.finish(alloc)
    }

    fn open_pairs(&self) -> &[PairNo] {
        if self.is_asked && self.told.is_none() {
            &self.waits[..]
        } else {
            &self.waits[..0]
        }
    }

    fn answer(&mut self, _pair: PairNo, page: PageRef) {
        self.told = Some(page);
    }

    fn into_open(self) -> Vec<PairNo> {
        let mut waits = self.waits;
        if !self.is_asked || self.told.is_some() {
            waits.clear();
        }
        waits
    }

    fn used(&self) -> &[PairNo] {
        let first = if self.early {
            self.is_asked
        } else {
            self.told.is_some()
        };
        let second = if self.early {
            self.told.is_some()
        } else {
            self.is_ended
        };
        let from = if self.early { 0 } else { 1 };
        let to = from + usize::from(first) + usize::from(second);
        let pairs = &self.pairs[..];
        &pairs[from..to]
    }

    ghost shaped = { λ _ _. mutual-is_shape };

    ghost laws = { λ c _. mutual-is_run c };
}

impl Mutual {
    /// Saves its page on the way.
    fn save(&mut self) -> Result<Polled, NoMemory>
        requires { Fits (record self.old { is_saved = true }) }
        ensures { Keeps self.old result self.new }
    {
        match self.page.try_clone() {
            Ok(page) => {
                self.is_saved = true;
                Ok(Polled::Saved(self.pairs[0], page))
            }
            Err(refusal) => {
                self.is_spent = true;
                Err(refusal)
            }
        }
    }

    /// Gives its finished page.
    fn finish(&mut self, alloc: Global) -> Result<Polled, NoMemory>
        requires { Fits (record self.old { is_ended = true }) }
        ensures { Finishes self.old result self.new }
    {
        match finished(alloc, self.early, &self.page, self.item) {
            Ok(polled) => {
                self.is_ended = true;
                Ok(polled)
            }
            Err(refusal) => {
                self.is_spent = true;
                Err(refusal)
            }
        }
    }
}

fn finished(alloc: Global, early: bool, page: &PageRef, item: ItemNo) -> Result<Polled, NoMemory>
    requires { item < 2 }
    ensures { IfOk result (λ p. p ≡ Polled.Done page.now (mutual_facts early item)) }
{
    let page = page.try_clone()?;
    let own = own_of(item);
    let other = other_of(item);
    let mut asks = Vec::new(alloc);
    asks.push(other)?;
    let mut group = Vec::new(alloc);
    group.push(other)?;
    let mut trace = Vec::new(alloc);
    if early {
        trace.push(Mark::Saved(own))?;
        trace.push(Mark::Asked(group))?;
    } else {
        trace.push(Mark::Asked(group))?;
        trace.push(Mark::Saved(own))?;
    }
    trace.push(Mark::Saved(PairNo(own.0 + 1)))?;
    Ok(Polled::Done(
        page,
        Facts {
            asks,
            patterns: Vec::new(alloc),
            trace,
        },
    ))
}

fn own_of(item: ItemNo) -> PairNo
    requires { item < 2 }
    ensures own { result ≡ own_pair item }
    ensures last { result + 1 ≡ last_pair item }
{
    PairNo(2 * item.0)
}

fn other_of(item: ItemNo) -> PairNo
    requires { item < 2 }
    ensures { result ≡ other_pair item }
{
    PairNo(if item.0 == 0 { 2 } else { 0 })
}

/// Makes the compilers of the family.
#[derive(Drop)]
pub struct MutualMaker {
    pub early: bool,
}

impl Maker for MutualMaker {
    type M = Mutual;

    ghost common_is = { λ m. m.early };

    fn common(&self, _alloc: Global) -> Result<bool, NoMemory> {
        Ok(self.early)
    }

    fn make(&self, alloc: Global, item: ItemNo) -> Result<Mutual, NoMemory> {
        made(alloc, self.early, item)
    }

    ghost made = { λ _. tt };
}

fn made(alloc: Global, early: bool, item: ItemNo) -> Result<Mutual, NoMemory>
    requires { item < 2 }
    ensures { IfOk result (λ m. mutual_meaning m ≡ fresh early item) }
{
    let page = Page {
        kind: Kind::Text,
        body: Text::from_vec(Vec::new(alloc)),
    };
    let own = own_of(item);
    let other = other_of(item);
    let mut waits = Vec::new(alloc);
    waits.push(other)?;
    Ok(Mutual {
        early,
        item,
        told: None,
        is_saved: false,
        is_asked: false,
        is_ended: false,
        is_spent: false,
        page: PageRef::new(alloc, page)?,
        waits,
        pairs: [own, other, own],
    })
}
