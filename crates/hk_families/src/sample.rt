// A small family of compilers, by which the trait is tried: each saves a page, asks for two pages at once, and then is
// done, or fails where its item is the last.
ghost use Rattle.std.specs.Prelude.{◌≡◌, ◌+◌, ◌<◌, ℕ, List, [], ◌∷◌, Bool, true, false, cond, ◌||◌, ◌&&◌, not, None, is_some, nat_eq, filter, take, Contains, IfOk};
ghost use Rattle.std.specs.List.{IsDistinct};
ghost use Rattle.hk_chain.specs.Facts.{group, save};
ghost use Rattle.hk_fix.specs.Facts.{is_in};
ghost use Rattle.hk_families.specs.Sample.{own_pair, last_pair, first_need, second_need, sample_meaning};
ghost use Rattle.hk_fix.specs.Meaning.{fresh};

use hk_base::{NoMemory, Text};
use hk_chain::{Facts, Fault, ItemNo, Kind, Mark, Page, PageRef, PairNo};
use hk_fix::{Compiler, Maker, Polled};
use std::alloc::Global;
use std::marker::Model;

#[derive(Drop)]
pub struct Sampler {
    item: ItemNo,
    own: PairNo,
    last: PairNo,
    first: PairNo,
    second: PairNo,
    page: PageRef,
    one: Option<PageRef>,
    two: Option<PageRef>,
    is_saved: bool,
    is_asked: bool,
    is_ended: bool,
    is_spent: bool,
    waits: Vec<PairNo>,
    seen: [PairNo; 3],
    count: usize,
}

impl Model for Sampler {
    ghost use Rattle.std.specs.Prelude.{◌≡◌, ◌≤◌, length, take};
    ghost use Rattle.hk_families.specs.Sample.{SampleView, Fits, empty_page, own_pair, last_pair, first_need, second_need, left_of};

    ghost Value = { SampleView };

    ghost view = { λ s. record { item = s.item; one = s.one; two = s.two; is_saved = s.is_saved; is_asked = s.is_asked; is_ended = s.is_ended; is_spent = s.is_spent; seen = take s.count s.seen } };

    ghost invariant = { λ s. Fits (record { item = s.item; one = s.one; two = s.two; is_saved = s.is_saved; is_asked = s.is_asked; is_ended = s.is_ended; is_spent = s.is_spent; seen = take s.count s.seen }) × (s.count ≤ 3) × (s.own ≡ own_pair s.item) × (s.last ≡ last_pair s.item) × (s.first ≡ first_need s.item) × (s.second ≡ second_need s.item) × (s.page ≡ empty_page) × (s.waits.items ≡ left_of s.first s.second s.one s.two) × (length s.seen ≡ 3) };
}

impl Compiler for Sampler {
    ghost use Rattle.hk_families.specs.Sample.{sample_shape, sample_run, sample_meaning};
    ghost use Rattle.hk_families.specs.SampleLaws.{sample-is_shape, sample-is_run};

    type Common = u32;

    ghost valid = { λ _. Unit {0} };

    ghost shape = { λ _. sample_shape };

    ghost run = { λ _. sample_run };

    ghost meaning = { sample_meaning };

    fn item(&self) -> ItemNo {
        self.item
    }

    fn poll(&mut self, alloc: Global) -> Result<Polled, NoMemory> {
        if self.is_spent {
            return Err(NoMemory);
        }
        if !self.is_saved {
            return match self.page.try_clone() {
                Ok(page) => {
                    self.is_saved = true;
                    Ok(Polled::Saved(self.own, page))
                }
                Err(refusal) => {
                    self.is_spent = true;
                    Err(refusal)
                }
            };
        }
        if !self.is_asked {
            self.is_asked = true;
            self.seen[0] = self.own;
            self.count = 1;
            return Ok(Polled::Ask);
        }
        if self.item.0 == 2 {
            self.is_ended = true;
            return Ok(Polled::Failed(Fault::TooDeep));
        }
        match finish(
            alloc,
            &self.page,
            self.own,
            self.last,
            self.first,
            self.second,
        ) {
            Ok(polled) => {
                self.is_ended = true;
                Ok(polled)
            }
            Err(refusal) => {
                self.is_spent = true;
                Err(refusal)
            }
        }
    }

    fn open_pairs(&self) -> &[PairNo] {
        if self.is_asked {
            &self.waits[..]
        } else {
            &self.waits[..0]
        }
    }

    fn answer(&mut self, pair: PairNo, page: PageRef) {
        take_out(&mut self.waits, pair);
        self.seen[self.count] = pair;
        self.count += 1;
        if pair == self.first {
            self.one = Some(page);
        } else {
            self.two = Some(page);
        }
    }

    fn into_open(self) -> Vec<PairNo> {
        let mut waits = self.waits;
        if !self.is_asked {
            waits.clear();
        }
        waits
    }

    fn used(&self) -> &[PairNo] {
        &self.seen[..self.count]
    }

    ghost shaped = { λ _ _. sample-is_shape };

    ghost laws = { λ _ _. sample-is_run };
}

/// Takes a member out of a list without repeats.
fn take_out(pairs: &mut Vec<PairNo>, pair: PairNo)
    requires has { Contains pairs.old.items pair }
    requires distinct { IsDistinct nat_eq pairs.old.items }
    ensures { pairs.new.items ≡ filter (λ q. not (nat_eq pair q)) pairs.old.items }
{
    for i in 0..pairs.len() {
        if pairs[i] == pair {
            pairs.remove(i);
            return;
        }
    }
}

fn finish(
    alloc: Global,
    page: &PageRef,
    own: PairNo,
    last: PairNo,
    first: PairNo,
    second: PairNo,
) -> Result<Polled, NoMemory>
    ensures { IfOk result (λ p. p ≡ Polled.Done page.now (record { asks = first ∷ second ∷ []; patterns = []; trace = save own ∷ group (first ∷ second ∷ []) ∷ save last ∷ [] })) }
{
    let page = page.try_clone()?;
    let asks = pair_of(alloc, first, second)?;
    let group = pair_of(alloc, first, second)?;
    let mut trace = Vec::new(alloc);
    trace.push(Mark::Saved(own))?;
    trace.push(Mark::Asked(group))?;
    trace.push(Mark::Saved(last))?;
    Ok(Polled::Done(
        page,
        Facts {
            asks,
            patterns: Vec::new(alloc),
            trace,
        },
    ))
}

fn pair_of(alloc: Global, first: PairNo, second: PairNo) -> Result<Vec<PairNo>, NoMemory>
    ensures { IfOk result (λ v. v.items ≡ first ∷ second ∷ []) }
{
    let mut pairs = Vec::new(alloc);
    pairs.push(first)?;
    pairs.push(second)?;
    Ok(pairs)
}

/// Makes the compilers of the family.
#[derive(Drop)]
pub struct SampleMaker {
    pub family: u32,
    ghost only: { family ≡ 0 },
}

impl SampleMaker {
    pub fn new() -> SampleMaker
        ensures { result.family ≡ 0 }
    {
        SampleMaker { family: 0 }
    }
}

impl Maker for SampleMaker {
    type M = Sampler;

    ghost common_is = { λ m. m.family };

    fn common(&self, _alloc: Global) -> Result<u32, NoMemory> {
        Ok(self.family)
    }

    fn make(&self, alloc: Global, item: ItemNo) -> Result<Sampler, NoMemory> {
        made(alloc, item)
    }

    ghost made = { λ _. tt };
}

fn made(alloc: Global, item: ItemNo) -> Result<Sampler, NoMemory>
    requires { item < 3 }
    ensures { IfOk result (λ s. sample_meaning s ≡ fresh 0 item) }
{
    let page = Page {
        kind: Kind::Text,
        body: Text::from_vec(Vec::new(alloc)),
    };
    let first = first_of(item);
    let second = second_of(item);
    let own = own_of(item);
    Ok(Sampler {
        item,
        own,
        last: PairNo(own.0 + 1),
        first,
        second,
        page: PageRef::new(alloc, page)?,
        one: None,
        two: None,
        is_saved: false,
        is_asked: false,
        is_ended: false,
        is_spent: false,
        waits: pair_of(alloc, first, second)?,
        seen: [own; 3],
        count: 0,
    })
}

fn own_of(item: ItemNo) -> PairNo
    requires { item < 3 }
    ensures own { result ≡ own_pair item }
    ensures last { result + 1 ≡ last_pair item }
{
    PairNo(2 * item.0)
}

fn first_of(item: ItemNo) -> PairNo
    requires { item < 3 }
    ensures { result ≡ first_need item }
{
    PairNo(if item.0 == 0 { 2 } else { 0 })
}

fn second_of(item: ItemNo) -> PairNo
    requires { item < 3 }
    ensures { result ≡ second_need item }
{
    PairNo(match item.0 {
        0 => 4,
        1 => 5,
        _ => 2,
    })
}
