// The pages that were answered.
ghost use Rattle.std.specs.Prelude.{◌≡◌, ℕ, [], None, true, option_copied, OnOk};
ghost use Rattle.std.specs.List.{AllByRecursion};
ghost use Rattle.hk_fix.specs.Pages.{tell};
ghost use Rattle.hk_eval.specs.Told.{told_pages, is_listed};

use hk_base::NoMemory;
use hk_chain::{PageRef, PairNo};
use std::alloc::Global;
use std::collections::BTreeMap;
use std::marker::Model;

/// The asked pairs, each with its page once it was answered.
#[derive(Drop)]
pub struct Told {
    pages: BTreeMap<u32, Option<PageRef>>,
}

impl Model for Told {
    ghost use Rattle.hk_eval.specs.Told.{ToldView};

    ghost Value = { ToldView };

    ghost view = { λ t. t.pages.entries };
}

impl Told {
    /// Nothing was asked for. Constant.
    pub fn new(alloc: Global) -> Told
        ensures { result ≡ [] }
    {
        Told {
            pages: BTreeMap::new(alloc),
        }
    }

    /// The page of a pair, if it was answered. Logarithmic.
    pub fn get(&self, pair: PairNo) -> Option<&PageRef>
        ensures { option_copied result ≡ told_pages self.now pair }
    {
        match self.pages.get(&pair.0) {
            Some(Some(page)) => Some(page),
            _ => None,
        }
    }

    /// Makes room for the pages of pairs that weren't answered. `NoMemory` only for want of memory. Logarithmic for each.
    pub fn reserve(&mut self, pairs: &[PairNo]) -> Result<(), NoMemory>
        requires { AllByRecursion (λ p. told_pages self.old p ≡ None) pairs.now }
        ensures pages { (q : ℕ) → told_pages self.new q ≡ told_pages self.old q }
        ensures listed { OnOk result (AllByRecursion (λ p. is_listed self.new p ≡ true) pairs.now) }
    {
        for pair in pairs {
            self.list(*pair)?;
        }
        Ok(())
    }

    fn list(&mut self, pair: PairNo) -> Result<(), NoMemory>
        requires { told_pages self.old pair ≡ None }
        ensures pages { (q : ℕ) → told_pages self.new q ≡ told_pages self.old q }
        ensures listed { OnOk result (is_listed self.new pair ≡ true) }
        ensures kept { (q : ℕ) → is_listed self.old q ≡ true → is_listed self.new q ≡ true }
    {
        self.pages.insert(pair.0, None)?;
        Ok(())
    }

    /// Takes the page of a pair that has its room. Takes no memory. Logarithmic.
    pub fn answer(&mut self, pair: PairNo, page: PageRef)
        requires { is_listed self.old pair ≡ true }
        ensures pages { (q : ℕ) → told_pages self.new q ≡ tell (told_pages self.old) pair page q }
        ensures kept { (q : ℕ) → is_listed self.old q ≡ true → is_listed self.new q ≡ true }
    {
        match self.pages.insert(pair.0, Some(page)) {
            Ok(_) => {}
            Err(_) => unreachable!(),
        }
    }
}
