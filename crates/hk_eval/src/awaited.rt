// Pairs that were asked for and not answered.
ghost use Rattle.std.specs.Prelude.{◌≡◌, ◌<◌, [], length, not, nat_eq, filter, slice_index, Contains};
ghost use Rattle.std.specs.List.{IsDistinct};

use hk_chain::PairNo;
use std::alloc::Global;
use std::marker::Model;

/// Asked pairs that weren't answered, in order and each once.
#[derive(Drop)]
pub struct Awaited {
    pairs: Vec<PairNo>,
    /// How many of them were answered, those before the others.
    answered: usize,
}

impl Model for Awaited {
    ghost use Rattle.std.specs.Prelude.{ℕ, List, drop, nat_eq, ◌≤◌, length};
    ghost use Rattle.std.specs.List.{IsDistinct};

    ghost Value = { List ℕ };

    ghost view = { λ a. drop a.answered a.pairs.items };

    ghost invariant = { λ a. (a.answered ≤ length a.pairs.items) × IsDistinct nat_eq (drop a.answered a.pairs.items) };
}

impl Awaited {
    /// No pair. Constant.
    pub fn none(alloc: Global) -> Awaited
        ensures { result ≡ [] }
    {
        Awaited {
            pairs: Vec::new(alloc),
            answered: 0,
        }
    }

    /// These pairs. Constant.
    pub fn of(pairs: Vec<PairNo>) -> Awaited
        requires { IsDistinct nat_eq pairs.items }
        ensures { result ≡ pairs.items }
    {
        Awaited { pairs, answered: 0 }
    }

    /// The pairs, lent. Constant.
    pub fn as_slice(&self) -> &[PairNo]
        ensures { result.now ≡ self.now }
    {
        &self.pairs.as_slice()[self.answered..]
    }

    /// Takes out a pair. Takes no memory. Constant where it is the first, and else linear in the pairs: so taking out all
    /// of them in order is linear.
    pub fn take_out(&mut self, pair: PairNo)
        requires { Contains self.old pair }
        ensures { self.new ≡ filter (λ q. not (nat_eq pair q)) self.old }
    {
        let place = place_among(self.as_slice(), pair);
        if place == 0 {
            self.answered += 1;
        } else {
            self.pairs.remove(self.answered + place);
        }
    }

    /// The pairs. Takes no memory. Constant where none was taken out, and else linear.
    pub fn into_vec(self) -> Vec<PairNo>
        ensures { result.items ≡ self }
    {
        let Awaited {
            mut pairs,
            answered,
        } = self;
        let count = pairs.len() - answered;
        pairs.as_mut_slice().rotate_left(answered);
        pairs.truncate(count);
        pairs
    }
}

/// The first place of a member.
fn place_among(pairs: &[PairNo], pair: PairNo) -> usize
    requires { Contains pairs.now pair }
    ensures within { result < length pairs.now }
    ensures found { slice_index pairs.now result ≡ pair }
{
    for i in 0..pairs.len() {
        if pairs[i] == pair {
            return i;
        }
    }
    unreachable!()
}
