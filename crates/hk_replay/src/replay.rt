// A replay: a compiler that goes through a record, and on as another compiler where the record breaks.
ghost use Rattle.std.specs.Prelude.{◌≡◌, ◌<◌, ◌++◌, ◌∷◌, ◌≤◌, [], length};
ghost use Rattle.std.specs.Vec.{vec_capacity};

use crate::record::Records;
use crate::way::{Way, go};
use hk_base::{NoMemory, Shared};
use hk_chain::{ItemNo, PageRef, PairNo};
use hk_fix::{Compiler, Polled, laws};
use std::alloc::Global;
use std::marker::Model;

/// What the replays of a family have in common.
#[derive(Drop)]
pub struct Held<C: Drop> {
    pub(crate) inner: C,
    pub(crate) records: Shared<Records>,
}

impl<C: Drop> Model for Held<C> {
    ghost use Rattle.hk_replay.specs.Keeping.{HeldView};

    ghost Value = { HeldView C };

    ghost view = { λ h. record { inner = h.inner; records = h.records } };
}

/// A compiler that goes through a record, and on as another compiler where the record breaks.
#[derive(Drop)]
pub struct Replay<M: Compiler> {
    pub(crate) records: Shared<Records>,
    pub(crate) way: Way<M>,
    pub(crate) is_spent: bool,
}

impl<M: Compiler> Model for Replay<M> {
    ghost use Rattle.hk_replay.specs.Keeping.{ReplayView, view_of};
    ghost use Rattle.hk_replay.specs.Replaying.{IsReplay};

    ghost Value = { ReplayView M };

    ghost view = { λ r. view_of r.records r.way r.is_spent };

    ghost invariant = { λ r. IsReplay M.valid M.shape M.run M.meaning r.records r.way r.is_spent };
}

impl<M: Compiler> Compiler for Replay<M> {
    ghost use Rattle.hk_replay.specs.Keeping.{over_shape, over_run, meaning_of};
    ghost use Rattle.hk_replay.specs.Replaying.{IsHeld};
    ghost use Rattle.hk_replay.specs.Lawful.{over-laws};

    type Common = Held<M::Common>;

    ghost valid = { IsHeld M.valid M.shape };

    ghost shape = { over_shape M.shape };

    ghost run = { over_run M.run };

    ghost meaning = { meaning_of M.meaning };

    fn item(&self) -> ItemNo {
        self.way.inner.item()
    }

    fn poll(&mut self, alloc: Global) -> Result<Polled, NoMemory> {
        if self.is_spent {
            return Err(NoMemory);
        }
        match go(alloc, self.records.get(), &mut self.way) {
            Ok(polled) => Ok(polled),
            Err(NoMemory) => {
                self.is_spent = true;
                Err(NoMemory)
            }
        }
    }

    fn open_pairs(&self) -> &[PairNo] {
        if self.is_spent || !self.way.is_broken {
            self.way.awaits.as_slice()
        } else {
            self.way.inner.open_pairs()
        }
    }

    fn answer(&mut self, pair: PairNo, page: PageRef) {
        laws::<M>();
        use_pair(&mut self.way.used, pair);
        if self.way.is_broken {
            self.way.inner.answer(pair, page);
        } else {
            self.way.awaits.take_out(pair);
            self.way.told.answer(pair, page);
        }
    }

    fn into_open(self) -> Vec<PairNo> {
        let way = self.way;
        if self.is_spent || !way.is_broken {
            way.awaits.into_vec()
        } else {
            way.inner.into_open()
        }
    }

    fn used(&self) -> &[PairNo] {
        self.way.used.as_slice()
    }

    ghost shaped = { λ c valid. M.shaped c.inner valid.0 };

    ghost laws = { λ c valid. over-laws (M.shape c.inner) (M.run c.inner) (M.laws c.inner valid.0) c.records valid.1 };
}

/// One more pair, for which there is room.
fn use_pair(pairs: &mut Vec<PairNo>, pair: PairNo)
    requires { length pairs.old.items < vec_capacity pairs.old }
    ensures added { pairs.new.items ≡ pairs.old.items ++ pair ∷ [] }
    ensures room { vec_capacity pairs.old ≤ vec_capacity pairs.new }
{
    match pairs.push(pair) {
        Ok(_) => {}
        Err(_) => unreachable!(),
    }
}
