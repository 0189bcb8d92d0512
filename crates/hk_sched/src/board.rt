// The board of suspended compilers.
ghost use Rattle.std.specs.Prelude.{◌≡◌, ◌<◌, ◌↔◌, [], length, Some, None, IfOk, MatchOption, All, true, false};
ghost use Rattle.hk_chain.specs.Kept.{IsKept};
ghost use Rattle.hk_chain.specs.Layout.{IsLayout, final_of};
ghost use Rattle.hk_sched.specs.Standings.{out, standing_at};
ghost use Rattle.hk_sched.specs.Turns.{FirstOut};
ghost use Rattle.hk_sched.specs.Board.{BoardView, opened, place_at, after_save, after_done, after_fail, after_put_back, Gives, Asks, IsClosed, NoneReady, Admits, results_of};

use crate::place::Place;
use crate::roster::Roster;
use crate::turn::{Asked, Ready, Turn};
use hk_base::{NoMemory, Shared};
use hk_chain::{Facts, Fault, ItemNo, Kept, Layout, PageRef, PairNo};
use hk_fix::{Compiler, Event, Outcome, Results};
use std::alloc::Global;
use std::marker::Model;

/// The board of suspended compilers: the known pages, where each item stands, and the events so far.
#[derive(Drop)]
pub struct Board<M: Compiler> {
    common: M::Common,
    layout: Shared<Layout>,
    roster: Roster<M>,
    /// Room for the items' ends.
    room: Vec<Outcome>,
    history: Vec<Event>,
}

impl<M: Compiler> Model for Board<M> {
    ghost use Rattle.std.specs.Prelude.{◌≡◌, []};
    ghost use Rattle.std.specs.Vec.{vec_capacity};
    ghost use Rattle.hk_sched.specs.Board.{BoardView};
    ghost use Rattle.hk_sched.specs.Boards.{IsBoard};

    ghost Value = { BoardView M M.Common };

    ghost view = { λ b. record { common = b.common; lay = b.layout; known = b.roster.known; places = b.roster.places; history = b.history.items } };

    ghost invariant = { λ b. IsBoard (b.layout) b.roster b.history.items (vec_capacity b.room) (vec_capacity b.history) × (b.room.items ≡ []) };
}

impl<M: Compiler> Board<M> {
    /// A board on which the kept items have ended, and all others are to begin. All later room is taken here. `NoMemory`
    /// only for want of memory. Linear in the items and pairs.
    pub fn open(
        alloc: Global,
        common: M::Common,
        layout: Shared<Layout>,
        kept: Kept,
    ) -> Result<Board<M>, NoMemory>
        requires { IsKept layout kept }
        ensures { IfOk result (λ b. b ≡ opened common layout kept) }
    {
        let items = layout.get().items() as usize;
        let pairs = layout.get().pairs() as usize;
        Ok(Board {
            common,
            layout,
            roster: Roster::open(alloc, kept)?,
            room: Vec::with_capacity(alloc, items)?,
            history: Vec::with_capacity(alloc, 2 * items + pairs)?,
        })
    }

    /// What stands ready: a compiler that goes on, each of whose open pairs was answered, and else an item to begin, which
    /// is recorded where it is the first time. None exactly where nothing stands ready. `NoMemory` only where a page
    /// couldn't be handed on for want of memory; some open pairs of a compiler that stays on the board may then have been
    /// answered. Constant, but for the answers.
    pub fn next_ready(&mut self) -> Result<Option<Turn<M>>, NoMemory>
        ensures { Gives M.meaning self.old result self.new }
    {
        let taken = match self.roster.take_ready() {
            Ok(taken) => taken,
            Err(refusal) => return Err(refusal),
        };
        let Some(ready) = taken else {
            return Ok(None);
        };
        match ready {
            Ready::First(item) => {
                self.history.push_reserved(Event::Begin(item));
                Ok(Some(Turn::Fresh(item)))
            }
            Ready::Again(item) => Ok(Some(Turn::Fresh(item))),
            Ready::Woken(machine) => Ok(Some(Turn::Woken(machine))),
        }
    }

    /// The turn stands on the board again. Where its item has ended, is parked or stands on the board already, the turn is
    /// dropped. Takes no memory. Constant.
    pub fn put_back(&mut self, turn: Turn<M>)
        requires { IsClosed M.meaning turn }
        ensures { self.new ≡ after_put_back M.meaning self.old turn }
    {
        match turn {
            Turn::Fresh(item) => {
                if self.roster.is_out(item) {
                    self.roster.put(item, Place::Again, 0);
                }
            }
            Turn::Woken(machine) => {
                let item = machine.item();
                if self.roster.is_out(item) {
                    self.roster.put(item, Place::Held(machine), 0);
                }
            }
        }
    }

    /// A page on the way becomes known, is recorded, and wakes its waiters. Where it is known already nothing changes.
    /// Takes no memory. Linear in the items that wait for it.
    pub fn save(&mut self, pair: PairNo, page: PageRef)
        requires { pair < length self.old.known }
        ensures { self.new ≡ after_save self.old pair page }
    {
        if !self.roster.is_known(pair) {
            self.history.push_reserved(Event::Saved(pair));
            self.roster.know(pair, page);
        }
    }

    /// Where each open pair of a compiler is known, it comes back with each answered. Else it is parked, and waits for the
    /// first open pair that isn't known. `NoMemory` only where a page couldn't be handed on for want of memory; some open
    /// pairs may then have been answered. Linear in the open pairs.
    pub fn ask(&mut self, machine: M) -> Asked<M>
        requires out { place_at self.old (M.meaning machine).item ≡ out }
        requires pairs { All (λ p. p < length self.old.known) (M.meaning machine).awaits }
        ensures { Asks M.meaning self.old machine result self.new }
    {
        self.roster.ask(machine)
    }

    /// An item's finished page becomes known, its end is recorded, and its waiters are woken. Takes no memory. Linear in
    /// the items that wait for it.
    pub fn finish(&mut self, item: ItemNo, page: PageRef, facts: Facts)
        requires { place_at self.old item ≡ out }
        ensures { self.new ≡ after_done self.old item page facts }
    {
        let pair = self.layout.get().final_of(item);
        self.history.push_reserved(Event::Done(item));
        self.roster.put(item, Place::Over(Outcome::Done(facts)), 0);
        self.roster.know(pair, page);
    }

    /// An item's fault is recorded. Takes no memory. Constant.
    pub fn fail(&mut self, item: ItemNo, fault: Fault)
        requires { place_at self.old item ≡ out }
        ensures { self.new ≡ after_fail self.old item fault }
    {
        self.history.push_reserved(Event::Failed(item));
        self.roster
            .put(item, Place::Over(Outcome::Failed(fault)), 0);
    }

    /// The least item that has begun, hasn't ended, and is neither parked nor on the board to be handed out. Takes no
    /// memory. Linear in the items.
    pub fn first_out(&self) -> Option<ItemNo>
        ensures { FirstOut self.now.places result }
    {
        self.roster.first_out()
    }

    /// Whether a compiler's item was handed out, and each pair that it used is known. Takes no memory. Linear in those
    /// pairs.
    pub fn admits(&self, machine: &M) -> bool
        ensures { (result ≡ true) ↔ Admits M.run self.now (M.meaning machine.now) }
    {
        self.roster.is_out(machine.item()) && self.roster.are_known(machine.used())
    }

    /// How the run ended. Takes no memory. Linear in the items, the pairs and the open pairs.
    pub fn close(self) -> Results
        requires ready { NoneReady M.meaning self }
        requires out { FirstOut self.places None }
        ensures { result ≡ results_of M.meaning self }
    {
        let history = self.history;
        let (outcomes, pages) = self.roster.close(self.room);
        Results {
            outcomes,
            pages,
            history,
        }
    }
}
