// The known pages, and where each item stands. Items that wait are found by the pair.
ghost use Rattle.std.specs.Prelude.{◌≡◌, ℕ, ◌<◌, ◌≤◌, ◌^◌, List, [], length, map, take, replicate, slice_set, slice_index, Some, None, IfOk, MatchOption, MatchResult, All, is_some, true};
ghost use Rattle.hk_chain.specs.Kept.{at_place};
ghost use Rattle.std.specs.Vec.{vec_capacity};
ghost use Rattle.std.specs.List.{list_all};
ghost use Rattle.hk_fix.specs.Outcomes.{outcome_view};
ghost use Rattle.hk_fix.specs.Pages.{lacking};
ghost use Rattle.hk_sched.specs.Stacks.{StacksView, HasStack};
ghost use Rattle.hk_sched.specs.Standings.{RosterView, out, held, standing_at, is_out, is_settled, ending_at, stack_for, all_told, SomeTold, first_standing};
ghost use Rattle.hk_sched.specs.Places.{standing};
ghost use Rattle.hk_sched.specs.Rosters.{IsWithin, IsCursor, IsRoster, IsWaking, first_roster};
ghost use Rattle.hk_sched.specs.Turns.{placed, FirstOut, AreToBegin, Begins, Resumable, Resumes, Takes, Asks};

use crate::closing::outcomes;
use crate::opening::{first_places, stand_fresh};
use crate::place::{Place, set_place, take_place};
use crate::stacks::{Stack, Stacks};
use crate::turn::{Asked, Ready};
use hk_base::NoMemory;
use hk_chain::{Facts, ItemNo, Kept, PageRef, PairNo};
use hk_fix::{Compiler, Outcome};
use std::alloc::Global;
use std::marker::Model;

/// The known pages, and where each item stands.
#[derive(Drop)]
pub struct Roster<M: Compiler> {
    known: Vec<Option<PageRef>>,
    places: Vec<Place<M>>,
    /// How many open pairs of each item's compiler, from the first on, were found to be known.
    cursors: Vec<usize>,
    stacks: Stacks,
}

impl<M: Compiler> Model for Roster<M> {
    ghost use Rattle.std.specs.Prelude.{map};
    ghost use Rattle.hk_sched.specs.Standings.{RosterView};
    ghost use Rattle.hk_sched.specs.Places.{standing};
    ghost use Rattle.hk_sched.specs.Rosters.{IsRoster};

    ghost Value = { RosterView M };

    ghost view = { λ r. record { known = r.known.items; places = map standing r.places.items } };

    ghost invariant = { λ r. IsRoster M.meaning r.known.items (map standing r.places.items) r.cursors.items r.stacks };
}

impl<M: Compiler> Roster<M> {
    /// The kept pages are known, and the items with facts have ended. All later room is taken here. `NoMemory` only for
    /// want of memory. Linear in the items and pairs.
    pub fn open(alloc: Global, kept: Kept) -> Result<Roster<M>, NoMemory>
        requires items { length kept.facts < 2 ^ 32 }
        requires pairs { length kept.pages < 2 ^ 32 }
        ensures { IfOk result (λ r. r ≡ first_roster kept) }
    {
        let pairs = kept.pages.len() as u32;
        let places = first_places(alloc, kept.facts)?;
        let cursors = vec![in alloc; 0; places.len()]?;
        let mut stacks = Stacks::new(alloc, places.len() as u32, pairs)?;
        stand_fresh(&places, &mut stacks);
        Ok(Roster {
            known: kept.pages,
            places,
            cursors,
            stacks,
        })
    }

    /// How each item ended, in the room of the list, and the known pages. Takes no memory. Linear in the items and the
    /// open pairs.
    pub fn close(self, room: Vec<Outcome>) -> (Vec<Outcome>, Vec<Option<PageRef>>)
        requires settled { All (λ s. is_settled s ≡ true) self.places }
        requires empty { room.items ≡ [] }
        requires room { length self.places ≤ vec_capacity room }
        ensures outcomes { map outcome_view result.0.items ≡ map (ending_at M.meaning (at_place self.known)) self.places }
        ensures pages { result.1.items ≡ self.known }
    {
        let places = self.places;
        let known = self.known;
        let outcomes = outcomes(&known, places, room);
        (outcomes, known)
    }

    /// A page becomes known. Linear in the items that wait for its pair.
    pub fn know(&mut self, pair: PairNo, page: PageRef)
        requires { pair < length self.old.known }
        ensures { self.new ≡ record self.old { known = slice_set self.old.known pair (Some page) } }
    {
        self.known[pair.0 as usize] = Some(page);
        wake(
            &self.known,
            &self.places,
            &mut self.cursors,
            &mut self.stacks,
            pair,
        );
    }

    /// Whether a page is known for a pair. Constant.
    pub fn is_known(&self, pair: PairNo) -> bool
        ensures { result ≡ is_some (at_place self.now.known pair) }
    {
        let at = pair.0 as usize;
        at < self.known.len() && self.known[at].is_some()
    }

    /// Whether a page is known for each of some pairs. Linear in them.
    pub fn are_known(&self, pairs: &[PairNo]) -> bool
        ensures { result ≡ list_all (λ p. is_some (at_place self.now.known p)) pairs.now }
    {
        pairs.iter().all(|pair| self.is_known(*pair))
    }

    /// Whether an item was handed out. Constant.
    pub fn is_out(&self, item: ItemNo) -> bool
        ensures { result ≡ is_out (standing_at self.now.places item) }
    {
        let at = item.0 as usize;
        at < self.places.len() && is_out_at(&self.places[at])
    }

    /// The first item that was handed out. Linear in the items.
    pub fn first_out(&self) -> Option<ItemNo>
        requires { length self.now.places < 2 ^ 32 }
        ensures { FirstOut self.now.places result }
    {
        for i in 0..self.places.len() {
            if is_out_at(&self.places[i]) {
                return Some(ItemNo(i as u32));
            }
        }
        None
    }

    /// Answers a compiler's open pairs where each is known, and else parks it.
    pub fn ask(&mut self, machine: M) -> Asked<M>
        requires out { standing_at self.old.places (M.meaning machine).item ≡ out }
        requires pairs { All (λ p. p < length self.old.known) (M.meaning machine).awaits }
        ensures { Asks M.meaning self.old machine result self.new }
    {
        let open = machine.open_pairs();
        let next = next_unknown(&self.known, open, 0);
        if next < open.len() {
            let item = machine.item();
            self.put(item, Place::Held(machine), next);
            return Asked::Parked;
        }
        match answer_all(&self.known, machine) {
            Ok(machine) => Asked::Value(machine),
            Err(machine) => Asked::NoMemory(machine),
        }
    }

    /// Takes what stands ready: a compiler that goes on, and else an item to begin.
    pub fn take_ready(&mut self) -> Result<Option<Ready<M>>, NoMemory>
        ensures { Takes M.meaning self.old result self.new }
    {
        let Some(item) = self.stacks.pop(Stack::Woken) else {
            return Ok(begin(&mut self.places, &mut self.stacks));
        };
        match resume(&self.known, &mut self.places, item) {
            Ok(machine) => Ok(Some(Ready::Woken(machine))),
            Err(refusal) => {
                self.cursors[item.0 as usize] = 0;
                self.stacks.push(Stack::Woken, item);
                Err(refusal)
            }
        }
    }

    /// Stands an item at a place, and on its stack. The compiler's open pairs before the cursor are known.
    pub fn put(&mut self, item: ItemNo, place: Place<M>, cursor: usize)
        requires out { standing_at self.old.places item ≡ out }
        requires found { IsCursor M.meaning self.old.known (standing place) cursor }
        ensures { self.new ≡ placed self.old item (standing place) }
    {
        let mut cursor = cursor;
        stand(&self.known, &place, &mut cursor, &mut self.stacks, item);
        self.cursors[item.0 as usize] = cursor;
        set_place(&mut self.places, item.0 as usize, place);
    }
}

fn is_out_at<M: Compiler>(place: &Place<M>) -> bool
    ensures { result ≡ is_out (standing place.now) }
{
    matches!(place, Place::Out)
}

/// Takes an item to begin.
fn begin<M: Compiler>(places: &mut Vec<Place<M>>, stacks: &mut Stacks) -> Option<Ready<M>>
    requires many { length stacks.old.stack_of ≡ length places.old.items }
    requires fresh { AreToBegin (map standing places.old.items) stacks.old }
    ensures { Begins (map standing places.old.items) stacks.old result (map standing places.new.items) stacks.new }
{
    let item = stacks.pop(Stack::Fresh)?;
    match take_place(places, item.0 as usize) {
        Place::Unbegun => Some(Ready::First(item)),
        Place::Again => Some(Ready::Again(item)),
        _ => unreachable!(),
    }
}

/// Takes a woken item's compiler, with each open pair answered.
fn resume<M: Compiler>(
    known: &[Option<PageRef>],
    places: &mut Vec<Place<M>>,
    item: ItemNo,
) -> Result<M, NoMemory>
    requires { Resumable M.meaning known.now (map standing places.old.items) item }
    ensures { Resumes M.meaning known.now (map standing places.old.items) item result (map standing places.new.items) }
{
    match take_place(places, item.0 as usize) {
        Place::Held(machine) => match answer_all(known, machine) {
            Ok(machine) => Ok(machine),
            Err(machine) => {
                set_place(places, item.0 as usize, Place::Held(machine));
                Err(NoMemory)
            }
        },
        _ => unreachable!(),
    }
}

/// Answers each open pair with its page. Gives the compiler back as it is then where a page can't be handed on.
fn answer_all<M: Compiler>(known: &[Option<PageRef>], machine: M) -> Result<M, M>
    requires { lacking (at_place known.now) (M.meaning machine).awaits ≡ [] }
    ensures { MatchResult result (λ m. M.meaning m ≡ all_told (at_place known.now) (M.meaning machine)) (λ m. SomeTold (at_place known.now) (M.meaning machine) (M.meaning m)) }
{
    let mut machine = machine;
    loop {
        let open = machine.open_pairs();
        if open.is_empty() {
            return Ok(machine);
        }
        let pair = open[0];
        match page_of(known, pair) {
            Ok(page) => machine.answer(pair, page),
            Err(_) => return Err(machine),
        }
    }
}

/// The page of a known pair, handed on. A refusal counts as want of memory. Constant.
fn page_of(known: &[Option<PageRef>], pair: PairNo) -> Result<PageRef, NoMemory>
    requires { is_some (at_place known.now pair) ≡ true }
    ensures { IfOk result (λ p. at_place known.now pair ≡ Some p) }
{
    match &known[pair.0 as usize] {
        Some(page) => page.try_clone(),
        None => unreachable!(),
    }
}

/// The first pair from a place on that isn't known, or the end.
fn next_unknown(known: &[Option<PageRef>], pairs: &[PairNo], from: usize) -> usize
    requires { IsWithin known.now pairs.now from }
    ensures within { IsWithin known.now pairs.now result }
    ensures lacks { result < length pairs.now → at_place known.now (slice_index pairs.now result) ≡ None }
{
    for i in from..pairs.len() {
        let pair = pairs[i];
        if known[pair.0 as usize].is_none() {
            return i;
        }
    }
    pairs.len()
}

/// The stack of a place. Moves the cursor on to the next open pair that isn't known.
fn stack_of<M: Compiler>(
    known: &[Option<PageRef>],
    place: &Place<M>,
    cursor: &mut usize,
) -> Option<Stack>
    requires { IsCursor M.meaning known.now (standing place.now) cursor.old }
    ensures found { IsCursor M.meaning known.now (standing place.now) cursor.new }
    ensures stack { result ≡ stack_for M.meaning (at_place known.now) (standing place.now) }
    ensures has { MatchOption result (Unit {0}) (λ s. HasStack (length known.now) s) }
{
    match place {
        Place::Unbegun => Some(Stack::Fresh),
        Place::Again => Some(Stack::Fresh),
        Place::Out => None,
        Place::Over(_) => None,
        Place::Held(machine) => {
            let open = machine.open_pairs();
            *cursor = next_unknown(known, open, *cursor);
            if *cursor < open.len() {
                Some(Stack::Waiting(open[*cursor]))
            } else {
                Some(Stack::Woken)
            }
        }
    }
}

/// Puts an item on the stack of its place.
fn stand<M: Compiler>(
    known: &[Option<PageRef>],
    place: &Place<M>,
    cursor: &mut usize,
    stacks: &mut Stacks,
    item: ItemNo,
)
    requires found { IsCursor M.meaning known.now (standing place.now) cursor.old }
    requires pairs { stacks.old.pairs ≡ length known.now }
    requires free { at_place stacks.old.stack_of item ≡ None }
    requires item { item < length stacks.old.stack_of }
    ensures found { IsCursor M.meaning known.now (standing place.now) cursor.new }
    ensures stacks { stacks.new ≡ record stacks.old { stack_of = slice_set stacks.old.stack_of item (stack_for M.meaning (at_place known.now) (standing place.now)) } }
{
    match stack_of(known, place, cursor) {
        Some(stack) => stacks.push(stack, item),
        None => {}
    }
}

/// Puts the items that wait for a pair, which is known now, on other stacks.
fn wake<M: Compiler>(
    known: &[Option<PageRef>],
    places: &[Place<M>],
    cursors: &mut Vec<usize>,
    stacks: &mut Stacks,
    pair: PairNo,
)
    requires known { is_some (at_place known.now pair) ≡ true }
    requires waking { IsWaking M.meaning known.now (map standing places.now) cursors.old.items stacks.old pair }
    ensures { IsRoster M.meaning known.now (map standing places.now) cursors.new.items stacks.new }
{
    while let Some(item) = stacks.pop(Stack::Waiting(pair)) {
        let at = item.0 as usize;
        stand(known, &places[at], &mut cursors[at], stacks, item);
    }
}
