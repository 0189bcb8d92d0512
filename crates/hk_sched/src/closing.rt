// How each item of a roster ended.
ghost use Rattle.std.specs.Prelude.{◌≡◌, ◌≤◌, ◌+◌, ℕ, [], length, map, filter, All, is_none, true};
ghost use Rattle.std.specs.Vec.{vec_capacity};
ghost use Rattle.hk_chain.specs.Kept.{at_place};
ghost use Rattle.hk_fix.specs.Outcomes.{outcome_view};
ghost use Rattle.hk_fix.specs.Pages.{lacking};
ghost use Rattle.hk_sched.specs.Standings.{ending_at, is_settled};
ghost use Rattle.hk_sched.specs.Places.{standing};

use crate::place::Place;
use hk_chain::{PageRef, PairNo};
use hk_fix::{Compiler, Outcome};

/// How each item ended, in the room of the list. Takes no memory. Linear in the items and the open pairs.
pub fn outcomes<M: Compiler>(
    known: &[Option<PageRef>],
    places: Vec<Place<M>>,
    room: Vec<Outcome>,
) -> Vec<Outcome>
    requires settled { All (λ p. is_settled (standing p) ≡ true) places.items }
    requires empty { room.items ≡ [] }
    requires room { length places.items ≤ vec_capacity room }
    ensures { map outcome_view result.items ≡ map (ending_at M.meaning (at_place known.now)) (map standing places.items) }
{
    let mut outcomes = room;
    for place in places {
        outcomes.push_reserved(outcome(known, place));
    }
    outcomes
}

/// How an item ended that has ended or is parked.
fn outcome<M: Compiler>(known: &[Option<PageRef>], place: Place<M>) -> Outcome
    requires { is_settled (standing place) ≡ true }
    ensures { outcome_view result ≡ ending_at M.meaning (at_place known.now) (standing place) }
{
    match place {
        Place::Held(machine) => Outcome::Waiting(still_lacking(known, machine.into_open())),
        Place::Over(outcome) => outcome,
        _ => unreachable!(),
    }
}

/// Those of some pairs that aren't known.
fn still_lacking(known: &[Option<PageRef>], pairs: Vec<PairNo>) -> Vec<PairNo>
    ensures { result.items ≡ lacking (at_place known.now) pairs.items }
{
    let mut pairs = pairs;
    pairs.retain(|pair| lacks(known, *pair));
    pairs
}

/// Whether no page is known for a pair.
fn lacks(known: &[Option<PageRef>], pair: PairNo) -> bool
    ensures { result ≡ is_none (at_place known.now pair) }
{
    let at = pair.0 as usize;
    at >= known.len() || known[at].is_none()
}
