// Where an item stands.
ghost use Rattle.std.specs.Prelude.{◌≡◌, ◌<◌, length, map, slice_set};
ghost use Rattle.hk_sched.specs.Standings.{out, standing_at};
ghost use Rattle.hk_sched.specs.Places.{standing};

use hk_fix::{Compiler, Outcome};
use std::mem::replace;

/// Where an item stands.
#[derive(Drop)]
pub enum Place<M> {
    /// On the board, to begin.
    Unbegun,
    /// On the board, to begin anew.
    Again,
    /// Handed out.
    Out,
    /// On the board or parked, with its compiler.
    Held(M),
    /// Ended.
    Over(Outcome),
}

/// Stands an item elsewhere.
pub fn set_place<M: Compiler>(places: &mut Vec<Place<M>>, item: usize, place: Place<M>)
    requires { item < length places.old.items }
    ensures places { map standing places.new.items ≡ slice_set (map standing places.old.items) item (standing place) }
    ensures many { length places.new.items ≡ length places.old.items }
{
    places[item] = place;
}

/// Hands out what stands at a place.
pub fn take_place<M: Compiler>(places: &mut Vec<Place<M>>, item: usize) -> Place<M>
    requires { item < length places.old.items }
    ensures taken { standing result ≡ standing_at (map standing places.old.items) item }
    ensures places { map standing places.new.items ≡ slice_set (map standing places.old.items) item out }
    ensures many { length places.new.items ≡ length places.old.items }
{
    replace(&mut places[item], Place::Out)
}
