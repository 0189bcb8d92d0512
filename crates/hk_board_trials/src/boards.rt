// Each call of a board once.
ghost use Rattle.std.specs.Prelude.{◌≡◌, length, IfOk};
ghost use Rattle.hk_sched.specs.Standings.{out};
ghost use Rattle.hk_sched.specs.Board.{place_at};

use crate::texts::{layout, no_facts, page};
use hk_base::{NoMemory, Shared};
use hk_chain::{Fault, ItemNo, Kept, PairNo};
use hk_families::{Mutual, MutualMaker};
use hk_fix::Maker;
use hk_sched::{Board, Turn};
use std::alloc::Global;
use std::test::Fail;

/// A board of the small family, with no item kept.
fn opened(alloc: Global) -> Result<Board<Mutual>, NoMemory>
    ensures { IfOk result (λ b. (length b.known ≡ 4) × (length b.places ≡ 2)) }
{
    let layout = layout(alloc)?;
    let kept = Kept::none(alloc, &layout)?;
    Board::open(alloc, true, Shared::new(alloc, layout)?, kept)
}

/// The item of the next turn, where it is a fresh one.
fn fresh_item(board: &mut Board<Mutual>) -> Result<Option<ItemNo>, NoMemory> {
    let Some(turn) = board.next_ready()? else {
        return Ok(None);
    };
    match turn {
        Turn::Fresh(item) => Ok(Some(item)),
        Turn::Woken(_) => Ok(None),
    }
}

/// Which items are fresh and out, one after the other, where the first turn is given back once.
pub fn fresh_turns(alloc: Global) -> Result<String, Fail> {
    let mut board = opened(alloc)?;
    let first = fresh_item(&mut board)?;
    let out = board.first_out();
    board.put_back(Turn::Fresh(ItemNo(0)));
    let back = board.first_out();
    let again = fresh_item(&mut board)?;
    let second = fresh_item(&mut board)?;
    let third = fresh_item(&mut board)?;
    Ok(format!(in alloc; "{first:?} {out:?}, {back:?}, {again:?} {second:?} {third:?}")?)
}

/// The item of the next turn, which is out then.
fn begun(board: &mut Board<Mutual>) -> Result<ItemNo, Fail>
    ensures out { IfOk result (λ i. place_at board.new i ≡ out) }
    ensures known { length board.new.known ≡ length board.old.known }
{
    let Some(turn) = board.next_ready()? else {
        return Err(Fail::new("no turn"));
    };
    match turn {
        Turn::Fresh(item) => Ok(item),
        Turn::Woken(_) => Err(Fail::new("no fresh item")),
    }
}

/// The item that is out after its page on the way was saved twice.
pub fn saves(alloc: Global) -> Result<String, Fail> {
    let mut board = opened(alloc)?;
    let item = begun(&mut board)?;
    board.save(PairNo(0), page(alloc)?);
    board.save(PairNo(0), page(alloc)?);
    let out = board.first_out();
    Ok(format!(in alloc; "{item:?} {out:?}")?)
}

/// The item that is out after the first one finished, after the second one began and after it failed.
pub fn ends(alloc: Global) -> Result<String, Fail> {
    let mut board = opened(alloc)?;
    let item = begun(&mut board)?;
    board.finish(item, page(alloc)?, no_facts(alloc));
    let first = board.first_out();
    let item = begun(&mut board)?;
    let second = board.first_out();
    board.fail(item, Fault::TooDeep);
    let third = board.first_out();
    let more = board.next_ready()?.is_some();
    Ok(format!(in alloc; "{first:?} {second:?} {third:?}, {more}")?)
}

/// Whether the board admits the first machine before and while its item is out, and what the turn is that it comes back in.
pub fn admits_while_out(alloc: Global) -> Result<String, Fail> {
    let mut board = opened(alloc)?;
    let maker = MutualMaker { early: true };
    let machine = maker.make(alloc, ItemNo(0))?;
    let before = board.admits(&machine);
    let first = fresh_item(&mut board)?;
    let while_out = board.admits(&machine);
    board.put_back(Turn::Woken(machine));
    let out = board.first_out();
    let woken = matches!(board.next_ready()?, Some(Turn::Woken(_)));
    Ok(format!(in alloc; "{before} {first:?} {while_out}, {out:?}, {woken}")?)
}
