// What each kind of node comes to.
ghost use Rattle.std.specs.Prelude.{◌≡◌, ◌∷◌, [], true, IfOk, option_map};
ghost use Rattle.hk_base.specs.Bytes.{Bytes};
ghost use Rattle.hk_rules.specs.Plan.{lookups};
ghost use Rattle.hk_template.specs.Key.{is_partial_path};
ghost use Rattle.hk_template.specs.Tree.{key_node, partial_node};
ghost use Rattle.hk_eval.specs.Blocks.{block_nodes, part_node, if_of, for_of, nodes_or_none};
ghost use Rattle.hk_eval.specs.Rendering.{node_task, partial_at, plain_id};
ghost use Rattle.hk_eval.specs.Going.{Moves, IsMoveOf};
ghost use Rattle.hk_eval.specs.Told.{told_pages};
ghost use Rattle.hk_eval.specs.Within.{Renders, IsPlaceOf, NameTemplates, NamesTemplate};

use crate::block::{Block, Part};
use crate::finding::find_template;
use crate::found::Found;
use crate::frame::Frame;
use crate::look::Look;
use crate::lookup::look_up;
use crate::making::{entered, owned, repeat, wanted, whole};
use crate::moves::Move;
use crate::notes::Notes;
use crate::place::Place;
use crate::told::Told;
use hk_base::{Identifier, NoMemory, Refusal, Text};
use hk_chain::{Fault, PairNo};
use hk_rules::Plan;
use std::alloc::Global;

/// What a node comes to.
pub(crate) fn node_move(
    alloc: Global,
    plan: &Plan,
    told: &Told,
    notes: &mut Notes,
    out: &mut Vec<u8>,
    part: &Part,
    left: u32,
    here: &Place,
) -> Result<Move, NoMemory>
    requires plan { Renders plan.now }
    requires here { IsPlaceOf plan.now here.now }
    requires named { NamesTemplate (part_node part.now) }
    ensures moves { IfOk result (λ m. Moves (lookups plan.now) (told_pages told.now) (node_task (lookups plan.now) (partial_at (lookups plan.now) left) (part_node part.now) here.now) notes.old out.old.items m notes.new out.new.items) }
    ensures within { IfOk result (λ m. IsMoveOf plan.now m) }
{
    match part {
        Part::Text(bytes) => {
            out.extend_from_slice(bytes.as_slice())?;
            Ok(Move::Wrote)
        }
        Part::Dollar => {
            out.push(b'$')?;
            Ok(Move::Wrote)
        }
        Part::Key(key) => {
            let moved = key_move(alloc, plan, told, notes, out, key, left, here)?;
            Ok(moved)
        }
        Part::If { key, yes, no } => {
            let moved = if_move(alloc, plan, told, notes, key, yes, no, left, here)?;
            Ok(moved)
        }
        Part::For { key, each, sep } => {
            let moved = for_move(alloc, plan, told, notes, key, each, sep, left, here)?;
            Ok(moved)
        }
        Part::Partial(path) => {
            let moved = partial_move(alloc, plan, told, notes, path, left, here)?;
            Ok(moved)
        }
    }
}

/// What a key comes to.
fn key_move(
    alloc: Global,
    plan: &Plan,
    told: &Told,
    notes: &mut Notes,
    out: &mut Vec<u8>,
    key: &Text,
    left: u32,
    here: &Place,
) -> Result<Move, NoMemory>
    requires plan { Renders plan.now }
    requires here { IsPlaceOf plan.now here.now }
    ensures moves { IfOk result (λ m. Moves (lookups plan.now) (told_pages told.now) (node_task (lookups plan.now) (partial_at (lookups plan.now) left) (key_node key.now) here.now) notes.old out.old.items m notes.new out.new.items) }
    ensures within { IfOk result (λ m. IsMoveOf plan.now m) }
{
    let found = look_up(alloc, plan, told, here, key.as_slice(), notes)?;
    match found {
        Look::Lent(bytes) => {
            out.extend_from_slice(bytes)?;
            Ok(Move::Wrote)
        }
        Look::Made(bytes) => {
            out.extend_from_slice(bytes.as_slice())?;
            Ok(Move::Wrote)
        }
        Look::Absent => {
            let key = copied(alloc, key)?;
            Ok(Move::Fails(Fault::NoKey { key }))
        }
        Look::Flag => {
            let key = copied(alloc, key)?;
            Ok(Move::Fails(Fault::NotText { key }))
        }
        Look::List(_) => {
            let key = copied(alloc, key)?;
            Ok(Move::Fails(Fault::NotText { key }))
        }
        Look::Asks(pair) => {
            let pairs = one(alloc, pair)?;
            Ok(Move::Asks(pairs))
        }
        Look::Fails(fault) => Ok(Move::Fails(fault)),
    }
}

/// What an `if` comes to.
fn if_move(
    alloc: Global,
    plan: &Plan,
    told: &Told,
    notes: &mut Notes,
    key: &Text,
    yes: &Block,
    no: &Option<Block>,
    left: u32,
    here: &Place,
) -> Result<Move, NoMemory>
    requires plan { Renders plan.now }
    requires here { IsPlaceOf plan.now here.now }
    requires first { NameTemplates (block_nodes yes.now) }
    requires second { NameTemplates (nodes_or_none (option_map block_nodes no.now)) }
    ensures moves { IfOk result (λ m. (out : Bytes) → Moves (lookups plan.now) (told_pages told.now) (node_task (lookups plan.now) (partial_at (lookups plan.now) left) (if_of key.now (block_nodes yes.now) (option_map block_nodes no.now)) here.now) notes.old out m notes.new out) }
    ensures within { IfOk result (λ m. IsMoveOf plan.now m) }
{
    let found = look_up(alloc, plan, told, here, key.as_slice(), notes)?;
    match found {
        Look::Absent => {
            let block = owned(alloc, no)?;
            let place = here.try_clone()?;
            Ok(Move::Push(whole(block, left, place)))
        }
        Look::Asks(pair) => {
            let pairs = one(alloc, pair)?;
            Ok(Move::Asks(pairs))
        }
        Look::Fails(fault) => Ok(Move::Fails(fault)),
        _ => {
            let frame = entered(yes, left, here)?;
            Ok(Move::Push(frame))
        }
    }
}

/// What a `for` comes to.
fn for_move(
    alloc: Global,
    plan: &Plan,
    told: &Told,
    notes: &mut Notes,
    key: &Text,
    each: &Block,
    sep: &Option<Block>,
    left: u32,
    here: &Place,
) -> Result<Move, NoMemory>
    requires plan { Renders plan.now }
    requires here { IsPlaceOf plan.now here.now }
    requires first { NameTemplates (block_nodes each.now) }
    requires second { NameTemplates (nodes_or_none (option_map block_nodes sep.now)) }
    ensures moves { IfOk result (λ m. (out : Bytes) → Moves (lookups plan.now) (told_pages told.now) (node_task (lookups plan.now) (partial_at (lookups plan.now) left) (for_of key.now (block_nodes each.now) (option_map block_nodes sep.now)) here.now) notes.old out m notes.new out) }
    ensures within { IfOk result (λ m. IsMoveOf plan.now m) }
{
    let found = look_up(alloc, plan, told, here, key.as_slice(), notes)?;
    match found {
        Look::List(listing) => {
            let list = wanted(alloc, &listing)?;
            let body = repeat(alloc, each, sep, left, here)?;
            Ok(Move::Push(Frame::Make(list, body)))
        }
        Look::Absent => {
            let key = copied(alloc, key)?;
            Ok(Move::Fails(Fault::NoKey { key }))
        }
        Look::Asks(pair) => {
            let pairs = one(alloc, pair)?;
            Ok(Move::Asks(pairs))
        }
        Look::Fails(fault) => Ok(Move::Fails(fault)),
        _ => {
            let key = copied(alloc, key)?;
            Ok(Move::Fails(Fault::NotList { key }))
        }
    }
}

/// What a partial comes to.
fn partial_move(
    alloc: Global,
    plan: &Plan,
    told: &Told,
    notes: &mut Notes,
    path: &Text,
    left: u32,
    here: &Place,
) -> Result<Move, NoMemory>
    requires plan { Renders plan.now }
    requires here { IsPlaceOf plan.now here.now }
    requires path { is_partial_path path.now ≡ true }
    ensures moves { IfOk result (λ m. (out : Bytes) → Moves (lookups plan.now) (told_pages told.now) (node_task (lookups plan.now) (partial_at (lookups plan.now) left) (partial_node path.now) here.now) notes.old out m notes.new out) }
    ensures within { IfOk result (λ m. IsMoveOf plan.now m) }
{
    if left == 0 {
        return Ok(Move::Fails(Fault::TooDeep));
    }
    let id = plain(alloc, path)?;
    let found = find_template(alloc, plan, told, &id, notes)?;
    match found {
        Found::Tree(block) => {
            let place = here.try_clone()?;
            Ok(Move::Push(whole(block, left - 1, place)))
        }
        Found::Asks(pair) => {
            let pairs = one(alloc, pair)?;
            Ok(Move::Asks(pairs))
        }
        Found::Fails(fault) => Ok(Move::Fails(fault)),
    }
}

/// The identifier of a path, without a version.
fn plain(alloc: Global, path: &Text) -> Result<Identifier, NoMemory>
    requires { is_partial_path path.now ≡ true }
    ensures { IfOk result (λ id. id ≡ plain_id path.now) }
{
    match Identifier::read(alloc, path.as_slice(), None) {
        Ok(id) => Ok(id),
        Err(Refusal::NoMemory) => Err(NoMemory),
        Err(Refusal::Fault(_)) => unreachable!(),
    }
}

fn one(alloc: Global, pair: PairNo) -> Result<Vec<PairNo>, NoMemory>
    ensures { IfOk result (λ v. v.items ≡ pair ∷ []) }
{
    let mut pairs = Vec::new(alloc);
    pairs.push(pair)?;
    Ok(pairs)
}

fn copied(alloc: Global, text: &Text) -> Result<Text, NoMemory>
    ensures { IfOk result (λ t. t ≡ text.now) }
{
    Text::from_slice(alloc, text.as_slice())
}
