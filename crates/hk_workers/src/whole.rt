// How a run begins and ends, on the caller's thread.
ghost use Rattle.std.specs.Prelude.{◌≡◌, IfOk};
ghost use Rattle.hk_chain.specs.Kept.{IsKept};
ghost use Rattle.hk_sched.specs.Lawful.{IsKey};
ghost use Rattle.hk_workers.specs.Working.{IsBoardFor, HasCommon, IsRunFor};

use crate::key::Key;
use hk_base::{NoMemory, Shared};
use hk_chain::{Kept, Layout};
use hk_fix::{Compiler, Maker, Results, kept_are_seeds, laws, made};
use hk_sched::{Board, finish, lawful_board};
use std::alloc::Global;
use std::snapshot::Snapshot;

/// The key of a run, and its board as it opens.
pub fn opened<K: Maker>(
    alloc: Global,
    layout: Shared<Layout>,
    kept: Kept,
    maker: &K,
) -> Result<(Snapshot<Key<K::M>>, Board<K::M>), NoMemory>
    requires layout { layout ≡ K.M.shape (K.common_is maker.now) }
    requires kept { IsKept layout kept }
    ensures about { IfOk result (λ r. r.0.value ≡ record { common = K.common_is maker.now; lay = layout; kept = kept }) }
    ensures board { IfOk result (λ r. IsBoardFor K.M.run K.M.shape K.M.meaning r.0.value r.1) }
{
    laws::<K::M>();
    made::<K>();
    kept_are_seeds();
    let key = Key {
        common: maker.common(alloc)?,
        layout,
        kept,
    };
    let about = Snapshot::of(&key);
    let board = board_of(alloc, key)?;
    Ok((about, board))
}

fn board_of<M: Compiler>(alloc: Global, key: Key<M>) -> Result<Board<M>, NoMemory>
    requires kept { IsKept key.lay key.kept }
    requires key { IsKey M.run M.shape key }
    ensures { IfOk result (λ b. IsBoardFor M.run M.shape M.meaning key b) }
{
    lawful_board::<M>();
    let Key {
        common,
        layout,
        kept,
    } = key;
    Board::open(alloc, common, layout, kept)
}

/// The results of a run, once what its board has left was done.
pub fn finished<K: Maker>(
    alloc: Global,
    about: &Snapshot<Key<K::M>>,
    board: Board<K::M>,
    maker: &K,
) -> Result<Results, NoMemory>
    requires board { IsBoardFor K.M.run K.M.shape K.M.meaning about.now.value board }
    requires common { HasCommon about.now.value (K.common_is maker.now) }
    ensures { IfOk result (λ r. IsRunFor K.M.run about.now.value r) }
{
    let _about = about;
    finish(alloc, board, maker)
}
