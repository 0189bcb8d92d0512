// What a run is about, and what is lawful for it.
use hk_base::Shared;
use hk_chain::{Kept, Layout};
use hk_fix::Compiler;
use hk_lock::Lawful;
use hk_sched::{Board, Turn};
use std::marker::Model;

/// What a run is about: what its compilers have in common, the layout, and the kept pages and facts. A clause sees it as
/// plain data.
#[derive(Drop)]
pub struct Key<M: Compiler> {
    pub common: M::Common,
    pub layout: Shared<Layout>,
    pub kept: Kept,
}

impl<M: Compiler> Model for Key<M> {
    ghost use Rattle.hk_sched.specs.Lawful as sched;

    ghost Value = { sched.Key M.Common };

    ghost view = { λ k. record { common = k.common; lay = k.layout; kept = k.kept } };
}

impl<M: Compiler> Lawful<Key<M>> for Board<M> {
    ghost use Rattle.hk_workers.specs.Working.{IsBoardFor};

    ghost is_lawful = { IsBoardFor M.run M.shape M.meaning };
}

impl<M: Compiler> Lawful<Key<M>> for Turn<M> {
    ghost use Rattle.hk_workers.specs.Working.{IsTurnFor};

    ghost is_lawful = { IsTurnFor M.run M.shape M.meaning };
}
