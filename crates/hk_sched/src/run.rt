// A run of all compilers on the caller's thread.
ghost use Rattle.std.specs.Prelude.{◌≡◌, IfOk};
ghost use Rattle.hk_chain.specs.Kept.{IsKept};
ghost use Rattle.hk_fix.specs.Fix.{seeds_of};
ghost use Rattle.hk_sched.specs.Lawful.{IsRunOf};

use crate::board::Board;
use crate::finishing::finish;
use crate::keeping::lawful_board;
use hk_base::{NoMemory, Shared};
use hk_chain::{Kept, Layout};
use hk_fix::{Maker, Results, kept_are_seeds, laws, made};
use std::alloc::Global;

/// Runs all compilers on the caller's thread, each as far as it goes. `NoMemory` only for want of memory. Linear in the
/// polls, the items and the pairs, but for the compilers' own work.
pub fn run_one<K: Maker>(
    alloc: Global,
    layout: Shared<Layout>,
    kept: Kept,
    maker: &K,
) -> Result<Results, NoMemory>
    requires layout { layout ≡ K.M.shape (K.common_is maker.now) }
    requires kept { IsKept layout kept }
    ensures { IfOk result (λ r. IsRunOf layout (K.M.run (K.common_is maker.now)) (seeds_of kept) r) }
{
    laws::<K::M>();
    made::<K>();
    kept_are_seeds();
    lawful_board::<K::M>();
    let common = maker.common(alloc)?;
    let board = Board::open(alloc, common, layout, kept)?;
    finish(alloc, board, maker)
}
