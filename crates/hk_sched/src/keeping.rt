// Why a lawful board stays lawful, and what it gives in the end.
ghost use Rattle.hk_sched.specs.Lawful.{Key, IsKey};
ghost use Rattle.hk_sched.specs.BoardLaws.{BoardLaws, PollLaws};

use hk_fix::Compiler;

/// A board opens lawful for its key, each of its calls keeps that under its conditions, and what it hands out is lawful.
/// An item that is out may begin anew. Where nothing stands ready and nothing is out, it closes with the pages, the ends
/// and the facts of the fixpoint, and with a complete history.
pub fn lawful_board<M: Compiler>()
    ensures { (key : Key M.Common) → IsKey M.run M.shape key → BoardLaws M.run M.meaning key }
{}

/// A compiler that was made anew may be polled, a poll leaves it lawful, and what it answered may go to any lawful board
/// that admits the compiler. After a save, or an ask that was answered, it may be polled again: it has no open pair and
/// hasn't ended.
pub fn lawful_polls<M: Compiler>()
    ensures { (key : Key M.Common) → IsKey M.run M.shape key → PollLaws M.run M.meaning key M.shape }
{}
