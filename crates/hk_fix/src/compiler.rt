// What a compiler means, and the laws of its runs.
ghost use Rattle.std.specs.Prelude.{◌≡◌, ℕ, false, [], Contains, IfOk, ◌<◌};
ghost use Rattle.hk_chain.specs.declared.page.Page.{Page};
ghost use Rattle.hk_chain.specs.Layout.{Shape, IsShape};
ghost use Rattle.hk_fix.specs.Pages.{Pages};
ghost use Rattle.hk_fix.specs.Task.{Run};
ghost use Rattle.hk_fix.specs.Run.{IsRun};
ghost use Rattle.hk_fix.specs.Meaning.{Meaning, fresh, told_page};
ghost use Rattle.hk_fix.specs.Calls.{Polls, Lists};

use crate::polled::Polled;
use hk_base::NoMemory;
use hk_chain::{ItemNo, PageRef, PairNo};
use std::alloc::Global;

/// A compiler that can be suspended: it goes on by polls, and stops where it asks for pages. Whether threads may pass one on
/// is asked where threads start.
pub trait Compiler: Drop {
    /// What all compilers of a family have in common.
    type Common: Drop;

    /// What holds of every value that a family has in common.
    ghost valid: { Self.Common → Type 0 };

    /// The layout that it determines.
    ghost shape: { Self.Common → Shape };

    /// What the run of an item gives under the known pages.
    ghost run: { Self.Common → ℕ → Pages → Run Page };

    /// What the compiler is now.
    ghost meaning: { Self → Meaning Self.Common };

    /// Its item. Constant.
    fn item(&self) -> ItemNo
        ensures { result ≡ (meaning self.now).item };

    /// Goes on to the next page that it saves, to the pages that it wants, or to its end. `NoMemory` only for want of
    /// memory; it answers that from then on. Linear in the work up to there: of what an earlier poll did, only what had
    /// to wait is done again.
    fn poll(&mut self, alloc: Global) -> Result<Polled, NoMemory>
        requires closed { (meaning self.old).awaits ≡ [] }
        requires going { (meaning self.old).has_ended ≡ false }
        ensures { Polls shape run (meaning self.old) result (meaning self.new) };

    /// The asked pairs that weren't answered, in order. Constant.
    fn open_pairs(&self) -> &[PairNo]
        ensures { result.now ≡ (meaning self.now).awaits };

    /// Answers one open pair. Takes no memory. At most linear in the open pairs, and logarithmic in those that were
    /// answered before.
    fn answer(&mut self, pair: PairNo, page: PageRef)
        requires { Contains (meaning self.old).awaits pair }
        ensures { meaning self.new ≡ told_page (meaning self.old) pair page };

    /// The open pairs of a compiler that isn't needed any more. Takes no memory. Constant, but for what it lets go.
    fn into_open(self) -> Vec<PairNo>
        ensures { result.items ≡ (meaning self).awaits };

    /// The pairs that were answered to it, and those that its polls saved, but for one that it has just saved. So of a
    /// compiler that wanted memory, too. Takes no memory. Constant.
    fn used(&self) -> &[PairNo]
        ensures { Lists run (meaning self.now) result.now };

    /// A family determines one layout.
    ghost shaped: { (c : Self.Common) → valid c → IsShape (shape c) };

    /// A run waits for exactly the asked pairs that aren't known; only asked pairs matter; more known pages extend the log.
    ghost laws: { (c : Self.Common) → valid c → IsRun (shape c) (run c) };
}

/// What makes compilers of one family.
pub trait Maker {
    type M: Compiler;

    /// What its compilers have in common.
    ghost common_is: { Self → Self.M.Common };

    /// What all its compilers have in common. `NoMemory` only for want of memory. Constant: it is shared, not copied.
    fn common(&self, alloc: Global) -> Result<<Self::M as Compiler>::Common, NoMemory>
        ensures { IfOk result (λ c. c ≡ common_is self.now) };

    /// A compiler of the item that hasn't begun. `NoMemory` only for want of memory. Linear in the item's chain.
    fn make(&self, alloc: Global, item: ItemNo) -> Result<Self::M, NoMemory>
        requires { item < (Self.M.shape (common_is self.now)).items }
        ensures { IfOk result (λ m. Self.M.meaning m ≡ fresh (common_is self.now) item) };

    /// What they have in common is a family's.
    ghost made: { (k : Self) → Self.M.valid (common_is k) };
}

/// The laws of a family, for generic code that has the compilers by an associated type.
pub fn laws<M: Compiler>()
    ensures shaped { (c : M.Common) → M.valid c → IsShape (M.shape c) }
    ensures lawful { (c : M.Common) → M.valid c → IsRun (M.shape c) (M.run c) }
{}

/// What the compilers of a maker have in common is a family's, for generic code.
pub fn made<K: Maker>()
    ensures { (k : K) → K.M.valid (K.common_is k) }
{}
