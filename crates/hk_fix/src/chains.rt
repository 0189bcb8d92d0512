// Why computations that save their items' pages are compilers.
ghost use Rattle.std.specs.Prelude.{ℕ, List};
ghost use Rattle.hk_chain.specs.declared.page.Page.{Page};
ghost use Rattle.hk_chain.specs.Layout.{Shape};
ghost use Rattle.hk_fix.specs.Task.{Task, run};
ghost use Rattle.hk_fix.specs.Run.{IsRun};
ghost use Rattle.hk_fix.specs.Chains.{AreChains};

/// Where each item's compiler is a computation that asks for pairs of the layout, for none twice in a group, and saves
/// the item's pairs in order, its runs keep the laws.
pub fn chains_keep_laws()
    ensures { (lay : Shape) (task : ℕ → Task Page) (snapshots : ℕ → List ℕ) → AreChains lay task snapshots → IsRun lay (λ i k. run (task i) k) }
{}
