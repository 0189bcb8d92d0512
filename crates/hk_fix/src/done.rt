// What an item has that is done, and where compilers end.
ghost use Rattle.std.specs.Prelude.{◌≡◌, ◌↔◌, ℕ, ◌<◌, false, true, All, is_some};
ghost use Rattle.hk_chain.specs.declared.page.Page.{Page};
ghost use Rattle.hk_chain.specs.Facts.{FactsView};
ghost use Rattle.hk_chain.specs.Layout.{Shape, pairs, item_of};
ghost use Rattle.hk_chain.specs.Traces.{AreFacts, AllAreFacts};
ghost use Rattle.hk_fix.specs.Fix.{Seeds, IsSetting, seeded, fix, status, finished, is_finished, is_over};
ghost use Rattle.hk_fix.specs.Pages.{Pages};
ghost use Rattle.hk_fix.specs.Run.{asks_of};
ghost use Rattle.hk_fix.specs.Task.{Run};

/// An item that is done in the fixpoint has a page there for each of its pairs. Its facts are those of a run that went
/// through, where the facts of the seeds are such.
pub fn done_items()
    ensures pages { (lay : Shape) (run : ℕ → Pages → Run Page) (seeds : Seeds) → IsSetting lay run seeds → (p : ℕ) → p < pairs lay → is_finished (status lay run seeds (item_of lay p)) ≡ true → is_some (fix lay run seeds p) ≡ true }
    ensures facts { (lay : Shape) (run : ℕ → Pages → Run Page) (seeds : Seeds) → IsSetting lay run seeds → AllAreFacts lay seeds.facts → (i : ℕ) (f : FactsView) → i < lay.items → status lay run seeds i ≡ finished f → AreFacts lay i f }
{}

/// An item without seeds is done or fails exactly where each pair that its run in the fixpoint asked for is known there.
/// So no item waits for another's end whose wanted page was saved on the way.
pub fn ends_where_known()
    ensures { (lay : Shape) (run : ℕ → Pages → Run Page) (seeds : Seeds) → IsSetting lay run seeds → (i : ℕ) → i < lay.items → seeded seeds i ≡ false → (is_over (status lay run seeds i) ≡ true) ↔ All (λ p. is_some (fix lay run seeds p) ≡ true) (asks_of (run i (fix lay run seeds)).log) }
{}
