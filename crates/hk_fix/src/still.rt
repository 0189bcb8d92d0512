// What a run waits for when more pages are known.
ghost use Rattle.std.specs.Prelude.{◌≡◌, ℕ, ◌<◌, List, None, Contains};
ghost use Rattle.hk_chain.specs.declared.page.Page.{Page};
ghost use Rattle.hk_chain.specs.Layout.{Shape};
ghost use Rattle.hk_fix.specs.Pages.{Pages, Extends, lacking};
ghost use Rattle.hk_fix.specs.Task.{Run, waits};
ghost use Rattle.hk_fix.specs.Run.{IsRun};

/// Where a run waits for some pairs, and more pages are known but not those of all these pairs, it waits for exactly the
/// others of them, in the same order.
pub fn still_waiting()
    ensures { (lay : Shape) (run : ℕ → Pages → Run Page) → IsRun lay run → (i : ℕ) (k m : Pages) (l : List ℕ) (p : ℕ) → i < lay.items → (run i k).end ≡ waits l → Extends k m → Contains l p → m p ≡ None → (run i m).end ≡ waits (lacking m l) }
{}
