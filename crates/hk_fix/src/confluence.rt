// Why every order of events ends in the fixpoint.
ghost use Rattle.std.specs.Prelude.{◌≡◌, ◌≢◌, ◌↔◌, ℕ, ◌<◌, List, false, true, All, is_some};
ghost use Rattle.hk_chain.specs.declared.page.Page.{Page};
ghost use Rattle.hk_chain.specs.Kept.{KeptView, IsKept};
ghost use Rattle.hk_chain.specs.Layout.{Shape, pairs, item_of, final_of};
ghost use Rattle.hk_fix.specs.Pages.{Pages, Extends};
ghost use Rattle.hk_fix.specs.Task.{Run};
ghost use Rattle.hk_fix.specs.Run.{is_wait, asks_of};
ghost use Rattle.hk_fix.specs.Fix.{Seeds, IsSeeds, IsSetting, seeded, waiting, round, fix, status, known_after, has_saved, has_finished, IsLawful, IsComplete, HasEnded, Blocks, seeds_of};

/// Whatever the order of its events, a complete history leaves the pages of the least fixpoint and ends each item by
/// its status there. What is known after a lawful history is in the fixpoint, and a run that ends then is the run of
/// the fixpoint. There a run ends exactly where each pair that it asked for is known, and an item that
/// waits does so for pairs of unfinished items.
pub fn every_order()
    ensures pages { (lay : Shape) (run : ℕ → Pages → Run Page) (seeds : Seeds) → IsSetting lay run seeds → (h : _) → IsComplete lay run seeds h → known_after lay run seeds h ≡ fix lay run seeds }
    ensures ends { (lay : Shape) (run : ℕ → Pages → Run Page) (seeds : Seeds) → IsSetting lay run seeds → (h : _) → IsComplete lay run seeds h → (i : ℕ) → i < lay.items → seeded seeds i ≡ false → HasEnded h i (status lay run seeds i) }
    ensures within { (lay : Shape) (run : ℕ → Pages → Run Page) (seeds : Seeds) → IsSetting lay run seeds → (h : _) → IsLawful lay run seeds h → Extends (known_after lay run seeds h) (fix lay run seeds) }
    ensures early { (lay : Shape) (run : ℕ → Pages → Run Page) (seeds : Seeds) → IsSetting lay run seeds → (h : _) → IsLawful lay run seeds h → (i : ℕ) → i < lay.items → is_wait (run i (known_after lay run seeds h)).end ≡ false → run i (fix lay run seeds) ≡ run i (known_after lay run seeds h) }
    ensures stops { (lay : Shape) (run : ℕ → Pages → Run Page) (seeds : Seeds) → IsSetting lay run seeds → (i : ℕ) → i < lay.items → (is_wait (run i (fix lay run seeds)).end ≡ false) ↔ All (λ p. is_some (fix lay run seeds p) ≡ true) (asks_of (run i (fix lay run seeds)).log) }
    ensures waits { (lay : Shape) (run : ℕ → Pages → Run Page) (seeds : Seeds) → IsSetting lay run seeds → (i : ℕ) (ps : List ℕ) → i < lay.items → status lay run seeds i ≡ waiting ps → Blocks lay (status lay run seeds) ps }
{}

/// The fixpoint is one: a round leaves it as it is. And it is the least: it is within all pages to which a round adds
/// nothing.
pub fn least_fixpoint()
    ensures fixed { (lay : Shape) (run : ℕ → Pages → Run Page) (seeds : Seeds) → IsSetting lay run seeds → round lay run seeds (fix lay run seeds) ≡ fix lay run seeds }
    ensures least { (lay : Shape) (run : ℕ → Pages → Run Page) (seeds : Seeds) → IsSetting lay run seeds → (k : Pages) → Extends (round lay run seeds k) k → Extends (fix lay run seeds) k }
{}

/// After a lawful history the pages of an item without seeds are known exactly where their events stand: a page on the
/// way where its save stands, and the finished page where the item is done.
pub fn known_by_events()
    ensures snapshots { (lay : Shape) (run : ℕ → Pages → Run Page) (seeds : Seeds) → IsSetting lay run seeds → (h : _) → IsLawful lay run seeds h → (p : ℕ) → p < pairs lay → seeded seeds (item_of lay p) ≡ false → p ≢ final_of lay (item_of lay p) → is_some (known_after lay run seeds h p) ≡ has_saved h p }
    ensures finals { (lay : Shape) (run : ℕ → Pages → Run Page) (seeds : Seeds) → IsSetting lay run seeds → (h : _) → IsLawful lay run seeds h → (i : ℕ) → i < lay.items → seeded seeds i ≡ false → is_some (known_after lay run seeds h (final_of lay i)) ≡ has_finished h i }
{}

/// Kept pages and facts are seeds.
pub fn kept_are_seeds()
    ensures { (lay : Shape) (kept : KeptView) → IsKept lay kept → IsSeeds lay (seeds_of kept) }
{}
