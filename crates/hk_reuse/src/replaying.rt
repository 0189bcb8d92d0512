// Why replays are compilers.
ghost use Rattle.std.specs.Prelude.{◌≡◌, ℕ, ◌<◌};
ghost use Rattle.std.specs.List.{AllByRecursion};
ghost use Rattle.hk_chain.specs.declared.page.Page.{Page};
ghost use Rattle.hk_fix.specs.Pages.{Pages};
ghost use Rattle.hk_fix.specs.Run.{IsRun, patterns_of};
ghost use Rattle.hk_fix.specs.Task.{Run};
ghost use Rattle.hk_store.specs.Digests.{Digests};
ghost use Rattle.hk_reuse.specs.Entries.{AreFormed, Entries};
ghost use Rattle.hk_reuse.specs.Over.{over};
ghost use Rattle.hk_reuse.specs.Rebuilt.{replay_run};
ghost use Rattle.hk_reuse.specs.Site.{AreItems, IsSite, Items, Site, clean_run, items_of, shape_of};

/// Whatever entries there are, the replays of a plan's items keep all laws of a family of compilers, so that every order
/// of their events ends in one fixpoint.
pub fn replays_keep_laws()
    ensures { (dig : Digests) (site : Site) (entries : Entries) → IsSite site → AreFormed entries
        → IsRun (shape_of site) (replay_run dig site entries) }
{}

/// So do the replays over any lawful family of compilers, of which nothing but the laws is known; and they use patterns of
/// the plan alone, where that family does. Over the clean runs of a plan they are the replays of its items.
pub fn replays_stand_over_runs()
    ensures laws { (dig : Digests) (items : Items) (entries : Entries) (inner : ℕ → Pages → Run Page)
        → AreItems items → AreFormed entries → IsRun items.table.layout inner → IsRun items.table.layout (over dig items entries inner) }
    ensures patterns { (dig : Digests) (items : Items) (entries : Entries) (inner : ℕ → Pages → Run Page) (i : ℕ) (k : Pages) → AreFormed entries
        → AllByRecursion (λ n. n < items.patterns) (patterns_of (inner i k).log)
        → AllByRecursion (λ n. n < items.patterns) (patterns_of (over dig items entries inner i k).log) }
    ensures clean { (dig : Digests) (site : Site) (entries : Entries) (i : ℕ) (k : Pages)
        → replay_run dig site entries i k ≡ over dig (items_of site) entries (clean_run site) i k }
{}
