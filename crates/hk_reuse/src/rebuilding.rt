// Why a build over stored entries is a clean build.
ghost use Rattle.std.specs.Prelude.{◌≡◌, ℕ, ◌<◌, List, ◌∷◌};
ghost use Rattle.hk_chain.specs.declared.page.Page.{Page};
ghost use Rattle.hk_fix.specs.declared.event.Event.{Event};
ghost use Rattle.hk_fix.specs.Fix.{IsComplete, fix, known, status};
ghost use Rattle.hk_fix.specs.Pages.{Pages, Extends};
ghost use Rattle.hk_fix.specs.Task.{Run};
ghost use Rattle.hk_store.specs.Digests.{Digests};
ghost use Rattle.hk_reuse.specs.Builds.{AreLinked, last_of, left, left_after};
ghost use Rattle.hk_reuse.specs.Entries.{no_entries};
ghost use Rattle.hk_reuse.specs.Histories.{others};
ghost use Rattle.hk_reuse.specs.Image.{entries_of, image};
ghost use Rattle.hk_reuse.specs.Kept.{is_kept, seeds_kept};
ghost use Rattle.hk_reuse.specs.Over.{SameRuns, over};
ghost use Rattle.hk_reuse.specs.Rebuilt.{ArePlansApart, SameRun, rebuilt, reendings, replay_run};
ghost use Rattle.hk_reuse.specs.Site.{IsSite, Site, built, clean_run, endings, items_of, no_seeds, shape_of};

/// A build over the entries that a clean build of another plan left gives the pages of a clean build, ends each item as
/// a clean build does, and leaves the entries of a clean build. For every map of known pages that the clean build has,
/// the replay of an item has the same saves and the same end as its clean run, and where it is done the same facts; so
/// the rounds of both builds are equal one by one. A build without entries is a clean build.
pub fn rebuilds_are_clean()
    ensures pages { (dig : Digests) (old new : Site) → ArePlansApart dig old new → rebuilt dig new (image dig old) ≡ built new }
    ensures ends { (dig : Digests) (old new : Site) (i : ℕ) → ArePlansApart dig old new → i < (shape_of new).items
        → reendings dig new (image dig old) i ≡ endings new i }
    ensures entries { (dig : Digests) (old new : Site) → ArePlansApart dig old new → left dig new (image dig old) ≡ image dig new }
    ensures runs { (dig : Digests) (old new : Site) (i : ℕ) (k : Pages) → ArePlansApart dig old new → i < (shape_of new).items
        → Extends k (built new) → SameRun (shape_of new) i (replay_run dig new (image dig old) i k) (clean_run new i k) }
    ensures rounds { (dig : Digests) (old new : Site) (n : ℕ) → ArePlansApart dig old new
        → known (shape_of new) (replay_run dig new (image dig old)) no_seeds n ≡ known (shape_of new) (clean_run new) no_seeds n }
    ensures anew { (dig : Digests) (site : Site) → rebuilt dig site no_entries ≡ built site }
{}

/// So is a build by compilers of which only the runs are known, where these run as the deeds of the plan's items do. Its
/// history, without the events of the items that are kept, is complete for these compilers with the kept items' pages and
/// facts as seeds. A build by these compilers, without entries too, leaves the entries of a clean build.
pub fn rebuilds_over_runs_are_clean()
    ensures pages { (dig : Digests) (old new : Site) (inner : ℕ → Pages → Run Page) → ArePlansApart dig old new
        → SameRuns (shape_of new) inner (clean_run new)
        → fix (shape_of new) (over dig (items_of new) (image dig old) inner) no_seeds ≡ fix (shape_of new) inner no_seeds }
    ensures ends { (dig : Digests) (old new : Site) (inner : ℕ → Pages → Run Page) (i : ℕ) → ArePlansApart dig old new
        → SameRuns (shape_of new) inner (clean_run new) → i < (shape_of new).items
        → status (shape_of new) (over dig (items_of new) (image dig old) inner) no_seeds i ≡ status (shape_of new) inner no_seeds i }
    ensures history { (dig : Digests) (old new : Site) (inner : ℕ → Pages → Run Page) (h : List Event) → ArePlansApart dig old new
        → SameRuns (shape_of new) inner (clean_run new)
        → IsComplete (shape_of new) (over dig (items_of new) (image dig old) inner) no_seeds h
        → IsComplete (shape_of new) inner (seeds_kept dig new (image dig old)) (others (shape_of new) (is_kept dig new (image dig old)) h) }
    ensures entries { (dig : Digests) (old new : Site) (inner : ℕ → Pages → Run Page) → ArePlansApart dig old new
        → SameRuns (shape_of new) inner (clean_run new)
        → entries_of dig (items_of new) (status (shape_of new) (over dig (items_of new) (image dig old) inner) no_seeds)
        (fix (shape_of new) (over dig (items_of new) (image dig old) inner) no_seeds)
        ≡ image dig new }
    ensures anew { (dig : Digests) (site : Site) (inner : ℕ → Pages → Run Page) → IsSite site → SameRuns (shape_of site) inner (clean_run site)
        → entries_of dig (items_of site) (status (shape_of site) inner no_seeds) (fix (shape_of site) inner no_seeds) ≡ image dig site }
{}

/// Any chain of builds that starts without entries, each over the entries that the one before left, leaves the entries
/// of the last one's clean build.
pub fn chains_of_builds_are_clean()
    ensures { (dig : Digests) (site : Site) (sites : List Site) → AreLinked dig site sites
        → left_after dig no_entries (site ∷ sites) ≡ image dig (last_of site sites) }
{}
