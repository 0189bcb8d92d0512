// What is known of the entries that a build leaves.
ghost use Rattle.std.specs.Prelude.{◌≡◌, ℕ, ◌<◌};
ghost use Rattle.hk_chain.specs.Facts.{FactsView};
ghost use Rattle.hk_chain.specs.Traces.{AreFacts};
ghost use Rattle.hk_fix.specs.Fix.{Ending, IsSetting, finished, status};
ghost use Rattle.hk_fix.specs.Run.{patterns_of};
ghost use Rattle.hk_fix.specs.Task.{Run};
ghost use Rattle.hk_chain.specs.declared.page.Page.{Page};
ghost use Rattle.hk_chain.specs.Layout.{Shape};
ghost use Rattle.std.specs.List.{AllByRecursion};
ghost use Rattle.hk_fix.specs.Pages.{Pages};
ghost use Rattle.hk_store.specs.Digests.{Digests};
ghost use Rattle.hk_reuse.specs.Builds.{left};
ghost use Rattle.hk_reuse.specs.Entries.{AreFormed, Entries, entries_in};
ghost use Rattle.hk_reuse.specs.Image.{entries_of, entry_list, image};
ghost use Rattle.hk_reuse.specs.Site.{AreItems, IsSite, Items, Site, no_seeds};

/// The entries that a clean build leaves are well formed, and so are those of a build over any well-formed entries, and
/// all that are made of facts of runs that went through. An entry is found by its item's identifier in the list that has
/// the entries in the order of the items. Where runs use patterns below a limit alone, so do the facts of the items that
/// are done.
pub fn builds_leave_entries()
    ensures clean { (dig : Digests) (site : Site) → IsSite site → AreFormed (image dig site) }
    ensures over_entries { (dig : Digests) (site : Site) (entries : Entries) → IsSite site → AreFormed entries → AreFormed (left dig site entries) }
    ensures of_facts { (dig : Digests) (items : Items) (ends : ℕ → Ending) (k : Pages) → AreItems items
        → ((i : ℕ) (facts : FactsView) → i < items.table.layout.items → ends i ≡ finished facts → AreFacts items.table.layout i facts)
        → AreFormed (entries_of dig items ends k) }
    ensures listed { (dig : Digests) (items : Items) (ends : ℕ → Ending) (k : Pages) → AreItems items
        → entries_in (entry_list dig items ends k) ≡ entries_of dig items ends k }
    ensures patterns { (lay : Shape) (run : ℕ → Pages → Run Page) (limit i : ℕ) (facts : FactsView) → IsSetting lay run no_seeds
        → ((j : ℕ) (k : Pages) → j < lay.items → AllByRecursion (λ n. n < limit) (patterns_of (run j k).log)) → i < lay.items
        → status lay run no_seeds i ≡ finished facts → AllByRecursion (λ n. n < limit) facts.patterns }
{}
