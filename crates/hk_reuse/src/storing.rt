// Why what a build leaves is a store, and what a store has is well formed.
ghost use Rattle.std.specs.Prelude.{◌≡◌, ℕ, ◌<◌, List};
ghost use Rattle.hk_chain.specs.Facts.{FactsView};
ghost use Rattle.hk_chain.specs.Traces.{AreFacts};
ghost use Rattle.hk_fix.specs.Fix.{Ending, finished};
ghost use Rattle.hk_fix.specs.Pages.{Pages};
ghost use Rattle.hk_store.specs.Digests.{Digests};
ghost use Rattle.hk_store.specs.Entry.{EntryView};
ghost use Rattle.hk_store.specs.Stored.{IsStored};
ghost use Rattle.hk_reuse.specs.Entries.{AreFormed, entries_in};
ghost use Rattle.hk_reuse.specs.Image.{entry_list};
ghost use Rattle.hk_reuse.specs.Site.{Items};
ghost use Rattle.hk_reuse.specs.Storable.{AreStorable};

/// The entries of the items that are done are those of a store, where the identifiers of a plan's items ascend, its pairs
/// have the names of pages, and the facts are those of runs that went through. The entries of a store are well formed.
pub fn entries_are_stored()
    ensures left { (dig : Digests) (items : Items) (ends : ℕ → Ending) (k : Pages) → AreStorable items
        → ((i : ℕ) (facts : FactsView) → i < items.table.layout.items → ends i ≡ finished facts → AreFacts items.table.layout i facts)
        → IsStored (entry_list dig items ends k) }
    ensures found { (entries : List EntryView) → IsStored entries → AreFormed (entries_in entries) }
{}
