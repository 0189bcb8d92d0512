// Why replays by the numbers of a plan are replays by names.
ghost use Rattle.std.specs.Prelude.{◌≡◌, ℕ, ◌<◌, List};
ghost use Rattle.hk_chain.specs.declared.page.Page.{Page};
ghost use Rattle.hk_fix.specs.Pages.{Pages};
ghost use Rattle.hk_fix.specs.Task.{Run};
ghost use Rattle.hk_rules.specs.LinkedPlan.{IsLinkedPlan};
ghost use Rattle.hk_rules.specs.PlanView.{PlanView, IsPlan};
ghost use Rattle.hk_store.specs.Entry.{EntryView};
ghost use Rattle.hk_store.specs.Stored.{IsStored};
ghost use Rattle.hk_store.specs.Traits.{sha_digests};
ghost use Rattle.hk_reuse.specs.Entries.{AreFormed, Entries, entries_in};
ghost use Rattle.hk_reuse.specs.Over as named;
ghost use Rattle.hk_reuse.specs.Site.{AreItems, Items};
ghost use Rattle.hk_replay.specs.Numbered.{AreNumbered};
ghost use Rattle.hk_replay.specs.PlanItems.{items_of};
ghost use Rattle.hk_replay.specs.Replays.{AreRecords, over};
ghost use Rattle.hk_replay.specs.declared.record.Records.{Records};

/// The items of a plan are such as entries are held against, and the entries of a store are well formed.
pub fn plans_have_items()
    ensures items { (plan : PlanView) → IsPlan plan → IsLinkedPlan plan → AreItems (items_of plan) }
    ensures entries { (entries : List EntryView) → IsStored entries → AreFormed (entries_in entries) }
{}

/// Where each item has the record of its entry, if that fits, the replays of the records are the replays of the entries,
/// over any inner runs. Such records are those of their items.
pub fn records_are_entries()
    ensures runs { (items : Items) (entries : Entries) (records : Records) (inner : ℕ → Pages → Run Page)
        → AreNumbered sha_digests items entries records → (i : ℕ) (k : Pages) → i < items.table.layout.items
        → over records inner i k ≡ named.over sha_digests items entries inner i k }
    ensures records { (items : Items) (entries : Entries) (records : Records) → AreItems items → AreFormed entries
        → AreNumbered sha_digests items entries records → AreRecords items.table.layout records }
{}
