// What makes replays over the compilers that another maker makes.
ghost use Rattle.std.specs.Prelude.{◌≡◌, IfOk};
ghost use Rattle.std.specs.Bool.{OnTrue};
ghost use Rattle.hk_rules.specs.Plan.{lookups};
ghost use Rattle.hk_store.specs.Stored.{IsStored};
ghost use Rattle.hk_store.specs.Traits.{sha_digests};
ghost use Rattle.hk_chain.specs.Kept.{at_place};
ghost use Rattle.hk_fix.specs.Report.{ending_at};
ghost use Rattle.hk_reuse.specs.Entries.{Entries, entries_in};
ghost use Rattle.hk_reuse.specs.Image.{entry_list};
ghost use Rattle.hk_reuse.specs.Kept.{out_of_date};
ghost use Rattle.hk_replay.specs.Known.{IsKnown};
ghost use Rattle.hk_replay.specs.Numbered.{AreNumbered};
ghost use Rattle.hk_replay.specs.PlanItems.{items_of};
ghost use Rattle.hk_replay.specs.Replays.{AreRecords};
ghost use Rattle.hk_replay.specs.RecordsOnce.{records-prop};
ghost use Rattle.hk_replay.specs.Storing.{CanStore};

use crate::known::Known;
use crate::named::{plans_have_items, records_are_entries};
use crate::numbering::records_of;
use crate::record::Records;
use crate::renewing::others_of;
use crate::replay::{Held, Replay};
use crate::way::begin;
use crate::{leaving, storing};
use hk_base::{NoMemory, Shared};
use hk_chain::ItemNo;
use hk_fix::{Compiler, Maker, Results};
use hk_rules::Plan;
use hk_store::Stored;
use std::alloc::Global;

/// Makes replays over the compilers of another maker.
#[derive(Drop)]
pub struct ReplayMaker<K: Maker + Drop> {
    inner: K,
    records: Shared<Records>,
    known: Known,
    ghost fit: { AreRecords (K.M.shape (K.common_is inner)) records } by { records-prop (K.M.shape (K.common_is inner)) records },
}

impl<K: Maker + Drop> ReplayMaker<K> {
    /// What makes the replays of a store's entries, where they fit the items of a plan; all other items are compiled by the
    /// inner compilers. `NoMemory` only for want of memory. Linear in the items' fingerprints and metadata, each of which is
    /// hashed once, in the pairs, in the items for each pattern, and in the store but for the bodies of its pages, which are
    /// shared; logarithmic for each entry, each asked page and each recorded pattern.
    pub fn new(
        alloc: Global,
        plan: &Plan,
        stored: &Stored,
        inner: K,
    ) -> Result<ReplayMaker<K>, NoMemory>
        requires layout { K.M.shape (K.common_is inner) ≡ (lookups plan.now).layout }
        requires stored { IsStored stored.now }
        ensures inner { IfOk result (λ m. m.inner ≡ inner) }
        ensures records { IfOk result (λ m. AreNumbered sha_digests (items_of plan.now) (entries_in stored.now) m.records) }
        ensures known { IfOk result (λ m. IsKnown plan.now m.known) }
    {
        plans_have_items();
        records_are_entries();
        plan.linked();
        let _count = plan.count();
        let known = Known::of(alloc, plan)?;
        let made = records_of(alloc, plan, &known, stored)?;
        let records = Shared::new(alloc, made)?;
        Ok(ReplayMaker {
            inner,
            records,
            known,
        })
    }

    /// The items that are out of date once a build has ended: those without an entry that fits and goes through all its
    /// marks under the pages that are known then. `NoMemory` only for want of memory. Linear in the asked pages; a page that
    /// was hashed for a replay is compared, and not hashed again.
    pub fn out_of_date(
        &self,
        alloc: Global,
        plan: &Plan,
        results: &Results,
    ) -> Result<Vec<ItemNo>, NoMemory>
        ensures { IfOk result (λ v. (entries : Entries) → AreNumbered sha_digests (items_of plan.now) entries self.now.records
            → v.items ≡ out_of_date sha_digests (items_of plan.now) (at_place results.now.pages) entries) }
    {
        others_of(alloc, self.records.get(), &results.pages, plan.count())
    }

    /// Whether the entries that a build leaves are those of a store: the entries of the items that are done, in order, of the
    /// plan that this maker was made with. `NoMemory` only for want of memory. Linear in the items, in the matches of their
    /// patterns, in the asked pages and in the saved ones; nothing is copied, and a page that was hashed before is compared,
    /// and not hashed again.
    pub fn leaves(
        &self,
        alloc: Global,
        plan: &Plan,
        results: &Results,
        stored: &Stored,
    ) -> Result<bool, NoMemory>
        requires known { IsKnown plan.now self.now.known }
        requires results { CanStore plan.now results.now }
        ensures { IfOk result (λ b. OnTrue b (entry_list sha_digests (items_of plan.now) (ending_at results.now.outcomes)
            (at_place results.now.pages) ≡ stored.now)) }
    {
        leaving::leaves(alloc, plan, &self.known, results, stored)
    }

    /// The entries of the items that are done, in order, of the plan that this maker was made with. `NoMemory` only for want
    /// of memory. Linear in the items, in the matches of their patterns and in the asked pages; saved pages are shared, and a
    /// page that was hashed before is compared, and not hashed again.
    pub fn make_stored(
        &self,
        alloc: Global,
        plan: &Plan,
        results: &Results,
    ) -> Result<Stored, NoMemory>
        requires known { IsKnown plan.now self.now.known }
        requires results { CanStore plan.now results.now }
        ensures { IfOk result (λ s. s ≡ entry_list sha_digests (items_of plan.now) (ending_at results.now.outcomes) (at_place results.now.pages)) }
    {
        storing::make_stored(alloc, plan, &self.known, results)
    }
}

impl<K: Maker + Drop> Maker for ReplayMaker<K> {
    ghost use Rattle.hk_replay.specs.Keeping.{HeldView};

    type M = Replay<K::M>;

    ghost common_is = { λ k. record { inner = K.common_is k.inner; records = k.records } };

    fn common(&self, alloc: Global) -> Result<Held<<K::M as Compiler>::Common>, NoMemory> {
        let inner = self.inner.common(alloc)?;
        let records = self.records.try_clone()?;
        Ok(Held { inner, records })
    }

    fn make(&self, alloc: Global, item: ItemNo) -> Result<Replay<K::M>, NoMemory> {
        let inner = self.inner.make(alloc, item)?;
        let records = self.records.try_clone()?;
        let way = begin(alloc, records.get(), inner);
        Ok(Replay {
            records,
            way,
            is_spent: false,
        })
    }

    ghost made = { λ k. (K.made k.inner, k.fit) };
}
