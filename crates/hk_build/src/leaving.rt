// Why what a build leaves is a store.
ghost use Rattle.std.specs.Prelude.{◌≡◌};
ghost use Rattle.hk_reuse.specs.Entries.{AreFormed, Entries, entries_in, no_entries};
ghost use Rattle.hk_rules.specs.PlanView.{PlanView};
ghost use Rattle.hk_sites.specs.Rebuilding.{entries_by, list_by};
ghost use Rattle.hk_store.specs.Stored.{AreHeld, IsStored};
ghost use Rattle.hk_store.specs.Traits.{sha_digests};
ghost use Rattle.hk_build.specs.Build.{run_of};
ghost use Rattle.hk_build.specs.Built.{left};
ghost use Rattle.hk_build.specs.Planned.{IsPlanned};

/// What a build of a plan over well-formed entries leaves can be printed as a store and read back: its entries ascend, each
/// has the marks of a run that went through, and its identifiers and digests have the form of such. An entry is found in it
/// by its item's identifier. A clean build leaves what a build over no entries does.
pub fn images_are_stores()
    ensures stored { (plan : PlanView) (entries : Entries) → IsPlanned plan → AreFormed entries
        → IsStored (list_by sha_digests plan (run_of plan entries)) }
    ensures held { (plan : PlanView) (entries : Entries) → IsPlanned plan → AreFormed entries
        → AreHeld (list_by sha_digests plan (run_of plan entries)) }
    ensures found { (plan : PlanView) (entries : Entries) → IsPlanned plan
        → entries_in (list_by sha_digests plan (run_of plan entries)) ≡ entries_by sha_digests plan (run_of plan entries) }
    ensures clean { (plan : PlanView) → left plan ≡ entries_in (list_by sha_digests plan (run_of plan no_entries)) }
{}
