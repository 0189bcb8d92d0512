// Why the runs of a plan over stored entries are lawful, and why they leave a store.
ghost use Rattle.std.specs.Prelude.{◌≡◌, ℕ, ◌<◌, List, length, Ok};
ghost use Rattle.std.specs.List.{AllByRecursion};
ghost use Rattle.hk_base.specs.Bytes.{Bytes};
ghost use Rattle.hk_chain.specs.Facts.{FactsView};
ghost use Rattle.hk_chain.specs.Kept.{none_kept};
ghost use Rattle.hk_chain.specs.Layout.{Shape};
ghost use Rattle.hk_fix.specs.Fix.{IsSetting, finished, seeds_of};
ghost use Rattle.hk_machine.specs.Machine.{plan_shape};
ghost use Rattle.hk_reuse.specs.Entries.{AreFormed, Entries, entries_in};
ghost use Rattle.hk_reuse.specs.Site.{no_seeds};
ghost use Rattle.hk_rules_file.specs.Rules.{RulesView};
ghost use Rattle.hk_rules.specs.MadePlan.{IsMadePlan};
ghost use Rattle.hk_rules.specs.PlanView.{PlanView};
ghost use Rattle.hk_rules.specs.Planning.{plan_of};
ghost use Rattle.hk_store.specs.Digests.{Digests};
ghost use Rattle.hk_store.specs.Stored.{AreHeld, IsStored};
ghost use Rattle.hk_store.specs.Traits.{sha_digests};
ghost use Rattle.hk_sites.specs.PlanSite.{items_of};
ghost use Rattle.hk_sites.specs.Rebuilding.{HasDigests, ends_by, entries_by, list_by, run_over};

/// Whatever well-formed entries there are, the runs of a plan's items over them keep all laws of a family of compilers, and
/// the facts of an item that is done name patterns of the plan alone. Where nothing is kept there are no seeds.
pub fn runs_over_entries_are_lawful()
    ensures laws { (dig : Digests) (plan : PlanView) (entries : Entries) → IsMadePlan plan → AreFormed entries
        → IsSetting (plan_shape plan) (run_over dig plan entries) no_seeds }
    ensures patterns { (dig : Digests) (plan : PlanView) (entries : Entries) (item : ℕ) (facts : FactsView) → IsMadePlan plan
        → AreFormed entries → item < length plan.items → ends_by plan (run_over dig plan entries) item ≡ finished facts
        → AllByRecursion (λ n. n < length plan.patterns) facts.patterns }
    ensures seeds { (lay : Shape) → seeds_of (none_kept lay) ≡ no_seeds }
{}

/// What a build of a plan over well-formed entries leaves, in the order of the items, is a store, in which an entry is found
/// by its item's identifier. Its identifiers are within their limits where the plan's items are those of rules, and its
/// digests have the form of one, as those by SHA-256 have.
pub fn builds_of_plans_leave_stores()
    ensures stored { (dig : Digests) (plan : PlanView) (entries : Entries) → IsMadePlan plan → AreFormed entries
        → IsStored (list_by dig plan (run_over dig plan entries)) }
    ensures found { (dig : Digests) (plan : PlanView) (entries : Entries) → IsMadePlan plan
        → entries_in (list_by dig plan (run_over dig plan entries)) ≡ entries_by dig plan (run_over dig plan entries) }
    ensures held { (dig : Digests) (rules : RulesView) (files : List (Bytes × Bytes)) (plan : PlanView) (entries : Entries)
        → plan_of rules files ≡ Ok plan → IsMadePlan plan → AreFormed entries → HasDigests dig
        → AreHeld (list_by dig plan (run_over dig plan entries)) }
    ensures digests { HasDigests sha_digests }
{}
