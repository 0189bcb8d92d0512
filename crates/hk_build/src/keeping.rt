// What the items tell whose stored results a build goes on with, and those that are compiled.
ghost use Rattle.std.specs.Prelude.{◌≡◌, ℕ, ◌+◌, ◌<◌, true, not, List, Some, length};
ghost use Rattle.hk_eval.specs.PlanTable.{table_of};
ghost use Rattle.hk_fix.specs.declared.event.Event.{Event};
ghost use Rattle.hk_fix.specs.declared.event.Event.TheVariants.{Begin};
ghost use Rattle.hk_fix.specs.Facts.{is_in};
ghost use Rattle.hk_fix.specs.Fix.{IsComplete, IsSetting, is_finished, stands};
ghost use Rattle.hk_machine.specs.Machine.{plan_shape};
ghost use Rattle.hk_reuse.specs.Entries.{AreFormed, Entries, IsFormed, no_entries};
ghost use Rattle.hk_reuse.specs.Fits.{is_own};
ghost use Rattle.hk_reuse.specs.Kept.{asks_unchanged};
ghost use Rattle.hk_reuse.specs.Site.{no_seeds};
ghost use Rattle.hk_rules.specs.Plan.{id_at};
ghost use Rattle.hk_rules.specs.PlanView.{PlanView};
ghost use Rattle.hk_sites.specs.PlanSite.{items_of};
ghost use Rattle.hk_store.specs.Entry.{EntryView};
ghost use Rattle.hk_store.specs.Traits.{sha_digests};
ghost use Rattle.hk_build.specs.Build.{compiled, ending, pages, reused, run_of, seeds, shown};
ghost use Rattle.hk_build.specs.Built.{left};
ghost use Rattle.hk_build.specs.Planned.{IsPlanned};

/// Over any well-formed entries, a complete history of a build's runs is, without the events of the items that are kept, a
/// complete history of the same runs with the pages and facts of the kept items as seeds. The layout, these runs and these
/// seeds are a setting, so all that holds of complete histories in a setting holds of this one. Exactly the items that are
/// compiled begin in it. Each item is either kept or compiled.
pub fn kept_items_leave_histories()
    ensures history { (plan : PlanView) (entries : Entries) (h : List Event) → IsPlanned plan → AreFormed entries
        → IsComplete (plan_shape plan) (run_of plan entries) no_seeds h
        → IsComplete (plan_shape plan) (run_of plan entries) (seeds plan entries) (shown plan entries h) }
    ensures setting { (plan : PlanView) (entries : Entries) → IsPlanned plan → AreFormed entries
        → IsSetting (plan_shape plan) (run_of plan entries) (seeds plan entries) }
    ensures begin { (plan : PlanView) (entries : Entries) (h : List Event) (item : ℕ)
        → IsComplete (plan_shape plan) (run_of plan entries) no_seeds h → item < length plan.items
        → stands (Begin item) (shown plan entries h) ≡ is_in (compiled plan entries) item }
    ensures count { (plan : PlanView) (entries : Entries) → length (compiled plan entries) + length (reused plan entries) ≡ length plan.items }
{}

/// An item whose entry has its fingerprint, names and matches is compiled exactly where something that it asked for
/// changed: where a page that its entry asks for is none of the plan's, isn't known at the end or has another digest, or the
/// traits of that page's item have.
pub fn early_cutoff()
    ensures { (plan : PlanView) (entries : Entries) (item : ℕ) (entry : EntryView) → item < length plan.items
        → entries (id_at plan item) ≡ Some entry → IsFormed entry → is_own sha_digests (items_of plan) item entry ≡ true
        → is_in (compiled plan entries) item ≡ not (asks_unchanged sha_digests (table_of plan) (pages plan entries) entry) }
{}

/// A plan that is built again over what its clean build left goes on with the stored results of every item that is done.
pub fn unchanged_builds_compile_nothing()
    ensures { (plan : PlanView) (item : ℕ) → IsPlanned plan → item < length plan.items → is_finished (ending plan no_entries item) ≡ true
        → is_in (reused plan (left plan)) item ≡ true }
{}
