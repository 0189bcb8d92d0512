// Why the items whose stored results a build of a plan goes on with need no compiler.
ghost use Rattle.std.specs.Prelude.{◌≡◌, ℕ, ◌<◌, true, List, length};
ghost use Rattle.hk_fix.specs.declared.event.Event.{Event};
ghost use Rattle.hk_fix.specs.Fix.{IsComplete, is_finished};
ghost use Rattle.hk_machine.specs.Machine.{plan_run, plan_shape};
ghost use Rattle.hk_reuse.specs.Histories.{others};
ghost use Rattle.hk_reuse.specs.Site.{no_seeds};
ghost use Rattle.hk_rules.specs.MadePlan.{IsMadePlan};
ghost use Rattle.hk_rules.specs.PlanView.{PlanView};
ghost use Rattle.hk_store.specs.Digests.{Digests};
ghost use Rattle.hk_sites.specs.Rebuilding.{AreApart, clean_entries, ends_by, keeps, run_over, seeds_of_kept};

/// An item that is kept is done in a clean build. A complete history of a build over the entries that a clean build of
/// another plan left is, without the events of the kept items, a complete history of the machine's runs with the pages and
/// facts of the kept items as seeds. Built again as it was, a plan keeps each item that is done, whatever the digests.
pub fn kept_items_of_plans()
    ensures finished { (dig : Digests) (old new : PlanView) (item : ℕ) → AreApart dig old new → keeps dig new (clean_entries dig old) item ≡ true
        → is_finished (ends_by new (plan_run new) item) ≡ true }
    ensures history { (dig : Digests) (old new : PlanView) (h : List Event) → AreApart dig old new
        → IsComplete (plan_shape new) (run_over dig new (clean_entries dig old)) no_seeds h
        → IsComplete (plan_shape new) (plan_run new) (seeds_of_kept dig new (clean_entries dig old))
        (others (plan_shape new) (keeps dig new (clean_entries dig old)) h) }
    ensures unchanged { (dig : Digests) (plan : PlanView) (item : ℕ) → IsMadePlan plan → item < length plan.items
        → is_finished (ends_by plan (plan_run plan) item) ≡ true → keeps dig plan (clean_entries dig plan) item ≡ true }
{}
