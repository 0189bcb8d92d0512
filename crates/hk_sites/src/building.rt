// Why a build by the machine's runs is a build by the deeds of a plan's items.
ghost use Rattle.std.specs.Prelude.{◌≡◌, ℕ, ◌<◌, length};
ghost use Rattle.hk_machine.specs.Machine.{plan_run, plan_shape};
ghost use Rattle.hk_reuse.specs.Image.{image};
ghost use Rattle.hk_reuse.specs.Over.{SameRuns};
ghost use Rattle.hk_reuse.specs.Site.{built, clean_run, endings, shape_of};
ghost use Rattle.hk_rules.specs.MadePlan.{IsMadePlan};
ghost use Rattle.hk_rules.specs.PlanView.{PlanView};
ghost use Rattle.hk_store.specs.Digests.{Digests};
ghost use Rattle.hk_sites.specs.PlanSite.{site_of};
ghost use Rattle.hk_sites.specs.Rebuilding.{clean_entries, ends_by, pages_by};

/// The runs of a plan's chains are those of its items' deeds. So a clean build by the one has the pages of a clean build
/// by the other, ends each item as it does, and leaves the same entries.
pub fn runs_are_deeds()
    ensures runs { (plan : PlanView) → IsMadePlan plan → SameRuns (shape_of (site_of plan)) (plan_run plan) (clean_run (site_of plan)) }
    ensures pages { (plan : PlanView) → IsMadePlan plan → pages_by plan (plan_run plan) ≡ built (site_of plan) }
    ensures ends { (plan : PlanView) (item : ℕ) → IsMadePlan plan → item < length plan.items
        → ends_by plan (plan_run plan) item ≡ endings (site_of plan) item }
    ensures entries { (dig : Digests) (plan : PlanView) → IsMadePlan plan → clean_entries dig plan ≡ image dig (site_of plan) }
{}
