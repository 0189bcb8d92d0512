// Why a build of a plan over stored entries is a clean build.
ghost use Rattle.std.specs.Prelude.{◌≡◌, List, ◌∷◌};
ghost use Rattle.hk_reuse.specs.Entries.{no_entries};
ghost use Rattle.hk_reuse.specs.Rebuilt.{ArePlansApart};
ghost use Rattle.hk_rules.specs.MadePlan.{IsMadePlan};
ghost use Rattle.hk_rules.specs.PlanView.{PlanView};
ghost use Rattle.hk_store.specs.Digests.{Digests};
ghost use Rattle.hk_sites.specs.PlanSite.{site_of};
ghost use Rattle.hk_sites.specs.Rebuilding.{AreApart, AreLinked, IsCleanBuild, clean_entries, entries_after, last_of};

/// Plans that are apart are sites that are. A build of a plan, by the machine's runs, over the entries that a clean build
/// of another plan left has the pages of a clean build, ends each item as a clean build does, and leaves the entries of a
/// clean build.
pub fn rebuilds_of_plans_are_clean()
    ensures apart { (dig : Digests) (old new : PlanView) → AreApart dig old new → ArePlansApart dig (site_of old) (site_of new) }
    ensures clean { (dig : Digests) (old new : PlanView) → AreApart dig old new → IsCleanBuild dig new (clean_entries dig old) }
{}

/// A plan is apart from itself, whatever the digests and the lengths. Any chain of builds that starts without entries, each
/// over the entries that the one before left, leaves the entries of the last one's clean build.
pub fn chains_of_plans_are_clean()
    ensures same { (dig : Digests) (plan : PlanView) → IsMadePlan plan → IsCleanBuild dig plan (clean_entries dig plan) }
    ensures chain { (dig : Digests) (plan : PlanView) (plans : List PlanView) → AreLinked dig plan plans
        → entries_after dig no_entries (plan ∷ plans) ≡ clean_entries dig (last_of plan plans) }
{}
