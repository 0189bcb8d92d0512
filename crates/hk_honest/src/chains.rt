// Why a chain of builds leaves what clean builds leave.
ghost use Rattle.std.specs.Prelude.{◌≡◌, Some};
ghost use Rattle.std.specs.FinMap.{get};
ghost use Rattle.hk_base.specs.Bytes.{Files};
ghost use Rattle.hk_build.specs.Build.{image};
ghost use Rattle.hk_reuse.specs.Entries.{no_entries};
ghost use Rattle.hk_rules.specs.PlanView.{PlanView};
ghost use Rattle.hk_app.specs.Standing.{store_path};
ghost use Rattle.hk_app.specs.World.{Folders};
ghost use Rattle.hk_app.specs.declared.status.Status.TheVariants.{Ok as Done, Report};
ghost use Rattle.hk_honest.specs.Chain.{IsChain, IsLinked, IsRun};
ghost use Rattle.hk_honest.specs.Honest.{IsCleanReport, IsCleanSite};

/// Whatever builds came before, each with the status Ok or Report and each of a plan that may follow the one before, the
/// cache has the store of the last one's clean build. So the build after them leaves what a clean build leaves, too.
pub fn chains_of_builds_are_clean()
    ensures store { (plan : PlanView) (left : Files) → IsChain plan left → get left store_path ≡ Some (image plan no_entries) }
    ensures ok { (before plan : PlanView) (cache : Files) (old new : Folders) → IsChain before cache → IsLinked before plan
        → IsRun plan cache old new Done → IsCleanSite plan cache new }
    ensures report { (before plan : PlanView) (cache : Files) (old new : Folders) → IsChain before cache → IsLinked before plan
        → IsRun plan cache old new Report → IsCleanReport plan cache old new }
{}
