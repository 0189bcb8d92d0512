// Why a build over an honest store is a clean build.
ghost use Rattle.std.specs.Prelude.{◌≡◌, Option};
ghost use Rattle.std.specs.FinMap.{get};
ghost use Rattle.hk_base.specs.Bytes.{Bytes, Files};
ghost use Rattle.hk_build.specs.Built.{IsClean};
ghost use Rattle.hk_rules.specs.PlanView.{PlanView};
ghost use Rattle.hk_app.specs.Promise.{report_lines};
ghost use Rattle.hk_app.specs.Standing.{store_path};
ghost use Rattle.hk_app.specs.Taking.{IsTakenOf, Taken, nothing};
ghost use Rattle.hk_app.specs.World.{Folders};
ghost use Rattle.hk_app.specs.declared.status.Status.TheVariants.{Ok as Done, Report};
ghost use Rattle.hk_honest.specs.Chain.{IsRun};
ghost use Rattle.hk_honest.specs.Honest.{IsCleanReport, IsCleanSite, IsHonest, SaysCleanly, clean_summary};

/// What is taken of a store that is honest for a plan gives the pages, the ends and the store of a clean build.
pub fn honest_stores_give_clean_runs()
    ensures { (plan : PlanView) (store : Option Bytes) (t : Taken) → IsHonest plan store → IsTakenOf store t → IsClean plan t.entries }
{}

/// A run of `build` over a store that is honest for its plan: with `Ok` every item is done in the least fixpoint of the
/// plan's compilers, the site is exactly its pages, and `store` is that of a clean build; with `Report` some item isn't done
/// there, the site is as before, and `store` is that of a clean build.
/// `summed`, `named`: after the line of a damaged store, and the history where it is asked for, it says with `Ok` how many items
/// were compiled and how many were reused, and what the site of a clean build writes and removes; and with `Report` exactly what
/// a clean build reports, so each failure and each cycle of that fixpoint. The history is complete for the plan's compilers
/// with the pages and facts of the kept items as seeds, and exactly the items that are compiled begin in it.
pub fn builds_over_honest_stores_are_clean()
    ensures ok { (plan : PlanView) (cache : Files) (old new : Folders) → IsRun plan cache old new Done → IsHonest plan (get cache store_path)
        → IsCleanSite plan cache new }
    ensures report { (plan : PlanView) (cache : Files) (old new : Folders) → IsRun plan cache old new Report → IsHonest plan (get cache store_path)
        → IsCleanReport plan cache old new }
    ensures summed { (plan : PlanView) (cache : Files) (old new : Folders) → (r : IsRun plan cache old new Done) → IsHonest plan (get cache store_path)
        → (t : Taken) × IsTakenOf (get cache store_path) t × SaysCleanly r.options.trace plan t (clean_summary plan t r.site) r.out r.out' }
    ensures named { (plan : PlanView) (cache : Files) (old new : Folders) → (r : IsRun plan cache old new Report) → IsHonest plan (get cache store_path)
        → (t : Taken) × IsTakenOf (get cache store_path) t × SaysCleanly r.options.trace plan t (report_lines plan nothing) r.out r.out' }
{}
