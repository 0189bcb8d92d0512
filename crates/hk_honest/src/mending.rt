// Why the next build mends what a stop left.
ghost use Rattle.std.specs.Prelude.{◌≡◌};
ghost use Rattle.std.specs.FinMap.{get};
ghost use Rattle.hk_base.specs.Bytes.{Files};
ghost use Rattle.hk_rules.specs.PlanView.{PlanView};
ghost use Rattle.hk_app.specs.Promise.{AtOutFault};
ghost use Rattle.hk_app.specs.Standing.{store_path};
ghost use Rattle.hk_app.specs.World.{Folders};
ghost use Rattle.hk_app.specs.declared.status.Status.{Status};
ghost use Rattle.hk_app.specs.declared.status.Status.TheVariants.{Ok as Done, Report};
ghost use Rattle.hk_honest.specs.Chain.{IsRun};
ghost use Rattle.hk_honest.specs.Honest.{IsCleanReport, IsCleanSite, IsHonest};
ghost use Rattle.hk_honest.specs.Mended.{FailsElsewhere, IsAnswered, IsFaultless, IsRunBefore, IsStoreAfter};

/// Whatever a run before came to, and at whichever call of a folder it was stopped, the next build leaves what a clean build
/// leaves. `store`: after the run before, the cache has the store that stood before, none, that of a clean build of the run's
/// plan, or after a counted fault what a failed write leaves. `elsewhere`: after a fault of the source or the site the cache
/// is as it was. `unsaid`: and so it is where the output failed besides, so that the text of such a fault was cut short.
/// `honest`: so the store is honest again, and any number of stops may follow. `ok`, `report`: with these statuses of the next
/// build the site and the store are exactly those of a clean build. `answers`: without faults it answers `Ok` or `Report`,
/// each exactly where the least fixpoint has every item done, or not, but for want of memory.
pub fn stops_are_mended()
    ensures store { (plan : PlanView) (cache after : Files) (r : IsRunBefore plan cache after)
        → IsStoreAfter r.words r.old r.new (get cache store_path) (get after store_path) }
    ensures elsewhere { (plan : PlanView) (cache after : Files) (r : IsRunBefore plan cache after) → FailsElsewhere r.status → after ≡ cache }
    ensures unsaid { (plan : PlanView) (cache after : Files) (r : IsRunBefore plan cache after) → (p : AtOutFault r.words r.old r.new r.out r.out')
        → FailsElsewhere p.status → after ≡ cache }
    ensures honest { (plan : PlanView) (cache after : Files) → IsRunBefore plan cache after → IsHonest plan (get after store_path) }
    ensures ok { (plan : PlanView) (cache after : Files) (old new : Folders) → IsRunBefore plan cache after → IsRun plan after old new Done
        → IsCleanSite plan after new }
    ensures report { (plan : PlanView) (cache after : Files) (old new : Folders) → IsRunBefore plan cache after → IsRun plan after old new Report
        → IsCleanReport plan after old new }
    ensures answers { (plan : PlanView) (cache after : Files) (old new : Folders) (status : Status) → IsRunBefore plan cache after
        → (b : IsRun plan after old new status) → IsFaultless old new b.out b.out' → IsAnswered plan status }
{}
