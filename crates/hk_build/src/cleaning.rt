// Why a build over what another clean build left is a clean build.
ghost use Rattle.std.specs.Prelude.{List};
ghost use Rattle.hk_fix.specs.declared.event.Event.{Event};
ghost use Rattle.hk_fix.specs.Fix.{IsComplete};
ghost use Rattle.hk_machine.specs.Machine.{plan_run, plan_shape};
ghost use Rattle.hk_reuse.specs.Site.{no_seeds};
ghost use Rattle.hk_rules.specs.PlanView.{PlanView};
ghost use Rattle.hk_build.specs.Build.{run_of, seeds, shown};
ghost use Rattle.hk_build.specs.Built.{AreApart, IsClean, left};

/// Over the entries that a clean build of a plan left which is apart, a build has the pages and the ends of a clean build,
/// and leaves its store. A complete history of such a build is, without the events of the items that are kept, a complete
/// history of the machines' runs alone with the pages and facts of the kept items as seeds.
pub fn honest_builds_are_clean()
    ensures clean { (old new : PlanView) → AreApart old new → IsClean new (left old) }
    ensures history { (old new : PlanView) (h : List Event) → AreApart old new
        → IsComplete (plan_shape new) (run_of new (left old)) no_seeds h
        → IsComplete (plan_shape new) (plan_run new) (seeds new (left old)) (shown new (left old) h) }
{}
