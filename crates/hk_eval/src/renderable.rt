// Plans in which keys can be looked up.
ghost use Rattle.std.specs.Prelude.{length};
ghost use Rattle.hk_rules.specs.Plan.{lookups};
ghost use Rattle.hk_eval.specs.Renderable.{IsRenderable};

use hk_rules::Plan;

/// Tells that keys can be looked up in a plan, lists made and templates found. Constant.
pub fn renders(plan: &Plan)
    ensures { IsRenderable (lookups plan.now) (length plan.now.items) (length plan.now.contexts) (length plan.now.patterns) }
{
    plan.linked();
    let _count = plan.count();
}
