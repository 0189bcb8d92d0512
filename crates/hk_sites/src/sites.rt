// Why plans that rules make are sites.
ghost use Rattle.std.specs.Prelude.{◌≡◌};
ghost use Rattle.hk_machine.specs.Machine.{plan_shape};
ghost use Rattle.hk_reuse.specs.Site as sites;
ghost use Rattle.hk_reuse.specs.Site.{AreItems, IsSite, UsesItsOwn};
ghost use Rattle.hk_reuse.specs.Storable.{AreStorable};
ghost use Rattle.hk_rules.specs.MadePlan.{IsMadePlan};
ghost use Rattle.hk_rules.specs.PlanView.{PlanView};
ghost use Rattle.hk_sites.specs.PlanSite.{items_of, site_of};

/// A plan that rules make is a site: its pairs stand item after item, the deeds of its items are proper, and an item is
/// found by its identifier. Each item's last pair is that of its finished page, and runs use patterns of the plan alone.
/// The entries of its items are those of a store.
pub fn plans_are_sites()
    ensures site { (plan : PlanView) → IsMadePlan plan → IsSite (site_of plan) }
    ensures own { (plan : PlanView) → IsMadePlan plan → UsesItsOwn (site_of plan) }
    ensures items { (plan : PlanView) → sites.items_of (site_of plan) ≡ items_of plan }
    ensures shape { (plan : PlanView) → sites.shape_of (site_of plan) ≡ plan_shape plan }
    ensures numbers { (plan : PlanView) → IsMadePlan plan → AreItems (items_of plan) }
    ensures storable { (plan : PlanView) → IsMadePlan plan → AreStorable (items_of plan) }
{}
