// Why the plan of linked rules is one that the theorems are about.
ghost use Rattle.std.specs.Prelude.{◌≡◌, List, Ok};
ghost use Rattle.hk_base.specs.Bytes.{Bytes};
ghost use Rattle.hk_rules_file.specs.Linked.{IsLinked};
ghost use Rattle.hk_rules_file.specs.Rules.{RulesView};
ghost use Rattle.hk_rules.specs.LinkedPlan.{IsLinkedPlan};
ghost use Rattle.hk_rules.specs.MadePlan.{IsMadePlan};
ghost use Rattle.hk_rules.specs.PlanView.{PlanView};
ghost use Rattle.hk_rules.specs.Planning.{plan_of};
ghost use Rattle.hk_sites.specs.Sizes.{HasLimits};

/// The plan that linked rules make of files has the form of one, is linked, and has the headers of its items' files. The
/// limits of a linked plan's lists are below 2^64.
pub fn rules_make_plans()
    ensures made { (rules : RulesView) (files : List (Bytes × Bytes)) (plan : PlanView) → plan_of rules files ≡ Ok plan
        → IsLinked rules → IsMadePlan plan }
    ensures limited { (plan : PlanView) → IsLinkedPlan plan → HasLimits plan }
{}
