// Recipes of a plan's items.
ghost use Rattle.std.specs.Prelude.{◌≡◌, ℕ, ◌<◌, List, length, Ok};
ghost use Rattle.hk_base.specs.Bytes.{Bytes};
ghost use Rattle.hk_rules_file.specs.Rules.{RulesView};
ghost use Rattle.hk_rules.specs.LinkedPlan.{IsLinkedPlan};
ghost use Rattle.hk_rules.specs.MadePlan.{IsHeaded};
ghost use Rattle.hk_rules.specs.Plan.{lookups};
ghost use Rattle.hk_rules.specs.PlanView.{PlanView};
ghost use Rattle.hk_rules.specs.Planning.{plan_of};
ghost use Rattle.hk_rules.specs.Recipe.{IsRecipe};

/// The recipe of an item has each context that its chain reaches, and the header of its file is the one that the plan
/// has for it, where the plan's headers are those of its items' files; in a plan that rules make they are.
pub fn plans_give_recipes()
    ensures recipe { (plan : PlanView) (item : ℕ) → IsLinkedPlan plan → IsHeaded plan → item < length plan.items
        → IsRecipe (lookups plan) (length plan.contexts) (length plan.patterns) item }
    ensures headed { (rules : RulesView) (files : List (Bytes × Bytes)) (plan : PlanView) → plan_of rules files ≡ Ok plan → IsHeaded plan }
{}
