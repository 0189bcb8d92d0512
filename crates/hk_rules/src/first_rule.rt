// The first rule wins.
ghost use Rattle.std.specs.Prelude.{◌≡◌, List, Ok};
ghost use Rattle.hk_base.specs.Bytes.{Bytes};
ghost use Rattle.hk_rules_file.specs.Rules.{RulesView};
ghost use Rattle.hk_rules.specs.FirstRule.{FirstRuleWins};
ghost use Rattle.hk_rules.specs.PlanView.{PlanView};
ghost use Rattle.hk_rules.specs.Planning.{plan_of};
ghost use Rattle.hk_rules.specs.Sources.{sources};

/// The first rule wins: the rule of a plan's item is the first rule, in the order of the rules file, that claims the item's
/// identifier, and an identifier that no rule claims has no item.
pub fn first_rule_wins()
    ensures { (rules : RulesView) (files : List (Bytes × Bytes)) (plan : PlanView) → plan_of rules files ≡ Ok plan
        → FirstRuleWins (sources files) rules.rules plan.items }
{}
