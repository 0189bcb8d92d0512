// The laws of the rules file.
ghost use Rattle.hk_rules_file.specs.ContextNames.{NamesTellContexts};
ghost use Rattle.hk_rules_file.specs.Numbers.{NumbersTellPlaces};
ghost use Rattle.hk_rules_file.specs.RuleFaults.{NumbersTellRules};

/// Where a refusal names a rule by its number, the rules before it are accepted alone, and with it they are refused so; the
/// same of the tables for tags after the rules, of those for pages after these, and of the feeds after all. The steps of a
/// chain are those that are written, with the places of the contexts and of the patterns that are written there; the
/// contexts are those of the table and `default`, in the byte order of their names. Does nothing.
pub fn rules_laws()
    ensures faults { NumbersTellRules }
    ensures places { NumbersTellPlaces }
    ensures names { NamesTellContexts }
{}
