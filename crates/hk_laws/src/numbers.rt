// The laws of the numbers in a rules file.
ghost use Rattle.hk_laws.specs.FieldPlaces.{FieldsTellPlaces};
ghost use Rattle.hk_laws.specs.FirstUses.{NumbersByFirstUse};
ghost use Rattle.hk_rules_file.specs.Linking.{link_fields};
ghost use Rattle.hk_rules_file.specs.RulesForm.{rules_of};

/// The patterns of a rules file are those that are used, numbered in the order of their first use; the fields of a context are
/// those that its members stand for, with the places of the contexts and of the patterns that are written there. Does nothing.
pub fn number_laws()
    ensures first_uses { NumbersByFirstUse rules_of }
    ensures places { FieldsTellPlaces link_fields }
{}
