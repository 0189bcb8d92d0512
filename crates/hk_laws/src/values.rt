// The laws of single values of the rules file.
ghost use Rattle.std.specs.Prelude.{Bool, Some};
ghost use Rattle.hk_chain.specs.declared.context.Order.{Order};
ghost use Rattle.hk_forms.specs.IdForm.{id_of, version_of};
ghost use Rattle.hk_forms.specs.PatternForm.{pattern_of};
ghost use Rattle.hk_forms.specs.RouteForm.{route_of};
ghost use Rattle.hk_laws.specs.FieldValues.{IsCount, IsField, IsOrder};
ghost use Rattle.hk_laws.specs.ListValues.{IsChain, IsContext};
ghost use Rattle.hk_laws.specs.PatternValues.{AreCreated, IsIdent, IsPattern, IsVersion};
ghost use Rattle.hk_laws.specs.RouteValues.{IsRoute};
ghost use Rattle.hk_laws.specs.StepValues.{IsStep};
ghost use Rattle.hk_laws.specs.Values.{Reads};
ghost use Rattle.hk_rules_file.specs.RuleForm.{paths_of};
ghost use Rattle.hk_steps.specs.FieldForm.{context_fields, count_of, field_of, order_or};
ghost use Rattle.hk_steps.specs.StepForm.{chain_by, step_of};

/// A value of the rules file is read as an identifier, the paths of a rule that creates them, a version, a pattern, a route, a
/// step, an order, a count or a field exactly where a row of the guide's tables fits it, and as that row says; a chain is an array of 1 to 64 steps, of which at most 16 save, and
/// a context one of members that stand for at most 64 fields. Does nothing.
pub fn value_laws()
    ensures idents { Reads id_of IsIdent }
    ensures paths { Reads paths_of AreCreated }
    ensures versions { Reads version_of IsVersion }
    ensures patterns { Reads pattern_of IsPattern }
    ensures routes { Reads route_of IsRoute }
    ensures steps { (created : Bool) → Reads (step_of created) (IsStep created) }
    ensures orders { (usual : Order) → Reads (λ d. order_or usual (Some d)) IsOrder }
    ensures counts { Reads count_of IsCount }
    ensures fields { Reads field_of IsField }
    ensures chains { (created : Bool) → Reads (λ d. chain_by created (Some d)) (IsChain created) }
    ensures contexts { Reads context_fields IsContext }
{}
