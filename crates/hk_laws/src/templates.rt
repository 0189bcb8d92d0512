// The laws of a template's first fault.
ghost use Rattle.hk_template.specs.Fault.{first_fault};
ghost use Rattle.hk_laws.specs.Templates.{FindsFaults, MissesNoFault};

/// The first fault of a template, without a stack: up to its place the text goes on to a tree. Where a tag doesn't fit, no text
/// that goes on through it has a tree; where a form is one too many, only deeper ones have; where a form isn't closed, the
/// whole text goes on and has no tree, and the place is that of the innermost open form. Where none is found
/// the text has a tree. Does nothing.
pub fn template_laws()
    ensures faults { FindsFaults first_fault }
    ensures missed { MissesNoFault first_fault }
{}
