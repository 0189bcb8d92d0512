// The laws of routes that replace.
ghost use Rattle.hk_laws.specs.Replacing.{Replaces};
ghost use Rattle.hk_route.specs.Rewriting.{replaced};

/// A route that replaces leaves what stands before the first occurrence, puts the new text for it, and goes on with the rest.
/// Does nothing.
pub fn route_laws()
    ensures replaces { Replaces replaced }
{}
