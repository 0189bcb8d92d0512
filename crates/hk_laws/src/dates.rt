// The laws of date patterns.
ghost use Rattle.hk_meta.specs.DateFormat.{format_date};
ghost use Rattle.hk_meta.specs.DatePattern.{pattern_ok};
ghost use Rattle.hk_laws.specs.DatePatterns.{AcceptsPatterns, PrintsParts};

/// A date pattern is accepted exactly where it is at most 256 bytes of ASCII that are plain bytes and forms joined, and it
/// prints these one after the other. Does nothing.
pub fn date_laws()
    ensures accepts { AcceptsPatterns pattern_ok }
    ensures prints { PrintsParts format_date }
{}
