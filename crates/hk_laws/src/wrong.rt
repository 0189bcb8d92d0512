// Wrong definitions that the laws refuse.
ghost use Rattle.hk_laws.specs.WrongDefinitions.{BodyOfCreated, CaseMatters, DotIsExtension, FalseIsNoVersion, NoComments, NoFaults, NoRawText};
ghost use Rattle.hk_laws.specs.WrongDefinitions.{NoSteps, NoTags, NoneIsCount, PlacesZero, RecentIsChronological, SrcIsNoLink, TurnedPatterns, UnusedPattern};

/// Five wrong scanners of tags, two wrong first faults of a template, six wrong readings of values of the rules file and two of
/// whole files break the laws. Does nothing.
pub fn wrong_definitions_break_laws()
    ensures no_tags { NoTags }
    ensures no_comments { NoComments }
    ensures no_raw_text { NoRawText }
    ensures no_src { SrcIsNoLink }
    ensures no_case { CaseMatters }
    ensures no_places { PlacesZero }
    ensures no_misses { NoFaults }
    ensures no_false { FalseIsNoVersion }
    ensures no_dot { DotIsExtension }
    ensures no_body { BodyOfCreated }
    ensures no_zero { NoneIsCount }
    ensures no_turned { RecentIsChronological }
    ensures no_empty { NoSteps }
    ensures no_unused { UnusedPattern }
    ensures no_later { TurnedPatterns }
{}
