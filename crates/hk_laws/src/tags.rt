// The laws of the scanner of tags.
ghost use Rattle.hk_html.specs.Piece.{pieces};
ghost use Rattle.hk_html.specs.Relative.{links_of, with_roots};
ghost use Rattle.hk_laws.specs.Cuttings.{CutsEach, OneCutting};
ghost use Rattle.hk_laws.specs.Links.{LinksOfEach, RootsOfEach};

/// An HTML text has one cutting into pieces, and the scanner of tags gives it; the links of a text, and the text with a root
/// before its root URLs, are those of its cutting. Does nothing.
pub fn tag_laws()
    ensures cuts { CutsEach pieces }
    ensures one_cutting { OneCutting }
    ensures links { LinksOfEach links_of }
    ensures roots { RootsOfEach with_roots }
{}
