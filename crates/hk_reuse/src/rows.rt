// Rebuilds of two items, the second of which loads the first.
ghost use Rattle.std.specs.Prelude.{◌≡◌, List, [], ◌∷◌, Some};
ghost use Rattle.hk_base.specs.Bytes.{Bytes};
ghost use Rattle.hk_fix.specs.Fix.{waiting};
ghost use Rattle.hk_reuse.specs.Example.{digests, entries, other_page_text, page_text, same_page_text, site, text_page};
ghost use Rattle.hk_reuse.specs.Kept.{outdated};
ghost use Rattle.hk_reuse.specs.Rebuilt.{ArePlansApart, rebuilt, reendings};
ghost use Rattle.hk_reuse.specs.Site.{UsesItsOwn};

/// Sites of these two items meet what the theorems ask of two plans, whatever the first item does. Built again as it
/// was, nothing is out of date. Where the first item gives another page, both are; where it gives the same page by
/// another recipe, only the first is. Where it now loads the second, both wait, though the stored pages agree.
pub fn worked_rows()
    ensures apart { (before after : Bytes) → ArePlansApart digests (site before) (site after) }
    ensures own { (first : Bytes) → UsesItsOwn (site first) }
    ensures nothing_changed { outdated digests (site page_text) entries ≡ [] }
    ensures other_page { (outdated digests (site other_page_text) entries ≡ 0 ∷ 1 ∷ [])
        × (rebuilt digests (site other_page_text) entries 1 ≡ Some (text_page (121 ∷ []))) }
    ensures same_page { outdated digests (site same_page_text) entries ≡ 0 ∷ [] }
    ensures cycle { (outdated digests (site []) entries ≡ 0 ∷ 1 ∷ []) × (reendings digests (site []) entries 0 ≡ waiting (1 ∷ []))
        × (reendings digests (site []) entries 1 ≡ waiting (0 ∷ [])) }
{}
