// What becomes of the links of a page that is made relative.
ghost use Rattle.hk_links.specs.Laws.{LeadsAsBefore, PageLeadsAsBefore, StaysInternal};

/// Every value of a link, made relative for the page with any target as `relativize` of hk_html does it, leads there to
/// what the value itself leads to, and is internal where it was; so the internal links of a page that was made relative
/// lead to the paths to which they led, in their order. Does nothing.
pub fn relative_links_resolve()
    ensures internal { StaysInternal }
    ensures path { LeadsAsBefore }
    ensures page { PageLeadsAsBefore }
{}
