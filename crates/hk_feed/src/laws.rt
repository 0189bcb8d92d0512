// What escaping and checking come to.
ghost use Rattle.std.specs.Prelude.{◌≡◌, ◌++◌, ◌∷◌, List, None};
ghost use Rattle.hk_base.specs.Bytes.{Bytes};
ghost use Rattle.hk_rules.specs.Plan.{Lookups};
ghost use Rattle.hk_feed.specs.Accepted.{IsAccepted};
ghost use Rattle.hk_feed.specs.FeedFaults.{feeds_fault};
ghost use Rattle.hk_feed.specs.Xml.{xml, unescaped, kept};
ghost use Rattle.hk_rules_file.specs.declared.tables.FeedRule.{FeedRule};

/// Replacing the five names in what bytes are written as, in one pass from the left, gives the bytes as `from_utf8_lossy`
/// reads them, without the characters that XML knows in no document.
pub fn escaping_is_undone()
    ensures { (bytes : Bytes) → unescaped (xml bytes) ≡ kept bytes }
{}

/// Of feeds without a fault each has a target that is a path, at which no item and no earlier feed is in the way, and each
/// of its members has a page under the snapshot name and a date: the order of its members leaves none of them out.
pub fn accepted_feeds_are_whole()
    ensures { (plan : Lookups) (earlier later : List FeedRule) (feed : FeedRule) → feeds_fault plan (earlier ++ feed ∷ later) ≡ None
        → IsAccepted plan earlier feed }
{}
