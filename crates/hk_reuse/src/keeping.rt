// What the kept items of a build tell.
ghost use Rattle.std.specs.Prelude.{◌≡◌, ℕ, ◌<◌, List, Some, true};
ghost use Rattle.hk_fix.specs.declared.event.Event.{Event};
ghost use Rattle.hk_fix.specs.Fix.{IsComplete, fix, is_finished};
ghost use Rattle.hk_fix.specs.Pages.{Pages};
ghost use Rattle.hk_store.specs.Digests.{Digests};
ghost use Rattle.hk_store.specs.Entry.{EntryView};
ghost use Rattle.hk_reuse.specs.Entries.{Entries, IsFormed};
ghost use Rattle.hk_reuse.specs.Fits.{is_own};
ghost use Rattle.hk_reuse.specs.Histories.{others};
ghost use Rattle.hk_reuse.specs.Image.{image};
ghost use Rattle.hk_reuse.specs.Kept.{asks_unchanged, is_kept, kept_among, seeds_kept};
ghost use Rattle.hk_reuse.specs.Rebuilt.{ArePlansApart, replay_run};
ghost use Rattle.hk_reuse.specs.Site.{IsSite, Items, Site, UsesItsOwn, built, clean_run, endings, no_seeds, shape_of};

/// An item that is kept is done in a clean build. A complete history of a build over the entries that a clean build of
/// another plan left is, without the events of the kept items, a complete history of clean runs with the pages and facts
/// of the kept items as seeds; and with these seeds the fixpoint is that of a clean build.
pub fn kept_items_are_seeds()
    ensures finished { (dig : Digests) (old new : Site) (i : ℕ) → ArePlansApart dig old new → is_kept dig new (image dig old) i ≡ true
        → is_finished (endings new i) ≡ true }
    ensures history { (dig : Digests) (old new : Site) (h : List Event) → ArePlansApart dig old new
        → IsComplete (shape_of new) (replay_run dig new (image dig old)) no_seeds h
        → IsComplete (shape_of new) (clean_run new) (seeds_kept dig new (image dig old)) (others (shape_of new) (is_kept dig new (image dig old)) h) }
    ensures pages { (dig : Digests) (old new : Site) (h : List Event) → ArePlansApart dig old new
        → IsComplete (shape_of new) (replay_run dig new (image dig old)) no_seeds h
        → fix (shape_of new) (clean_run new) (seeds_kept dig new (image dig old)) ≡ built new }
{}

/// An item whose entry has its fingerprint, names and matches is kept exactly where nothing that it asked for changed:
/// each page that its entry asks for is one of the plan's, is known at the end and has the recorded digest, and the
/// traits of that page's item have theirs. So such an item is compiled only where one of these changed or can't be had.
pub fn kept_unless_changed()
    ensures { (dig : Digests) (items : Items) (entries : Entries) (k : Pages) (i : ℕ) (entry : EntryView) → i < items.table.layout.items
        → entries (items.id i) ≡ Some entry → IsFormed entry → is_own dig items i entry ≡ true
        → kept_among dig items k entries i ≡ asks_unchanged dig items.table k entry }
{}

/// A plan is apart from itself, whatever the digests. Built again over the entries that its clean build left, it keeps each
/// item that is done.
pub fn unchanged_plans_keep_all()
    ensures apart { (dig : Digests) (site : Site) → IsSite site → ArePlansApart dig site site }
    ensures kept { (dig : Digests) (site : Site) (i : ℕ) → IsSite site → UsesItsOwn site → i < (shape_of site).items
        → is_finished (endings site i) ≡ true → is_kept dig site (image dig site) i ≡ true }
{}
