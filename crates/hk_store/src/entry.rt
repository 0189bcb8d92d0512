// What the store has for the items.
use hk_base::{Identifier, Text};
use hk_chain::PageRef;
use std::marker::Model;

/// A page that an item asked for, with its digest and that of the traits of the page's item.
#[derive(Drop)]
pub struct AskRecord {
    pub id: Identifier,
    /// The name under which the page was saved.
    pub name: Text,
    pub page: [u8; 32],
    pub traits: [u8; 32],
}

impl Model for AskRecord {
    ghost use Rattle.hk_store.specs.Entry.{AskView};

    ghost Value = { AskView };

    ghost view = { λ a. record { key = record { id = a.id; name = a.name }; page = a.page; traits = a.traits } };
}

/// The text of a pattern that an item used, and the items that it matched, in order.
#[derive(Drop)]
pub struct MatchRecord {
    pub text: Text,
    pub matches: Vec<Identifier>,
}

impl Model for MatchRecord {
    ghost use Rattle.hk_store.specs.Entry.{MatchView};

    ghost Value = { MatchView };

    ghost view = { λ m. record { text = m.text; matches = m.matches.items } };
}

/// A page that an item saved, with its name.
#[derive(Drop)]
pub struct SaveRecord {
    pub name: Text,
    pub page: PageRef,
}

/// A step of an item's trace.
#[derive(Drop)]
pub enum MarkRecord {
    /// Pages that were asked for at once.
    Asks(Vec<AskRecord>),
    Save(SaveRecord),
}

/// What the store has for an item: the digest of its fingerprint, the patterns that it used, and its trace, whose last
/// mark is the save of the finished page.
#[derive(Drop)]
pub struct Entry {
    pub id: Identifier,
    pub print: [u8; 32],
    pub patterns: Vec<MatchRecord>,
    pub marks: Vec<MarkRecord>,
}

impl Model for Entry {
    ghost use Rattle.std.specs.Prelude.{map};
    ghost use Rattle.hk_store.specs.Entry.{EntryView};
    ghost use Rattle.hk_store.specs.Marks.{mark_view};

    ghost Value = { EntryView };

    ghost view = { λ e. record { id = e.id; print = e.print; patterns = e.patterns.items; marks = map mark_view e.marks.items } };
}

/// The entries of a store, in the order of their identifiers.
#[derive(Drop)]
pub struct Stored {
    pub entries: Vec<Entry>,
}

impl Model for Stored {
    ghost use Rattle.std.specs.Prelude.{List};
    ghost use Rattle.hk_store.specs.Entry.{EntryView};

    ghost Value = { List EntryView };

    ghost view = { λ s. s.entries.items };
}
