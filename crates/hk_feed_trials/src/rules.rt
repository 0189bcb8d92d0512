// A feed as a case writes it.
use crate::bytes::text_of;
use hk_base::Text;
use hk_pattern::{Glob, Pattern};
use hk_rules::{FeedKind, FeedRule};
use std::alloc::Global;
use std::test::Fail;

/// The feed of lines, each a key, a space and a value. What no line gives is as for a feed that leaves it out, or empty.
pub fn feed_of(alloc: Global, text: &str) -> Result<FeedRule, Fail> {
    let mut feed = empty_feed(alloc)?;
    for line in text.lines() {
        let (key, value) = line.split_once(' ').unwrap_or((line, ""));
        set(alloc, &mut feed, key, value)?;
    }
    Ok(feed)
}

fn empty_feed(alloc: Global) -> Result<FeedRule, Fail> {
    Ok(FeedRule {
        kind: FeedKind::Atom,
        target: Text::from_slice(alloc, b"")?,
        of: Pattern::HasNoVersion,
        title: Text::from_slice(alloc, b"")?,
        description: Text::from_slice(alloc, b"")?,
        author: Text::from_slice(alloc, b"")?,
        root: Text::from_slice(alloc, b"")?,
        email: None,
        snapshot: Text::from_slice(alloc, b"_final")?,
        limit: 10,
    })
}

fn set(alloc: Global, feed: &mut FeedRule, key: &str, value: &str) -> Result<(), Fail> {
    let text = text_of(alloc, value)?;
    match key {
        "kind" => feed.kind = kind_of(value),
        "target" => feed.target = text,
        "of" => feed.of = Pattern::Glob(Glob::read(alloc, text.as_slice())?),
        "title" => feed.title = text,
        "description" => feed.description = text,
        "author" => feed.author = text,
        "root" => feed.root = text,
        "email" => feed.email = Some(text),
        "snapshot" => feed.snapshot = text,
        "limit" => feed.limit = value.parse::<u32>()?,
        _ => return Err(Fail::new("no such key")),
    }
    Ok(())
}

fn kind_of(value: &str) -> FeedKind {
    if value == "rss" {
        FeedKind::Rss
    } else {
        FeedKind::Atom
    }
}
