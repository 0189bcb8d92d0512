// The tables for tags, numbered pages and feeds, as they were read.
use hk_base::Text;
use hk_chain::{Chain, ContextNo, Order};
use hk_pattern::Pattern;
use hk_route::Route;

/// A page for each tag of the members of a pattern.
#[derive(Debug, Drop)]
pub struct TagRule {
    /// The items whose tags count.
    pub of: Pattern,
    /// The key of their metadata that has the tags.
    pub field: Text,
    /// What the paths of the pages begin with.
    pub prefix: Text,
    /// What gives a page its target. Without a route there is none.
    pub route: Option<Route>,
    /// How a page is made.
    pub chain: Chain,
    /// The context that stands behind a page's own fields.
    pub context: ContextNo,
    /// The context of each item in the page's list.
    pub item: ContextNo,
    /// The order of that list.
    pub order: Order,
}

/// Numbered pages, each with a piece of the list of a pattern's members.
#[derive(Debug, Drop)]
pub struct PageRule {
    /// The items that are listed.
    pub of: Pattern,
    /// How many items a page has, from 1 to 65,535; the last one may have fewer.
    pub per: u32,
    /// The path of the first page.
    pub first: Text,
    /// What the paths of the further pages begin with.
    pub prefix: Text,
    /// What gives a page its target. Without a route there is none.
    pub route: Option<Route>,
    /// How a page is made.
    pub chain: Chain,
    /// The context that stands behind a page's own fields.
    pub context: ContextNo,
    /// The context of each item in the page's list.
    pub item: ContextNo,
    /// The order of the whole list.
    pub order: Order,
}

/// The format of a feed.
#[derive(Clone, Copy, Debug, PartialEq, Eq)]
pub enum FeedKind {
    Atom,
    Rss,
}

/// A feed of a pattern's members.
#[derive(Debug, Drop)]
pub struct FeedRule {
    pub kind: FeedKind,
    /// The path that it is written to.
    pub target: Text,
    /// The items that it may have.
    pub of: Pattern,
    pub title: Text,
    pub description: Text,
    pub author: Text,
    /// What the URLs begin with, without the `/` at its end.
    pub root: Text,
    /// The author's address.
    pub email: Option<Text>,
    /// The name of the page of an item that it shows.
    pub snapshot: Text,
    /// How many items it has at most, from 1 to 65,535.
    pub limit: u32,
}
