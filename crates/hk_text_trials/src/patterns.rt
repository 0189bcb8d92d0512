// Globs over paths, and patterns over identifiers.
use crate::row::{shared, yes_or_no};
use hk_base::{Identifier, Text};
use hk_pattern::{Boxed, Glob, Items, Pattern};
use std::alloc::Global;
use std::test::Fail;

pub fn glob(alloc: Global, glob: &[u8], path: &[u8]) -> Result<String, Fail> {
    match Glob::read(alloc, glob) {
        Ok(glob) => yes_or_no(alloc, glob.covers(path)),
        Err(refusal) => Ok(format!(in alloc; "{refusal:?}")?),
    }
}

/// Every kind of pattern but the empty ones, of which only a page of `posts` with the version `raw` has all.
fn all_kinds(alloc: Global) -> Result<Pattern, Fail> {
    let glob = Pattern::Glob(Glob::read(alloc, b"posts/*")?);
    let not = Pattern::Not(Boxed::new(alloc, Pattern::HasNoVersion)?);
    let version = Pattern::HasVersion(Text::from_slice(alloc, b"raw")?);
    let ids = vec![in alloc; Identifier::read(alloc, b"posts/a.md", Some(b"raw"))?]?;
    let either = vec![in alloc; Pattern::Ids(Items::from_vec(ids)), Pattern::HasNoVersion]?;
    let all = vec![in alloc; glob, not, version, Pattern::Or(Items::from_vec(either))]?;
    Ok(Pattern::And(Items::from_vec(all)))
}

/// Which of three patterns match: every kind, the conjunction and the disjunction of none.
pub fn pattern(alloc: Global, path: &[u8], version: Option<&[u8]>) -> Result<String, Fail> {
    let all = matches(&all_kinds(alloc)?, path, version);
    let and = matches(&Pattern::And(Items::new(alloc)), path, version);
    let or = matches(&Pattern::Or(Items::new(alloc)), path, version);
    Ok(format!(in alloc; "{all}, {and}, {or}")?)
}

fn matches(pattern: &Pattern, path: &[u8], version: Option<&[u8]>) -> bool {
    shared(pattern).matches_path(path, version)
}
