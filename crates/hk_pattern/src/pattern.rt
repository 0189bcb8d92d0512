// Patterns: trees of globs, identifiers and versions.
ghost use Rattle.std.specs.Prelude.{◌≡◌};
ghost use Rattle.std.specs.List.{list_all, list_any};
ghost use Rattle.std.specs.Option.{option_copied};
ghost use Rattle.hk_pattern.specs.Pattern as spec;

use crate::Glob;
use hk_base::{Identifier, Text};
use sqlite_items::{Boxed, Items};

/// What chooses identifiers by path and version.
#[derive(Debug, Drop)]
pub enum Pattern {
    /// The glob covers the path, whatever the version.
    Glob(Glob),
    /// The path and the version are those of one of them.
    Ids(Items<Identifier>),
    /// Each of them matches. With none it matches all.
    And(Items<Pattern>),
    /// One of them matches. With none it matches nothing.
    Or(Items<Pattern>),
    /// It doesn't match.
    Not(Boxed<Pattern>),
    /// There is a version, and it is this.
    HasVersion(Text),
    /// There is no version.
    HasNoVersion,
}

impl Pattern {
    /// Whether the identifier is chosen. Each glob, identifier and version is tested at most once; takes no memory.
    pub fn matches(&self, id: &Identifier) -> bool
        ensures { result ≡ spec.matches self.now id.now.path id.now.version }
    {
        self.matches_path(id.path(), id.version())
    }

    /// The same for a path and a version that need not be an identifier's.
    #[cycle(matching)]
    pub fn matches_path(&self, path: &[u8], version: Option<&[u8]>) -> bool
        ensures { result ≡ spec.matches self.now path.now (option_copied version.entry) }
    {
        match self {
            Pattern::Glob(glob) => glob.covers(path),
            Pattern::Ids(ids) => has_id(ids.as_slice(), path, version),
            Pattern::And(patterns) => all_match(patterns.as_slice(), path, version),
            Pattern::Or(patterns) => any_matches(patterns.as_slice(), path, version),
            Pattern::Not(pattern) => !pattern.get().matches_path(path, version),
            Pattern::HasVersion(own) => is_version(Some(own.as_slice()), version),
            Pattern::HasNoVersion => version.is_none(),
        }
    }
}

#[cycle(matching)]
fn all_match(patterns: &[Pattern], path: &[u8], version: Option<&[u8]>) -> bool
    ensures { result ≡ list_all (λ p. spec.matches p path.now (option_copied version.entry)) patterns.now }
{
    for pattern in patterns {
        if !pattern.matches_path(path, version) {
            return false;
        }
    }
    true
}

#[cycle(matching)]
fn any_matches(patterns: &[Pattern], path: &[u8], version: Option<&[u8]>) -> bool
    ensures { result ≡ list_any (λ p. spec.matches p path.now (option_copied version.entry)) patterns.now }
{
    for pattern in patterns {
        if pattern.matches_path(path, version) {
            return true;
        }
    }
    false
}

fn has_id(ids: &[Identifier], path: &[u8], version: Option<&[u8]>) -> bool
    ensures { result ≡ list_any (spec.is_id path.now (option_copied version.entry)) ids.now }
{
    ids.iter().any(|id| id.path() == path && is_version(id.version(), version))
}

fn is_version(own: Option<&[u8]>, version: Option<&[u8]>) -> bool
    ensures { result ≡ spec.same_version (option_copied own.entry) (option_copied version.entry) }
{
    match (own, version) {
        (None, None) => true,
        (Some(own), Some(version)) => own == version,
        _ => false,
    }
}
