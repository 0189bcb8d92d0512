// Identifiers: a path with an optional version.
ghost use Rattle.std.specs.Prelude.{◌≡◌, IfOk, Some, None};
ghost use Rattle.std.specs.Option.{option_map, option_copied};
ghost use Rattle.hk_base.specs.Identifier as spec;
ghost use Rattle.hk_base.specs.Identifier.{path_fault, version_fault, read_ident, print_ident, print_version};
ghost use Rattle.hk_base.specs.Answers.{Answers};
ghost use Rattle.std.specs.List.{list_all};

use crate::{NoMemory, Refusal, Text};
use std::alloc::Global;
use std::cmp::Ordering;
use std::hash::{Hash, Hasher};
use std::marker::Model;

/// Why a path and a version are no identifier's. The first that holds counts.
#[derive(Clone, Copy, Debug, PartialEq, Eq, Drop)]
pub enum IdentFault {
    /// The path has no byte.
    EmptyPath,
    /// The path has over 1,024 bytes.
    PathTooLong,
    /// The path has a byte below 32 or equal to 127.
    BadByte,
    /// A part of the path between slashes is empty, `.` or `..`.
    BadPart,
    /// The version is empty, over 64 bytes, or has a byte below 32 or equal to 127.
    BadVersion,
}

/// A path with an optional version, ordered by the path's bytes, then no version before a version, then the version's
/// bytes. Every value is one that `read` gives.
#[derive(Debug, Drop)]
pub struct Identifier {
    path: Text,
    version: Option<Text>,
}

impl Model for Identifier {
    ghost use Rattle.std.specs.Prelude.{◌≡◌, None};
    ghost use Rattle.hk_base.specs.Identifier.{Ident, ident_fault};

    ghost Value = { Ident };

    ghost view = { λ id. record { path = id.path; version = id.version } };

    ghost invariant = { λ id. ident_fault id.path id.version ≡ None };
}

impl Identifier {
    /// The identifier of a path and a version. Refuses with the first fault. Linear.
    pub fn read(
        alloc: Global,
        path: &[u8],
        version: Option<&[u8]>,
    ) -> Result<Identifier, Refusal<IdentFault>>
        ensures { Answers (read_ident path.now (option_copied version.entry)) result }
    {
        if let Some(fault) = path_fault(path) {
            return Err(Refusal::Fault(fault));
        }
        if let Some(fault) = version_fault(version) {
            return Err(Refusal::Fault(fault));
        }
        let path = Text::from_slice(alloc, path)?;
        let version = copy_of(alloc, version)?;
        Ok(Identifier { path, version })
    }

    /// The path, lent. Constant.
    pub fn path(&self) -> &[u8]
        ensures value { result.now ≡ self.now.path }
    {
        self.path.as_slice()
    }

    /// The version, lent. Constant.
    pub fn version(&self) -> Option<&[u8]>
        ensures value { option_copied result ≡ self.now.version }
    {
        match &self.version {
            Some(version) => Some(version.as_slice()),
            None => None,
        }
    }

    /// A second identifier with the same path and version. `NoMemory` only for want of memory. Linear.
    pub fn copy(&self, alloc: Global) -> Result<Identifier, NoMemory>
        ensures { IfOk result (λ id. id ≡ self.now) }
    {
        let path = Text::from_slice(alloc, self.path.as_slice())?;
        let version = copy_of(alloc, self.version())?;
        Ok(Identifier { path, version })
    }

    /// The path, and with a version a space and the version in round brackets. `NoMemory` only for want of memory.
    /// Linear.
    pub fn print(&self, alloc: Global) -> Result<Text, NoMemory>
        ensures { IfOk result (λ text. text ≡ print_ident self.now) }
    {
        let mut bytes = Vec::from_slice(alloc, self.path.as_slice())?;
        if let Some(version) = &self.version {
            bytes.extend_from_slice(b" (")?;
            bytes.extend_from_slice(version.as_slice())?;
            bytes.push(b')')?;
        }
        Ok(Text::from_vec(bytes))
    }
}

/// Whether the path is some identifier's. Linear; takes no memory.
pub fn is_path(path: &[u8]) -> bool
    ensures { result ≡ spec.is_path path.now }
{
    path_fault(path).is_none()
}

fn copy_of(alloc: Global, version: Option<&[u8]>) -> Result<Option<Text>, NoMemory>
    ensures { IfOk result (λ text. text ≡ option_copied version.entry) }
{
    match version {
        Some(bytes) => Ok(Some(Text::from_slice(alloc, bytes)?)),
        None => Ok(None),
    }
}

fn path_fault(path: &[u8]) -> Option<IdentFault>
    ensures { result ≡ spec.path_fault path.now }
{
    if path.is_empty() {
        Some(IdentFault::EmptyPath)
    } else if path.len() > 1024 {
        Some(IdentFault::PathTooLong)
    } else if !are_plain(path) {
        Some(IdentFault::BadByte)
    } else if !are_parts(path) {
        Some(IdentFault::BadPart)
    } else {
        None
    }
}

fn version_fault(version: Option<&[u8]>) -> Option<IdentFault>
    ensures { result ≡ spec.version_fault (option_copied version.entry) }
{
    match version {
        Some(bytes) if !is_version(bytes) => Some(IdentFault::BadVersion),
        _ => None,
    }
}

/// Whether an identifier may have this version: 1 to 64 bytes without control characters. Linear.
pub fn is_version(version: &[u8]) -> bool
    ensures { result ≡ spec.is_version version.now }
{
    !version.is_empty() && version.len() <= 64 && are_plain(version)
}

fn are_plain(bytes: &[u8]) -> bool
    ensures { result ≡ list_all spec.is_plain bytes.now }
{
    bytes.iter().all(|byte| *byte >= 32 && *byte != 127)
}

fn are_parts(path: &[u8]) -> bool
    ensures { result ≡ list_all spec.is_part (spec.parts path.now) }
{
    path.split(|byte| *byte == b'/').all(is_part)
}

fn is_part(part: &[u8]) -> bool
    ensures { result ≡ spec.is_part part.now }
{
    !matches!(part, [] | [b'.'] | [b'.', b'.'])
}

impl PartialEq for Identifier {
    ghost use Rattle.std.proofs.Common.{rules};
    ghost use Rattle.std.specs.Cmp.Rules.{comparing};
    ghost use Rattle.std.specs.Ordering.{eq_by_cmp};
    ghost use Rattle.hk_base.specs.Identifier.{ident_cmp};
    ghost use Rattle.hk_base.specs.IdentTies.{ident_cmp_total};

    ghost eq = { eq_by_cmp ident_cmp };

    ghost laws = { Prim.search (comparing, ident_cmp_total, rules) };

    fn eq(&self, other: &Identifier) -> bool {
        self.cmp(other) == Ordering::Equal
    }
}

impl Eq for Identifier {
    ghost use Rattle.std.proofs.Common.{rules};
    ghost use Rattle.std.specs.Cmp.Rules.{comparing};
    ghost use Rattle.hk_base.specs.IdentTies.{ident_cmp_total};

    ghost laws = { Prim.search (comparing, ident_cmp_total, rules) };
}

impl PartialOrd for Identifier {
    ghost use Rattle.std.proofs.Common.{rules};
    ghost use Rattle.std.specs.Cmp.{partial_order_from_own_ties};
    ghost use Rattle.std.specs.Cmp.Rules.{comparing};
    ghost use Rattle.std.specs.Ordering.{as_partial_cmp};
    ghost use Rattle.hk_base.specs.Identifier.{ident_cmp};
    ghost use Rattle.hk_base.specs.IdentTies.{ident_cmp_total};

    ghost partial_cmp = { as_partial_cmp ident_cmp };

    ghost laws = { partial_order_from_own_ties (Prim.search (comparing, ident_cmp_total, rules)) (Prim.search (comparing, rules)) };

    fn partial_cmp(&self, other: &Identifier) -> Option<Ordering> {
        Some(self.cmp(other))
    }
}

impl Ord for Identifier {
    ghost use Rattle.std.proofs.Common.{rules};
    ghost use Rattle.std.specs.Cmp.Rules.{comparing};
    ghost use Rattle.hk_base.specs.Identifier.{ident_cmp};
    ghost use Rattle.hk_base.specs.IdentTies.{ident_cmp_total};

    ghost cmp = { ident_cmp };

    ghost total = { Prim.search (comparing, ident_cmp_total, rules) };

    ghost matches_partial_cmp = { Prim.search (comparing, rules) };

    ghost matches_eq = { Prim.search (comparing, rules) };

    fn cmp(&self, other: &Identifier) -> Ordering {
        self.path
            .cmp(&other.path)
            .then(self.version.cmp(&other.version))
    }
}

impl Hash for Identifier {
    ghost use Rattle.std.specs.Prelude.{◌++◌};
    ghost use Rattle.std.specs.Hash as fed;
    ghost use Rattle.hk_base.specs.IdentTies.{tied_ident_writes};

    ghost hash_input = { λ id. fed.slice fed.u8 id.path ++ fed.option (fed.slice fed.u8) id.version };

    ghost respects_eq = { tied_ident_writes _ };

    fn hash<H: Hasher>(&self, state: &mut H) {
        self.path.hash(state);
        self.version.hash(state);
    }
}
