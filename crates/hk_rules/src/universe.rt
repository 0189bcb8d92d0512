// Which items there are, and who owns each.
ghost use Rattle.std.specs.Prelude.{◌≡◌, true, None, IfOk, OnOk, fold, nat_lt, length, if◌then◌else◌};
ghost use Rattle.std.specs.Option.{option_map};
ghost use Rattle.std.specs.List.{list_any};
ghost use Rattle.std.specs.List.Sorted.{IsStrictlySortedBy};
ghost use Rattle.std.specs.Map.{keys_of};
ghost use Rattle.hk_base.specs.Bytes.{Bytes};
ghost use Rattle.hk_base.specs.Identifier.{ident_cmp, read_ident};
ghost use Rattle.hk_pattern.specs.Pattern.{matches, is_id};
ghost use Rattle.hk_rules.specs.Settled.{AllSettled, AreSettled, flags_at, has_key, has_path, is_settled, matched_by};
ghost use Rattle.hk_rules.specs.Universe as spec;

use crate::owner::Owner;
use crate::source_file::SourceFile;
use hk_base::{Identifier, NoMemory, Refusal, Shared, Text};
use hk_pattern::Pattern;
use hk_rules_file::{Rule, RuleSource};
use std::alloc::Global;
use std::collections::{BTreeMap, BTreeSet};

/// The most items that a site may have.
pub(crate) const MOST_ITEMS: usize = 65_535;

/// The items, by identifier.
type Owners = BTreeMap<Identifier, Owner>;

/// By version, which sources need no further claim in it.
type Settled = BTreeMap<Option<Text>, Vec<bool>>;

/// The paths that a pattern matches without a version.
#[derive(Drop)]
enum Paths<'a> {
    Listed(BTreeSet<Vec<u8>>),
    Tested(&'a Pattern),
}

/// The items in identifier order, each with the first rule that claims it. Once there are more than a site may have, no
/// further rule is looked at. Each pattern is tested once on each path that no earlier rule claims in the same version, a
/// list of identifiers by a look-up, and there is one look-up for each path that it then claims.
pub(crate) fn universe(
    alloc: Global,
    rules: Vec<Rule>,
    sources: &[(Text, Shared<SourceFile>)],
) -> Result<Vec<(Identifier, Owner)>, NoMemory>
    ensures items { IfOk result (λ v. spec.Enough v.items (spec.universe sources.now rules.items)) }
    ensures sorted { IfOk result (λ v. IsStrictlySortedBy ident_cmp (keys_of v.items)) }
{
    let owners = owners_of(alloc, rules, sources)?;
    listed(alloc, owners)
}

fn listed(alloc: Global, owners: Owners) -> Result<Vec<(Identifier, Owner)>, NoMemory>
    ensures items { IfOk result (λ v. v.items ≡ owners.entries) }
    ensures sorted { IfOk result (λ v. IsStrictlySortedBy ident_cmp (keys_of v.items)) }
{
    let mut items = Vec::with_capacity(alloc, owners.len())?;
    for item in owners {
        items.push(item)?;
    }
    Ok(items)
}

#[tactic(auto, unfolding(crate::specs::Universe::universe))]
fn owners_of(
    alloc: Global,
    rules: Vec<Rule>,
    sources: &[(Text, Shared<SourceFile>)],
) -> Result<Owners, NoMemory>
    ensures { IfOk result (λ m. spec.Enough m.entries (spec.universe sources.now rules.items)) }
{
    let mut owners = BTreeMap::new(alloc);
    let mut settled = BTreeMap::new(alloc);
    for rule in rules {
        let rule = Shared::new(alloc, rule)?;
        claim_next(alloc, &mut owners, &mut settled, &rule, sources)?;
    }
    Ok(owners)
}

/// All that a rule claims, unless there are too many items already.
fn claim_next(
    alloc: Global,
    owners: &mut Owners,
    settled: &mut Settled,
    rule: &Shared<Rule>,
    sources: &[(Text, Shared<SourceFile>)],
) -> Result<(), NoMemory>
    requires { AllSettled sources.now owners.old.entries settled.old }
    ensures owners { OnOk result (owners.new.entries ≡ (if nat_lt 65535 (length owners.old.entries) then owners.old.entries else spec.claimed_all sources.now owners.old.entries rule.now)) }
    ensures settled { OnOk result (AllSettled sources.now owners.new.entries settled.new) }
{
    if owners.len() <= MOST_ITEMS {
        claim_all(alloc, owners, settled, rule, sources)?;
    }
    Ok(())
}

/// All that a rule claims.
#[tactic(auto, using(std::proofs::lemmas::Grind::common_steps))]
fn claim_all(
    alloc: Global,
    owners: &mut Owners,
    settled: &mut Settled,
    rule: &Shared<Rule>,
    sources: &[(Text, Shared<SourceFile>)],
) -> Result<(), NoMemory>
    requires { AllSettled sources.now owners.old.entries settled.old }
    ensures owners { OnOk result (owners.new.entries ≡ spec.claimed_all sources.now owners.old.entries rule.now) }
    ensures settled { OnOk result (AllSettled sources.now owners.new.entries settled.new) }
{
    match &rule.get().source {
        RuleSource::Match(pattern) => {
            claim_matching(alloc, owners, settled, rule, pattern, sources)?
        }
        RuleSource::Create(ids) => claim_created(alloc, owners, rule, ids.as_slice())?,
    }
    Ok(())
}

fn claim_matching(
    alloc: Global,
    owners: &mut Owners,
    settled: &mut Settled,
    rule: &Shared<Rule>,
    pattern: &Pattern,
    sources: &[(Text, Shared<SourceFile>)],
) -> Result<(), NoMemory>
    requires { AllSettled sources.now owners.old.entries settled.old }
    ensures owners { OnOk result (owners.new.entries ≡ fold (λ items source. spec.claimed items (spec.matched rule.now pattern.now source)) owners.old.entries sources.now) }
    ensures settled { OnOk result (AllSettled sources.now owners.new.entries settled.new) }
{
    let paths = paths_of(alloc, pattern)?;
    let version = version_of(rule.get());
    let version = copy_of(alloc, version)?;
    let mut flags = flags_in(alloc, settled, &version, sources.len())?;
    claim_open(alloc, owners, &mut flags, rule, &paths, sources)?;
    settled.insert(version, flags)?;
    Ok(())
}

fn copy_of(alloc: Global, version: Option<&[u8]>) -> Result<Option<Text>, NoMemory>
    ensures { IfOk result (λ v. v ≡ option_map (λ v. v.now) version.entry) }
{
    match version {
        Some(version) => Ok(Some(Text::from_slice(alloc, version)?)),
        None => Ok(None),
    }
}

/// The flags of a version, none of them set where there are none yet.
fn flags_in(
    alloc: Global,
    settled: &Settled,
    version: &Option<Text>,
    count: usize,
) -> Result<Vec<bool>, NoMemory>
    ensures { IfOk result (λ v. v.items ≡ flags_at settled.now version.now count) }
{
    match settled.get(version) {
        Some(flags) => Ok(Vec::from_slice(alloc, flags)?),
        None => Ok(vec![in alloc; false; count]?),
    }
}

fn paths_of<'a>(alloc: Global, pattern: &'a Pattern) -> Result<Paths<'a>, NoMemory>
    ensures { IfOk result (λ p. (path : Bytes) → has_path p path ≡ matches pattern.now path None) }
{
    match pattern {
        Pattern::Ids(ids) => Ok(Paths::Listed(plain_paths(alloc, ids.as_slice())?)),
        _ => Ok(Paths::Tested(pattern)),
    }
}

/// The paths of the identifiers that have no version.
fn plain_paths(alloc: Global, ids: &[Identifier]) -> Result<BTreeSet<Vec<u8>>, NoMemory>
    ensures { IfOk result (λ set. (path : Bytes) → has_key set.keys path ≡ list_any (is_id path None) ids.now) }
{
    let mut paths = BTreeSet::new(alloc);
    for id in ids {
        if id.version().is_none() {
            paths.insert(Vec::from_slice(alloc, id.path())?)?;
        }
    }
    Ok(paths)
}

fn is_among(paths: &Paths, path: &[u8]) -> bool
    ensures { result ≡ has_path paths.now path.now }
{
    match paths {
        Paths::Listed(paths) => paths.contains(path),
        Paths::Tested(pattern) => pattern.matches_path(path, None),
    }
}

/// The rule claims the sources with these paths. Those that are settled in its version are left as they are.
fn claim_open(
    alloc: Global,
    owners: &mut Owners,
    flags: &mut Vec<bool>,
    rule: &Shared<Rule>,
    paths: &Paths,
    sources: &[(Text, Shared<SourceFile>)],
) -> Result<(), NoMemory>
    requires { AreSettled sources.now owners.old.entries rule.now.version flags.old.items }
    ensures owners { OnOk result (owners.new.entries ≡ fold (λ items source. spec.claimed items (matched_by (has_path paths.now) rule.now source)) owners.old.entries sources.now) }
    ensures settled { OnOk result (AreSettled sources.now owners.new.entries rule.now.version flags.new.items) }
{
    for (index, source) in sources.iter().enumerate() {
        let flag = claim_source(alloc, owners, flags[index], rule, paths, source)?;
        flags[index] = flag;
    }
    Ok(())
}

/// The rule claims a source, if it has one of these paths and isn't settled; whether it is settled then.
fn claim_source(
    alloc: Global,
    owners: &mut Owners,
    settled: bool,
    rule: &Shared<Rule>,
    paths: &Paths,
    source: &(Text, Shared<SourceFile>),
) -> Result<bool, NoMemory>
    requires { settled ≡ true → is_settled owners.old.entries (read_ident source.now.0 rule.now.version) ≡ true }
    ensures owners { OnOk result (owners.new.entries ≡ spec.claimed owners.old.entries (matched_by (has_path paths.now) rule.now source.now)) }
    ensures settled { IfOk result (λ b. b ≡ true → is_settled owners.new.entries (read_ident source.now.0 rule.now.version) ≡ true) }
{
    let path = source.0.as_slice();
    if settled || !is_among(paths, path) {
        return Ok(settled);
    }
    claim(alloc, owners, rule, Some(&source.1), path)?;
    Ok(true)
}

fn claim_created(
    alloc: Global,
    owners: &mut Owners,
    rule: &Shared<Rule>,
    ids: &[Identifier],
) -> Result<(), NoMemory>
    ensures { OnOk result (owners.new.entries ≡ fold (λ items id. spec.claimed items (spec.created rule.now id)) owners.old.entries ids.now) }
{
    for id in ids {
        claim(alloc, owners, rule, None, id.path())?;
    }
    Ok(())
}

/// A rule claims a path.
fn claim(
    alloc: Global,
    owners: &mut Owners,
    rule: &Shared<Rule>,
    source: Option<&Shared<SourceFile>>,
    path: &[u8],
) -> Result<(), NoMemory>
    ensures { OnOk result (owners.new.entries ≡ spec.claimed owners.old.entries (spec.claim_at rule.now (option_map (λ s. s.now) source.entry) path.now)) }
{
    match Identifier::read(alloc, path, version_of(rule.get())) {
        Ok(id) => give(owners, id, rule, source)?,
        Err(Refusal::Fault(_)) => {}
        Err(Refusal::NoMemory) => return Err(NoMemory),
    }
    Ok(())
}

fn version_of(rule: &Rule) -> Option<&[u8]>
    ensures { option_map (λ v. v.now) result ≡ rule.now.version }
{
    match &rule.version {
        Some(version) => Some(version.as_slice()),
        None => None,
    }
}

/// The rule owns the identifier, where nobody does.
fn give(
    owners: &mut Owners,
    id: Identifier,
    rule: &Shared<Rule>,
    source: Option<&Shared<SourceFile>>,
) -> Result<(), NoMemory>
    ensures { OnOk result (owners.new.entries ≡ spec.claimed owners.old.entries (spec.owned id rule.now (option_map (λ s. s.now) source.entry))) }
{
    if !owners.contains_key(&id) {
        owners.insert(id, owner_of(rule, source)?)?;
    }
    Ok(())
}

fn owner_of(rule: &Shared<Rule>, source: Option<&Shared<SourceFile>>) -> Result<Owner, NoMemory>
    ensures { IfOk result (λ o. o ≡ spec.owner rule.now (option_map (λ s. s.now) source.entry)) }
{
    let rule = rule.try_clone()?;
    match source {
        Some(source) => Ok(Owner {
            rule,
            source: Some(source.try_clone()?),
        }),
        None => Ok(Owner { rule, source: None }),
    }
}
