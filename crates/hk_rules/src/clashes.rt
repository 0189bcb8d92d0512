// Targets that can't both be written.
ghost use Rattle.std.specs.Prelude.{◌≡◌, ◌<◌, ◌++◌, Some, None, IfOk, OnOk, length, take, fold, bytes_eq, if◌then◌else◌};
ghost use Rattle.std.specs.Option.{option_map, option_or, option_to_list};
ghost use Rattle.hk_base.specs.Bytes.{Bytes};
ghost use Rattle.hk_rules.specs.Outcomes.{Passes};
ghost use Rattle.hk_rules.specs.SiteMap.{site_in};
ghost use Rattle.hk_rules.specs.Clashes as spec;

use crate::owner::Owner;
use crate::plan_fault::PlanFault;
use crate::site::{Clash, Site};
use hk_base::{Identifier, NoMemory, Refusal, Shared, Text};
use std::alloc::Global;
use std::cmp::Ordering;
use std::collections::BTreeMap;

/// The first site of each target.
type Sites = BTreeMap<Vec<u8>, Shared<Site>>;

/// The sites by target, and the least two of one target.
#[derive(Drop)]
struct Placed {
    sites: Sites,
    same: Option<Clash>,
}

/// Whether the items can all be written: `SameTarget` or else `NestedTarget`, each with the least clash. One look-up for
/// each target and each slash in one.
pub(crate) fn check_targets(
    alloc: Global,
    items: &[(Identifier, Owner)],
    targets: &[Option<Text>],
) -> Result<(), Refusal<PlanFault>>
    requires { length targets.now ≡ length items.now }
    ensures { Passes (spec.clash_fault (spec.sites items.now targets.now)) result }
{
    let sites = sites_of(alloc, items, targets)?;
    check_sites(alloc, &sites)
}

fn check_sites(alloc: Global, all: &[Shared<Site>]) -> Result<(), Refusal<PlanFault>>
    ensures { Passes (spec.clash_fault all.now) result }
{
    let placed = place(alloc, all)?;
    let nested = nested_clash(&placed.sites, all)?;
    check_clashes(alloc, &placed.same, &nested)
}

fn check_clashes(
    alloc: Global,
    same: &Option<Clash>,
    nested: &Option<Clash>,
) -> Result<(), Refusal<PlanFault>>
    ensures { Passes (spec.fault_by same.now nested.now) result }
{
    if let Some(clash) = same {
        return Err(Refusal::Fault(same_fault(alloc, clash)?));
    }
    if let Some(clash) = nested {
        return Err(Refusal::Fault(nested_fault(alloc, clash)?));
    }
    Ok(())
}

fn same_fault(alloc: Global, clash: &Clash) -> Result<PlanFault, NoMemory>
    ensures { IfOk result (λ f. f ≡ spec.same_fault clash.now) }
{
    let first = clash.first.get();
    Ok(PlanFault::SameTarget {
        target: Text::from_slice(alloc, first.target.as_slice())?,
        first: first.id.copy(alloc)?,
        second: clash.second.get().id.copy(alloc)?,
    })
}

fn nested_fault(alloc: Global, clash: &Clash) -> Result<PlanFault, NoMemory>
    ensures { IfOk result (λ f. f ≡ spec.nested_fault clash.now) }
{
    let outer = clash.first.get();
    let inner = clash.second.get();
    Ok(PlanFault::NestedTarget {
        outer: Text::from_slice(alloc, outer.target.as_slice())?,
        inner: Text::from_slice(alloc, inner.target.as_slice())?,
        first: outer.id.copy(alloc)?,
        second: inner.id.copy(alloc)?,
    })
}

fn sites_of(
    alloc: Global,
    items: &[(Identifier, Owner)],
    targets: &[Option<Text>],
) -> Result<Vec<Shared<Site>>, NoMemory>
    requires { length targets.now ≡ length items.now }
    ensures { IfOk result (λ v. v.items ≡ spec.sites items.now targets.now) }
{
    let mut sites = Vec::new(alloc);
    for (index, target) in targets.iter().enumerate() {
        add_site(alloc, &mut sites, &items[index], target)?;
    }
    Ok(sites)
}

fn add_site(
    alloc: Global,
    sites: &mut Vec<Shared<Site>>,
    item: &(Identifier, Owner),
    target: &Option<Text>,
) -> Result<(), NoMemory>
    ensures { OnOk result (sites.new.items ≡ sites.old.items ++ option_to_list (spec.site_by item.now target.now)) }
{
    if let Some(target) = target {
        sites.push(site(alloc, &item.0, target)?)?;
    }
    Ok(())
}

fn site(alloc: Global, id: &Identifier, target: &Text) -> Result<Shared<Site>, NoMemory>
    ensures { IfOk result (λ s. s ≡ record { target = target.now; id = id.now }) }
{
    let target = Text::from_slice(alloc, target.as_slice())?;
    let id = id.copy(alloc)?;
    Shared::new(alloc, Site { target, id })
}

fn place(alloc: Global, all: &[Shared<Site>]) -> Result<Placed, NoMemory>
    ensures sites { IfOk result (λ p. (path : Bytes) → site_in p.sites.entries path ≡ spec.site_at all.now path) }
    ensures same { IfOk result (λ p. p.same ≡ spec.same_clash all.now) }
{
    let mut sites = BTreeMap::new(alloc);
    let mut same = None;
    for site in all {
        let clash = clash_by(site, sites.get(site.get().target.as_slice()))?;
        same = lesser(same, clash);
        know(alloc, &mut sites, site)?;
    }
    Ok(Placed { sites, same })
}

/// The site is found at its target, where none was.
fn know(alloc: Global, sites: &mut Sites, site: &Shared<Site>) -> Result<(), NoMemory>
    ensures { OnOk result ((path : Bytes) → site_in sites.new.entries path ≡ option_or (site_in sites.old.entries path) (if bytes_eq site.now.target path then Some site.now else None)) }
{
    let target = site.get().target.as_slice();
    if !sites.contains_key(target) {
        let key = Vec::from_slice(alloc, target)?;
        sites.insert(key, site.try_clone()?)?;
    }
    Ok(())
}

fn nested_clash(sites: &Sites, all: &[Shared<Site>]) -> Result<Option<Clash>, NoMemory>
    ensures { IfOk result (λ c. c ≡ spec.nested_clash (site_in sites.now.entries) all.now) }
{
    let mut best = None;
    for inner in all {
        best = nested_in(sites, best, inner)?;
    }
    Ok(best)
}

fn nested_in(
    sites: &Sites,
    best: Option<Clash>,
    inner: &Shared<Site>,
) -> Result<Option<Clash>, NoMemory>
    ensures { IfOk result (λ c. c ≡ spec.nested_in (site_in sites.now.entries) best inner.now) }
{
    let mut best = best;
    let target = inner.get().target.as_slice();
    for place in 0..target.len() {
        let clash = clash_above(sites, inner, place)?;
        best = lesser(best, clash);
    }
    Ok(best)
}

fn clash_above(sites: &Sites, inner: &Shared<Site>, place: usize) -> Result<Option<Clash>, NoMemory>
    requires { place < length inner.now.target }
    ensures { IfOk result (λ c. c ≡ spec.clash_above (site_in sites.now.entries) inner.now place) }
{
    let target = inner.get().target.as_slice();
    if target[place] != b'/' {
        return Ok(None);
    }
    clash_by(inner, sites.get(&target[..place]))
}

fn clash_by(second: &Shared<Site>, first: Option<&Shared<Site>>) -> Result<Option<Clash>, NoMemory>
    ensures { IfOk result (λ c. c ≡ spec.clash_by second.now (option_map (λ s. s.now) first.entry)) }
{
    match first {
        Some(first) => Ok(Some(Clash {
            first: first.try_clone()?,
            second: second.try_clone()?,
        })),
        None => Ok(None),
    }
}

fn lesser(best: Option<Clash>, clash: Option<Clash>) -> Option<Clash>
    ensures { result ≡ spec.lesser best clash }
{
    let Some(clash) = clash else {
        return best;
    };
    let Some(best) = best else {
        return Some(clash);
    };
    if is_less(&clash, &best) {
        Some(clash)
    } else {
        Some(best)
    }
}

fn is_less(one: &Clash, other: &Clash) -> bool
    ensures { result ≡ spec.is_less one.now other.now }
{
    let first = one.first.get().target.cmp(&other.first.get().target);
    let second = one.second.get().target.cmp(&other.second.get().target);
    first.then(second) == Ordering::Less
}
