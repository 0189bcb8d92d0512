// The digests of all fingerprints of a plan: what the items of a chain have in front is hashed once.
ghost use Rattle.std.specs.Prelude.{◌≡◌, ℕ, ◌<◌, List, [], ◌∷◌, ◌++◌, length, take, get_or, IfOk, IfSome, OnOk};
ghost use Rattle.std.specs.List.{AllByRecursion};
ghost use Rattle.sha2.specs.Hashers.{Holds256};
ghost use Rattle.sha2.specs.Sha256.{sha256};
ghost use Rattle.hk_rules.specs.LinkedPlan.{IsLinkedPlan};
ghost use Rattle.hk_rules.specs.Recipe.{recipe_of};
ghost use Rattle.hk_store.specs.Fronts.{IsFront};
ghost use Rattle.hk_store.specs.RecipeText as spec;
ghost use Rattle.hk_store.specs.Traits.{sha_digests};

use crate::chains::is_same_chain;
use crate::digests::ROOM;
use crate::fields::write_opt;
use crate::fingerprints::write_chain;
use hk_base::NoMemory;
use hk_chain::ItemNo;
use hk_rules::Plan;
use sha2::{Digest, Sha256};
use std::alloc::Global;

/// How many chains are kept besides the newest one.
const OTHERS: usize = 7;

/// The hash of what stands in front of the fingerprints of a chain's items.
#[derive(Drop)]
pub(crate) struct Front {
    /// One of these items.
    item: ItemNo,
    hasher: Sha256,
}

/// The digest of each item's fingerprint. `NoMemory` only for want of memory. Linear in the targets, the files and their
/// companions. What a chain has in front is printed and hashed only where it is none of the last eight chains that were;
/// else it takes a comparison with these.
pub fn fingerprint_digests(alloc: Global, plan: &Plan) -> Result<Vec<[u8; 32]>, NoMemory>
    ensures count { IfOk result (λ v. length v.items ≡ length plan.now.items) }
    ensures each { IfOk result (λ v. (item : ℕ) → item < length plan.now.items
        → get_or v.items item [] ≡ sha_digests.text (spec.recipe_text (recipe_of plan.now item))) }
{
    plan.linked();
    let mut fronts = Vec::new(alloc);
    let mut digests = Vec::with_capacity(alloc, plan.count() as usize)?;
    for number in 0..plan.count() {
        let item = ItemNo(number);
        let front = front_of(alloc, plan, &mut fronts, item)?;
        let digest = digest_after(alloc, front, plan, item)?;
        digests.push(digest)?;
    }
    Ok(digests)
}

/// The hash of what stands in front of an item's fingerprint, which is kept for the next items.
fn front_of(
    alloc: Global,
    plan: &Plan,
    fronts: &mut Vec<Front>,
    item: ItemNo,
) -> Result<Sha256, NoMemory>
    requires item { item < length plan.now.items }
    requires linked { IsLinkedPlan plan.now }
    requires kept { AllByRecursion (IsFront plan.now) fronts.old.items }
    ensures hashed { IfOk result (λ h. Holds256 h (spec.chain_text (recipe_of plan.now item))) }
    ensures kept { OnOk result (AllByRecursion (IsFront plan.now) fronts.new.items) }
{
    if let Some(hasher) = kept_front(plan, fronts, item) {
        return copied(hasher);
    }
    let hasher = hashed_front(alloc, plan, item)?;
    let copy = copied(&hasher)?;
    keep(fronts, Front { item, hasher })?;
    Ok(copy)
}

/// The kept hash of an item's chain, if there is one.
fn kept_front<'a>(plan: &Plan, fronts: &'a [Front], item: ItemNo) -> Option<&'a Sha256>
    requires item { item < length plan.now.items }
    requires kept { AllByRecursion (IsFront plan.now) fronts.now }
    ensures { IfSome result (λ h. Holds256 h.now (spec.chain_text (recipe_of plan.now item))) }
{
    for front in fronts {
        if is_same_chain(plan.chain(front.item), plan.chain(item)) {
            return Some(&front.hasher);
        }
    }
    None
}

/// Keeps a hash before the others, of which the oldest go.
fn keep(fronts: &mut Vec<Front>, front: Front) -> Result<(), NoMemory>
    ensures { OnOk result (fronts.new.items ≡ front ∷ take 7 fronts.old.items) }
{
    fronts.truncate(OTHERS);
    fronts.insert(0, front)?;
    Ok(())
}

/// Hashes what stands in front of an item's fingerprint: its chain, and the contexts that this reaches.
fn hashed_front(alloc: Global, plan: &Plan, item: ItemNo) -> Result<Sha256, NoMemory>
    requires item { item < length plan.now.items }
    requires linked { IsLinkedPlan plan.now }
    ensures { IfOk result (λ h. Holds256 h (spec.chain_text (recipe_of plan.now item))) }
{
    let mut text = Vec::new(alloc);
    write_chain(alloc, &mut text, plan, item)?;
    Ok(hash_of(&text))
}

fn hash_of(bytes: &[u8]) -> Sha256
    ensures { Holds256 result bytes.now }
{
    let mut hasher = Sha256::new();
    hasher.update(bytes);
    hasher
}

/// A second hasher of the same bytes.
fn copied(hasher: &Sha256) -> Result<Sha256, NoMemory>
    ensures { IfOk result (λ h. (m : List ℕ) → Holds256 hasher.now m → Holds256 h m) }
{
    let copy = hasher.clone()?;
    Ok(copy)
}

/// The digest of an item's fingerprint, of the hash of what stands in front.
fn digest_after(
    alloc: Global,
    front: Sha256,
    plan: &Plan,
    item: ItemNo,
) -> Result<[u8; 32], NoMemory>
    requires item { item < length plan.now.items }
    requires front { Holds256 front (spec.chain_text (recipe_of plan.now item)) }
    ensures { IfOk result (λ d. d ≡ sha_digests.text (spec.recipe_text (recipe_of plan.now item))) }
{
    let mut rest = Vec::with_capacity(alloc, ROOM)?;
    write_opt(&mut rest, plan.target_of(item))?;
    write_opt(&mut rest, plan.resource(item))?;
    write_opt(&mut rest, plan.companion(item))?;
    Ok(finished(front, &rest))
}

fn finished(mut hasher: Sha256, rest: &[u8]) -> [u8; 32]
    ensures { (m : List ℕ) → Holds256 hasher m → result ≡ sha256 (m ++ rest.now) }
{
    hasher.update(rest);
    hasher.finalize()
}
