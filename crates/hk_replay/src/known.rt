// What is known of a plan before entries are held against it.
ghost use Rattle.std.specs.Prelude.{◌≡◌, ◌<◌, ℕ, [], length, get_or, bytes_eq, IfOk};
ghost use Rattle.std.specs.List.{position_from};
ghost use Rattle.hk_eval.specs.PlanTable.{traits_at, pattern_texts};
ghost use Rattle.hk_store.specs.Traits.{sha_digests};
ghost use Rattle.hk_replay.specs.Known.{IsKnown};

use crate::hashing::PageDigests;
use crate::texts::{PatternTexts, pattern_no};
use hk_base::{NoMemory, Text};
use hk_chain::{ItemNo, PatternNo};
use hk_rules::{Plan, text_of_pattern};
use hk_store::{fingerprint_digests, traits_digest};
use std::alloc::Global;
use std::marker::Model;

/// The digests of each item's fingerprint and traits, each pattern's text, and the digests of pages, as far as they were
/// wanted.
#[derive(Drop)]
pub(crate) struct Known {
    pub(crate) prints: Vec<[u8; 32]>,
    pub(crate) traits: Vec<[u8; 32]>,
    pub(crate) texts: PatternTexts,
    pub(crate) digests: PageDigests,
}

impl Model for Known {
    ghost use Rattle.hk_replay.specs.Known.{KnownView};

    ghost Value = { KnownView };

    ghost view = { λ k. record { prints = k.prints.items; traits = k.traits.items; texts = k.texts } };
}

impl Known {
    /// What is known of a plan. `NoMemory` only for want of memory. Linear in the items' fingerprints and metadata, each of
    /// which is hashed once, in the pairs and in the patterns' texts.
    pub(crate) fn of(alloc: Global, plan: &Plan) -> Result<Known, NoMemory>
        ensures { IfOk result (λ k. IsKnown plan.now k) }
    {
        let prints = fingerprint_digests(alloc, plan)?;
        let traits = all_traits(alloc, plan)?;
        let texts = PatternTexts::of(alloc, texts_of(alloc, plan)?)?;
        let digests = PageDigests::new(alloc, plan.layout().get().pairs())?;
        Ok(Known {
            prints,
            traits,
            texts,
            digests,
        })
    }

    /// The first pattern with this text. Logarithmic in the number of patterns.
    pub(crate) fn place(&self, text: &[u8]) -> Option<PatternNo>
        ensures { result ≡ position_from (λ own. bytes_eq own text.now) 0 self.now.texts }
    {
        self.texts.place(text)
    }

    /// The text of the pattern at a place. Constant.
    pub(crate) fn text(&self, place: usize) -> &[u8]
        requires { place < length self.now.texts }
        ensures { result.now ≡ get_or self.now.texts place [] }
    {
        self.texts.text(place)
    }

    /// The digest of an item's fingerprint. Constant.
    pub(crate) fn print_of(&self, item: ItemNo) -> [u8; 32]
        requires { item < length self.now.prints }
        ensures { result ≡ get_or self.now.prints item [] }
    {
        self.prints[item.0 as usize]
    }

    /// Whether an item's fingerprint has this digest. Constant.
    pub(crate) fn has_print(&self, item: ItemNo, digest: &[u8; 32]) -> bool
        requires { item < length self.now.prints }
        ensures { result ≡ bytes_eq digest.now (get_or self.now.prints item []) }
    {
        digest.as_slice() == self.prints[item.0 as usize].as_slice()
    }

    /// The digest of an item's traits. Constant.
    pub(crate) fn traits_of(&self, item: ItemNo) -> [u8; 32]
        requires { item < length self.now.traits }
        ensures { result ≡ get_or self.now.traits item [] }
    {
        self.traits[item.0 as usize]
    }

    /// Whether an item's traits have this digest. Constant.
    pub(crate) fn has_traits(&self, item: ItemNo, digest: &[u8; 32]) -> bool
        requires { item < length self.now.traits }
        ensures { result ≡ bytes_eq (get_or self.now.traits item []) digest.now }
    {
        self.traits[item.0 as usize].as_slice() == digest.as_slice()
    }
}

/// The digests of the items' traits, each computed once.
fn all_traits(alloc: Global, plan: &Plan) -> Result<Vec<[u8; 32]>, NoMemory>
    ensures count { IfOk result (λ v. length v.items ≡ length plan.now.items) }
    ensures each { IfOk result (λ v. (item : ℕ) → item < length plan.now.items
        → get_or v.items item [] ≡ sha_digests.traits (traits_at plan.now item)) }
{
    let mut traits = Vec::new(alloc);
    for number in 0..plan.count() {
        let item = ItemNo(number);
        let digest = traits_digest(alloc, plan.target_of(item), plan.meta(item))?;
        traits.push(digest)?;
    }
    Ok(traits)
}

/// The texts of the patterns.
fn texts_of(alloc: Global, plan: &Plan) -> Result<Vec<Text>, NoMemory>
    ensures { IfOk result (λ v. v.items ≡ pattern_texts plan.now) }
{
    let mut texts = Vec::new(alloc);
    for number in 0..plan.pattern_count() {
        let pattern = pattern_no(number)?;
        let text = text_of_pattern(alloc, plan.pattern(pattern))?;
        texts.push(text)?;
    }
    Ok(texts)
}
