// Metadata: keys in order, each with one value.
ghost use Rattle.std.specs.Prelude.{◌≡◌, [], true, IfOk, slice_get, option_map};
ghost use Rattle.hk_meta.specs.Metadata as spec;

use hk_base::NoMemory;
use indexmap::IndexMap;
use std::alloc::Global;
use std::marker::Model;

/// Keys in order, each with one value; no key stands twice.
#[derive(Drop)]
pub struct Metadata {
    pairs: IndexMap<Vec<u8>, Vec<u8>>,
}

impl Model for Metadata {
    ghost use Rattle.std.specs.Prelude.{◌≡◌, true, map};
    ghost use Rattle.hk_meta.specs.Metadata.{Pairs, keys_differ};

    ghost Value = { Pairs };

    ghost view = { λ m. map (λ e. (e.0.items, e.1.items)) m.pairs.entries };

    ghost invariant = { λ m. keys_differ (map (λ e. (e.0.items, e.1.items)) m.pairs.entries) ≡ true };
}

impl Metadata {
    /// No keys at all. Constant; takes no memory.
    pub fn new(alloc: Global) -> Metadata
        ensures { result ≡ [] }
    {
        Metadata {
            pairs: IndexMap::new(alloc),
        }
    }

    /// The value of a key; `None` exactly where the key isn't there. Constant on average, and linear in the key;
    /// takes no memory.
    pub fn get(&self, key: &[u8]) -> Option<&[u8]>
        ensures value { option_map (λ v. v.now) result ≡ spec.value_of key.now self.now }
        ensures differ { spec.keys_differ self.now ≡ true }
    {
        match self.pairs.get(key) {
            Some(value) => Some(value.as_slice()),
            None => None,
        }
    }

    /// The key and the value at a place, counted from 0; `None` exactly where there are no more. Constant; takes no
    /// memory.
    pub fn entry(&self, place: usize) -> Option<(&[u8], &[u8])>
        ensures value { option_map (λ p. (p.0.now, p.1.now)) result ≡ slice_get self.now place }
        ensures differ { spec.keys_differ self.now ≡ true }
    {
        match self.pairs.get_index(place) {
            Some((key, value)) => Some((key.as_slice(), value.as_slice())),
            None => None,
        }
    }

    /// Gives a key a value: a key that is there keeps its place, and a new one goes last. Constant on average.
    pub(crate) fn put(&mut self, key: Vec<u8>, value: Vec<u8>) -> Result<(), NoMemory>
        ensures { IfOk result (λ _. self.new ≡ spec.put key.items value.items self.old) }
    {
        self.pairs.insert(key, value)?;
        Ok(())
    }

    /// Adds a pair whose key isn't there at the end, and else leaves all as it is.
    fn add_absent(&mut self, key: Vec<u8>, value: Vec<u8>) -> Result<(), NoMemory>
        ensures { IfOk result (λ _. self.new ≡ spec.add_absent self.old (key.items, value.items)) }
    {
        if self.get(&key).is_none() {
            self.put(key, value)?;
        }
        Ok(())
    }
}

/// The keys and values of a header, in their places, and after them those of its companion whose keys the header
/// lacks, in their order. `NoMemory` only for want of memory. Linear on average, since keys are hashed.
pub fn merge(_alloc: Global, header: Metadata, companion: Metadata) -> Result<Metadata, NoMemory>
    ensures { IfOk result (λ merged. merged ≡ spec.merge header companion) }
{
    let mut merged = header;
    for (key, value) in companion.pairs {
        merged.add_absent(key, value)?;
    }
    Ok(merged)
}
