// Threads may pass these on and share them.
use crate::hashing::PageDigests;
use crate::maker::ReplayMaker;
use crate::record::Records;
use crate::replay::{Held, Replay};
use hk_fix::{Compiler, Maker};

fn sends<T: Send>(_value: &T) {}

fn shares<T: Sync>(_value: &T) {}

fn digests(value: &PageDigests) {
    sends(value);
    shares(value);
}

fn records(value: &Records) {
    sends(value);
    shares(value);
}

fn replay<M: Compiler + Send>(value: &Replay<M>) {
    sends(value);
}

fn held<C: Drop + Send + Sync>(value: &Held<C>) {
    sends(value);
    shares(value);
}

fn maker<K: Maker + Drop + Sync>(value: &ReplayMaker<K>) {
    shares(value);
}
