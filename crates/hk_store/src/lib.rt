//! What a build leaves for the next one.
#![tactic(auto)]

mod chains;
mod damage;
mod digests;
mod entry;
mod fields;
mod fingerprints;
mod fronts;
mod halt;
mod laws;
mod parts;
mod print;
mod reached;
mod read;
mod scan;
mod steps;

pub use damage::StoreDamage;
pub use digests::{page_digest, traits_digest};
pub use entry::{AskRecord, Entry, MarkRecord, MatchRecord, SaveRecord, Stored};
pub use fingerprints::fingerprint;
pub use fronts::fingerprint_digests;
pub use laws::{patterns_are_told, recipes_are_told};
pub use print::print_store;
pub use read::read_store;
