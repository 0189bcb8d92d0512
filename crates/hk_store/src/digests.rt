// Digests of pages and of traits.
ghost use Rattle.std.specs.Prelude.{◌≡◌, ◌++◌, length, IfOk, OnOk};
ghost use Rattle.std.specs.List.{flat_map};
ghost use Rattle.std.specs.Option.{option_copied};
ghost use Rattle.hk_forms.specs.PatternText.{str};
ghost use Rattle.sha2.specs.Sha256.{sha256};
ghost use Rattle.hk_store.specs.StoreText.{page_text};
ghost use Rattle.hk_store.specs.Told.{both};
ghost use Rattle.hk_store.specs.Traits.{sha_digests};

use crate::fields::{append, write_num, write_opt, write_str};
use crate::print::{kind_line, sha_of};
use hk_base::NoMemory;
use hk_chain::Page;
use hk_meta::Metadata;
use sha2::{Digest, Sha256};
use std::alloc::Global;

/// Room that is taken at once, which most pieces of a text to be hashed don't outgrow.
pub(crate) const ROOM: usize = 256;

/// The digest of a page: the SHA-256 of its kind and its body. `NoMemory` only for want of memory for the line with the
/// body's length. Linear; the body isn't copied.
pub fn page_digest(alloc: Global, page: &Page) -> Result<[u8; 32], NoMemory>
    ensures { IfOk result (λ d. d ≡ sha_digests.page page.now) }
{
    let mut front = Vec::with_capacity(alloc, ROOM)?;
    append(&mut front, kind_line(page.kind))?;
    write_num(&mut front, page.body.as_slice().len())?;
    Ok(sha_of_three(&front, page.body.as_slice(), b"\n"))
}

/// The SHA-256 of three pieces taken as one text.
fn sha_of_three(first: &[u8], second: &[u8], third: &[u8]) -> [u8; 32]
    ensures { result ≡ sha256 ((first.now ++ second.now) ++ third.now) }
{
    let mut hasher = Sha256::new();
    hasher.update(first);
    hasher.update(second);
    hasher.update(third);
    hasher.finalize()
}

/// The digest of what others may read of an item besides its pages: its target and its metadata. `NoMemory` only for want
/// of memory. Linear.
pub fn traits_digest(
    alloc: Global,
    target: Option<&[u8]>,
    meta: &Metadata,
) -> Result<[u8; 32], NoMemory>
    ensures { IfOk result (λ d. d ≡ sha_digests.traits (record { target = option_copied target.entry; meta = meta.now })) }
{
    let mut pairs = Vec::with_capacity(alloc, ROOM)?;
    let count = write_pairs(&mut pairs, meta)?;
    let mut front = Vec::with_capacity(alloc, ROOM)?;
    write_opt(&mut front, target)?;
    write_num(&mut front, count)?;
    Ok(sha_of_three(&front, &pairs, b""))
}

/// Writes each key with its value, and tells how many there are.
fn write_pairs(out: &mut Vec<u8>, meta: &Metadata) -> Result<usize, NoMemory>
    ensures count { IfOk result (λ n. n ≡ length meta.now) }
    ensures written { OnOk result (out.new.items ≡ out.old.items ++ flat_map (both str str) meta.now) }
{
    let mut place = 0;
    while let Some((key, value)) = meta.entry(place) {
        write_str(out, key)?;
        write_str(out, value)?;
        place += 1;
    }
    Ok(place)
}
