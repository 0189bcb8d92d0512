// Stores that were cut, or that somebody wrote.
use crate::trial::Trial;
use hk_base::NoMemory;
use sha2::{Digest, Sha256};
use std::alloc::{AllocError, Global};
use std::test::Fail;

/// A text with its trailer.
pub fn sealed(alloc: Global, text: &[u8]) -> Result<Vec<u8>, AllocError> {
    let mut bytes = Vec::from_slice(alloc, text)?;
    bytes.extend_from_slice(&trailer_of(text))?;
    Ok(bytes)
}

fn trailer_of(text: &[u8]) -> [u8; 32] {
    let mut hasher = Sha256::new();
    hasher.update(text);
    hasher.finalize()
}

/// Over how many fronts of the store, from none of its bytes on, a build prints the text and leaves exactly the pages, and
/// how many were tried: those whose length has no bit in common with the mask, so all of them where it is 0.
pub fn cut(alloc: Global, trial: &Trial, mask: usize, text: &[u8]) -> Result<String, Fail> {
    let store = trial.store().ok_or("no store")?;
    let (right, tried) = passed_over(alloc, trial, store, mask, text)?;
    Ok(format!(in alloc; "{right} of {tried} fronts")?)
}

fn passed_over(
    alloc: Global,
    trial: &Trial,
    store: &[u8],
    mask: usize,
    text: &[u8],
) -> Result<(u64, u64), NoMemory> {
    let (mut right, mut tried) = (0u64, 0u64);
    for count in 0..store.len() {
        if count & mask == 0 {
            tried = tried.wrapping_add(1);
            if trial.is_passed_over(alloc, &store[..count], text)? {
                right = right.wrapping_add(1);
            }
        }
    }
    Ok((right, tried))
}
