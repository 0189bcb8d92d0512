//! Trials of the crate that keeps results: fingerprints, digests and the text of a store. It reads rows that stand for
//! bytes, and prints what reading them as a store answers.
#![tactic(auto)]

#[cfg(test)]
mod fingerprints;
mod reading;
#[cfg(test)]
mod stores;

use std::test::Fail;

fn main(rt: HostRuntime) -> Result<(), Fail> {
    let alloc = rt.alloc();
    for line in rt.lines(alloc) {
        let line = line?;
        let answer = reading::answered(alloc, line.as_str())?;
        println!(rt; "{line} -> {answer}")?;
    }
    Ok(())
}
