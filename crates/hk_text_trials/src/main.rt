//! Trials of the crates of texts: reads rows, each a call and its arguments, and prints behind each what the call answers.
#![tactic(auto)]

mod answers;
mod folders;
mod identifiers;
mod pages;
mod patterns;
mod row;
mod templates;

use answers::answer;
use row::arguments;
use std::test::Fail;

fn main(rt: HostRuntime) -> Result<(), Fail> {
    let alloc = rt.alloc();
    for line in rt.lines(alloc) {
        let line = line?;
        let (call, rest) = line.as_str().split_once('|').unwrap_or((line.as_str(), ""));
        let text = answer(alloc, call, arguments(alloc, rest)?.as_slice())?;
        println!(rt; "{line} -> {text}")?;
    }
    Ok(())
}
