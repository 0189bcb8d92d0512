//! Trials of feeds: reads rules files with their folders, the pages that a run gave, and feeds, and prints whether the
//! feeds can be made, and their texts.
#![tactic(auto)]

mod answers;
mod bytes;
mod case;
mod rules;

use case::Case;
use std::io;
use std::test::Fail;

fn main(rt: HostRuntime) -> Result<(), Fail> {
    let alloc = rt.alloc();
    let input = io::read_to_string(alloc, rt.reader())?;
    let mut case = Case::new(alloc);
    for part in input.as_str().split("==== ") {
        print!(rt; "{}", case.answer(alloc, part)?)?;
    }
    Ok(())
}
