//! Trials of the crates of compilers and boards: what public calls answer. It reads
//! rows of outcomes and prints what is left to report of each, and then what the other trials come to.
#![tactic(auto)]

mod boards;
mod layouts;
mod reports;
mod runs;
mod texts;
mod ways;

use std::test::Fail;

fn main(rt: HostRuntime) -> Result<(), Fail> {
    let alloc = rt.alloc();
    for line in rt.lines(alloc) {
        let line = line?;
        let left = reports::reported(alloc, line.as_str())?;
        println!(rt; "{line} -> {left}")?;
    }
    println!(rt; "long line -> {}", reports::long_line(alloc)?)?;
    println!(rt; "layout -> {}", layouts::layout(alloc)?)?;
    println!(rt; "kept -> {}", layouts::kept(alloc)?)?;
    println!(rt; "facts -> {}", layouts::facts(alloc)?)?;
    println!(rt; "page -> {}", layouts::page(alloc)?)?;
    println!(rt; "saved and then loaded -> {}", runs::mutual(alloc, true)?)?;
    println!(rt; "loaded and then saved -> {}", runs::mutual(alloc, false)?)?;
    println!(rt; "groups -> {}", runs::groups(alloc)?)?;
    println!(rt; "one kept -> {}", runs::kept(alloc)?)?;
    println!(rt; "fresh turns -> {}", boards::fresh_turns(alloc)?)?;
    println!(rt; "saves -> {}", boards::saves(alloc)?)?;
    println!(rt; "ends -> {}", boards::ends(alloc)?)?;
    println!(rt;
        "admitted while out -> {}",
        boards::admits_while_out(alloc)?
    )?;
    println!(rt; "by hand -> {}", ways::ways(alloc)?)?;
    Ok(())
}
