//! Trials of the report of links: reads rows, each a site, and prints behind each what is printed of its links.
#![tactic(auto)]

mod site;

use hk_base::Text;
use hk_links::{check_links, links_text};
use site::Site;
use std::alloc::Global;
use std::test::Fail;

fn main(rt: HostRuntime) -> Result<(), Fail> {
    let alloc = rt.alloc();
    for line in rt.lines(alloc) {
        let line = line?;
        let text = answer(alloc, line.as_str())?;
        println!(rt; "{line} -> {}", text.as_slice().escape_ascii())?;
    }
    Ok(())
}

/// What is printed of the links of a row's site.
fn answer(alloc: Global, row: &str) -> Result<Text, Fail> {
    let site = Site::read(alloc, row)?;
    if site.targets.len() > 100 {
        return Err(Fail::new("a row tells at most a hundred pages"));
    }
    let report = check_links(alloc, &site.targets, &site.pages)?;
    Ok(links_text(alloc, &site.targets, &report)?)
}
