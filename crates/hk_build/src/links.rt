// The links of a site's pages that lead nowhere inside it.
ghost use Rattle.std.specs.Prelude.{◌≡◌, IfOk, map};
ghost use Rattle.hk_chain.specs.Kept.{at_place};
ghost use Rattle.hk_build.specs.Linked.{AreLines};
ghost use Rattle.hk_build.specs.Pages as spec;

use crate::pages::site_pages;
use hk_base::{NoMemory, Text};
use hk_chain::PageRef;
use hk_fix::Results;
use hk_links::{check_links, links_text};
use hk_rules::Plan;
use hk_writer::PageOut;
use std::alloc::Global;

/// A line for each link that leads nowhere and one that counts, and whether each link leads somewhere.
#[derive(Drop)]
pub struct LinkLines {
    pub text: Text,
    pub all_lead: bool,
}

/// What is printed of the links of a build's pages. `NoMemory` only for want of memory. Linear in the bytes of the pages, with
/// `n log n` comparisons of targets and one search among them for each link.
pub fn link_lines(alloc: Global, plan: &Plan, results: &Results) -> Result<LinkLines, NoMemory>
    ensures { IfOk result (AreLines (spec.pages_at plan.now (at_place results.now.pages))) }
{
    let _items = plan.count();
    let outs = site_pages(alloc, plan, results)?;
    let (targets, pages) = apart(alloc, outs)?;
    // a number of 32 bits stands for each page
    if targets.len() > u32::MAX as usize {
        return Err(NoMemory);
    }
    let report = check_links(alloc, &targets, &pages)?;
    Ok(LinkLines {
        text: links_text(alloc, &targets, &report)?,
        all_lead: report.broken.is_empty(),
    })
}

/// The targets of pages, and the pages.
fn apart(alloc: Global, outs: Vec<PageOut>) -> Result<(Vec<Text>, Vec<PageRef>), NoMemory>
    ensures targets { IfOk result (λ r. r.0.items ≡ map (λ e. e.0) (map spec.placed_out outs.items)) }
    ensures pages { IfOk result (λ r. r.1.items ≡ map (λ e. e.1) (map spec.placed_out outs.items)) }
{
    let mut targets = Vec::with_capacity(alloc, outs.len())?;
    let mut pages = Vec::with_capacity(alloc, outs.len())?;
    for out in outs {
        targets.push(out.target)?;
        pages.push(out.page)?;
    }
    Ok((targets, pages))
}
