// What the trials make and print.
ghost use Rattle.std.specs.Prelude.{◌≡◌, IfOk};
ghost use Rattle.hk_families.specs.Mutual.{mutual_shape};

use hk_base::{NoMemory, Text};
use hk_chain::{Facts, Kind, Layout, Page, PageRef};
use hk_fix::{Report, Results};
use std::alloc::{AllocError, Global};

/// How each item ended, which pages are known, the events in their order, and what is left to report.
pub fn told(alloc: Global, results: &Results, left: &Report) -> Result<String, AllocError> {
    let known = known(alloc, &results.pages)?;
    let outcomes = &results.outcomes;
    let history = &results.history;
    format!(in alloc; "{outcomes:?} {known} {history:?} {left:?}")
}

/// An `x` for each page that is known.
fn known(alloc: Global, pages: &[Option<PageRef>]) -> Result<String, AllocError> {
    let mut text = String::new(alloc);
    for page in pages {
        text.push_str(if page.is_some() { "x" } else { "-" })?;
    }
    Ok(text)
}

/// The layout of the family of mutual loads.
pub fn layout(alloc: Global) -> Result<Layout, NoMemory>
    ensures { IfOk result (λ l. l ≡ mutual_shape) }
{
    Layout::of_counts(alloc, &[1, 1])
}

pub fn page(alloc: Global) -> Result<PageRef, NoMemory> {
    let page = Page {
        kind: Kind::Text,
        body: Text::from_slice(alloc, b"x")?,
    };
    PageRef::new(alloc, page)
}

pub fn no_facts(alloc: Global) -> Facts {
    Facts {
        asks: Vec::new(alloc),
        patterns: Vec::new(alloc),
        trace: Vec::new(alloc),
    }
}
