// Whether the feeds of a case can be made, and their texts.
use crate::case::Saved;
use hk_base::{Identifier, Refusal, Shared, Text};
use hk_chain::{Kind, Page, PageRef};
use hk_feed::{FeedFault, check_feeds, feed_text};
use hk_fix::Results;
use hk_rules::{FeedRule, Plan, make_plan, read_rules};
use std::alloc::Global;
use std::test::Fail;

/// The first fault of the feeds, or else their texts one after another.
pub fn answer(
    alloc: Global,
    rules: &str,
    files: Vec<(Text, Text)>,
    pages: Vec<Saved<'_>>,
    feeds: &[FeedRule],
) -> Result<String, Fail> {
    let rules = read_rules(alloc, rules.as_bytes())?;
    let plan = make_plan(alloc, rules, files)?;
    match check_feeds(alloc, &plan, feeds) {
        Ok(()) => texts(alloc, &plan, pages, feeds),
        Err(Refusal::Fault(fault)) => fault_text(alloc, &fault),
        Err(Refusal::NoMemory) => Err(Fail::new("no memory")),
    }
}

fn texts(
    alloc: Global,
    plan: &Plan,
    pages: Vec<Saved<'_>>,
    feeds: &[FeedRule],
) -> Result<String, Fail> {
    let results = results_of(alloc, plan, pages)?;
    let mut all = String::new(alloc);
    for feed in feeds {
        let text = feed_text(alloc, plan, &results, feed)?;
        all.push_str(str::from_utf8(text.as_slice()).unwrap_or("?"))?;
    }
    Ok(all)
}

/// The results of a run that gave these pages.
fn results_of(alloc: Global, plan: &Plan, saved: Vec<Saved<'_>>) -> Result<Results, Fail> {
    let mut pages = Vec::new(alloc);
    for _ in 0..plan.layout().get().pairs() {
        pages.push(None)?;
    }
    for page in saved {
        put(alloc, plan, &mut pages, page)?;
    }
    Ok(Results {
        outcomes: Vec::new(alloc),
        pages,
        history: Vec::new(alloc),
    })
}

fn put(
    alloc: Global,
    plan: &Plan,
    pages: &mut Vec<Option<PageRef>>,
    saved: Saved<'_>,
) -> Result<(), Fail> {
    let id = Identifier::read(alloc, saved.path.as_bytes(), None)?;
    let Some(item) = plan.find(&id) else {
        return Err(Fail::new("no such item"));
    };
    if item.0 >= plan.count() {
        return Err(Fail::new("no such number"));
    }
    if let Some(pair) = plan.pair(item, saved.name.as_bytes()) {
        if let Some(place) = pages.get_mut(pair.0 as usize) {
            *place = Some(page_of(alloc, saved)?);
        }
    }
    Ok(())
}

fn page_of(alloc: Global, saved: Saved<'_>) -> Result<PageRef, Fail> {
    let kind = match saved.kind {
        "text" => Kind::Text,
        "template" => Kind::Template,
        _ => Kind::File,
    };
    let page = Page {
        kind,
        body: saved.body,
    };
    Ok(Shared::new(alloc, page)?)
}

fn fault_text(alloc: Global, fault: &FeedFault) -> Result<String, Fail> {
    Ok(match fault {
        FeedFault::BadTarget { target } => {
            format!(in alloc; "bad target {}\n", target.as_slice().escape_ascii())?
        }
        FeedFault::Taken { target } => {
            format!(in alloc; "feed {} is taken\n", target.as_slice().escape_ascii())?
        }
        FeedFault::NoSnapshot { id, name } => no_snapshot_text(alloc, id, name)?,
        FeedFault::NoDate { id } => {
            format!(in alloc;
                "no date of {}\n",
                id.print(alloc)?.as_slice().escape_ascii()
            )?
        }
    })
}

fn no_snapshot_text(alloc: Global, id: &Identifier, name: &Text) -> Result<String, Fail> {
    let name = name.as_slice().escape_ascii();
    let id = id.print(alloc)?;
    Ok(format!(in alloc; "no snapshot {name} of {}\n", id.as_slice().escape_ascii())?)
}
