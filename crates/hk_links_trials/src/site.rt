// The sites that rows tell.
ghost use Rattle.std.specs.Prelude.{◌≡◌, IfOk, IsTrue, length};
ghost use Rattle.hk_base.specs.Bytes.{ascends};

use hk_base::{NoMemory, Shared, Text};
use hk_chain::{Kind, Page, PageRef};
use std::alloc::Global;
use std::collections::BTreeMap;
use std::test::Fail;

/// The targets of a site in their order, and their pages.
#[derive(Drop)]
pub struct Site {
    pub targets: Vec<Text>,
    pub pages: Vec<PageRef>,
}

impl Site {
    /// Reads pages between bars, each a target and after `=` a text; where the target ends in `~` it is a template, in `!` a
    /// file.
    pub fn read(alloc: Global, row: &str) -> Result<Site, Fail>
        ensures ascending { IfOk result (λ site. IsTrue (ascends site.targets.items)) }
        ensures paired { IfOk result (λ site. length site.targets.items ≡ length site.pages.items) }
    {
        let mut pages = BTreeMap::new(alloc);
        for page in row.split('|') {
            let (name, body) = page.split_once('=').unwrap_or((page, ""));
            let (target, kind) = kind_of(name);
            let target = Text::from_slice(alloc, target.as_bytes())?;
            let body = Text::from_slice(alloc, body.as_bytes())?;
            pages.insert(target, Shared::new(alloc, Page { kind, body })?)?;
        }
        Ok(in_order(alloc, pages)?)
    }
}

fn kind_of(name: &str) -> (&str, Kind) {
    if let Some(target) = name.strip_suffix('~') {
        (target, Kind::Template)
    } else if let Some(target) = name.strip_suffix('!') {
        (target, Kind::File)
    } else {
        (name, Kind::Text)
    }
}

fn in_order(alloc: Global, by_target: BTreeMap<Text, PageRef>) -> Result<Site, NoMemory>
    ensures ascending { IfOk result (λ site. IsTrue (ascends site.targets.items)) }
    ensures paired { IfOk result (λ site. length site.targets.items ≡ length site.pages.items) }
{
    let mut targets = Vec::with_capacity(alloc, by_target.len())?;
    let mut pages = Vec::new(alloc);
    for (target, page) in by_target {
        targets.push(target)?;
        pages.push(page)?;
    }
    Ok(Site { targets, pages })
}
