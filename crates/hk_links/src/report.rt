// The report of the links that lead nowhere.
ghost use Rattle.std.specs.Prelude.{◌≡◌, ◌<◌, ◌^◌, All, IfOk, OnOk, IsTrue, length, [], ◌∷◌};
ghost use Rattle.hk_base.specs.Bytes.{ascends};
ghost use Rattle.hk_links.specs.Path.{resolved};
ghost use Rattle.hk_links.specs.Report as spec;
ghost use Rattle.hk_links.specs.Report.{Adds, internal_links, link_report, page_links, target_at};

use crate::broken::Broken;
use crate::path::resolve;
use crate::targets::{is_target, target_at};
use crate::value::is_internal;
use hk_base::{NoMemory, Text};
use hk_chain::{Kind, Page, PageRef};
use hk_html::links;
use std::alloc::Global;
use std::marker::Model;

/// How many internal links were tested, and those that are broken, in the order of the targets and then of the pages.
#[derive(Debug, Drop)]
pub struct LinkReport {
    pub links: u64,
    pub broken: Vec<Broken>,
}

impl Model for LinkReport {
    ghost use Rattle.hk_links.specs.Report.{Report};

    ghost Value = { Report };

    ghost view = { λ r. record { links = r.links; broken = r.broken.items } };
}

impl LinkReport {
    fn count(&mut self)
        ensures { self.new ≡ spec.counted self.old }
    {
        self.links = self.links.saturating_add(1);
    }

    fn keep(&mut self, broken: Broken) -> Result<(), NoMemory>
        ensures { OnOk result (self.new ≡ spec.with_broken broken self.old) }
    {
        self.broken.push(broken)?;
        Ok(())
    }
}

/// Tests the links of pages. `targets` are those of the pages, in the same order, and ascend strictly.
///
/// Tested are the values of `href` and `src` in the text pages whose target ends in `.html` or `.htm`, where these begin
/// with neither `//` nor a scheme. Such a link is broken where the path to which it leads is no target. `links` is their
/// number, or 2^64 - 1 where there are more. `NoMemory` only for want of memory.
///
/// Linear in the bytes of the pages, with one search among the sorted targets for each link.
pub fn check_links(
    alloc: Global,
    targets: &[Text],
    pages: &[PageRef],
) -> Result<LinkReport, NoMemory>
    requires paired { length targets.now ≡ length pages.now }
    requires few { length targets.now < 2 ^ 32 }
    requires sorted { IsTrue (ascends targets.now) }
    ensures value { IfOk result (λ report. report ≡ link_report targets.now pages.now) }
    ensures within { IfOk result (λ report. All (λ broken. broken.page < length targets.now) report.broken) }
{
    let mut report = LinkReport {
        links: 0,
        broken: Vec::new(alloc),
    };
    for (number, page) in pages.iter().enumerate() {
        check_page(alloc, &mut report, targets, number as u32, page.get())?;
    }
    Ok(report)
}

/// Adds the links of a page.
fn check_page(
    alloc: Global,
    report: &mut LinkReport,
    targets: &[Text],
    number: u32,
    page: &Page,
) -> Result<(), NoMemory>
    requires within { number < length targets.now }
    requires sorted { IsTrue (ascends targets.now) }
    ensures { OnOk result (Adds targets.now (page_links number (target_at targets.now number) page.now) report.old report.new) }
{
    let target = target_at(targets, number);
    if !is_tested(target, page) {
        return Ok(());
    }
    let values = links(alloc, page.body.as_slice())?;
    check_values(alloc, report, targets, number, target, values)
}

/// Whether the links of the page are tested.
fn is_tested(target: &[u8], page: &Page) -> bool
    ensures { result ≡ spec.is_tested target.now page.now }
{
    is_text(page.kind) && (target.ends_with(b".html") || target.ends_with(b".htm"))
}

fn is_text(kind: Kind) -> bool
    ensures { result ≡ spec.is_text kind }
{
    match kind {
        Kind::Text => true,
        Kind::Template | Kind::File => false,
    }
}

fn check_values(
    alloc: Global,
    report: &mut LinkReport,
    targets: &[Text],
    number: u32,
    target: &[u8],
    values: Vec<Text>,
) -> Result<(), NoMemory>
    requires { IsTrue (ascends targets.now) }
    ensures { OnOk result (Adds targets.now (internal_links number target.now values.items) report.old report.new) }
{
    for value in values {
        check_value(alloc, report, targets, number, target, value)?;
    }
    Ok(())
}

fn check_value(
    alloc: Global,
    report: &mut LinkReport,
    targets: &[Text],
    number: u32,
    target: &[u8],
    value: Text,
) -> Result<(), NoMemory>
    requires { IsTrue (ascends targets.now) }
    ensures { OnOk result (Adds targets.now (internal_links number target.now (value ∷ [])) report.old report.new) }
{
    if !is_internal(value.as_slice()) {
        return Ok(());
    }
    let found = leads(alloc, targets, target, value.as_slice())?;
    report.count();
    if found {
        return Ok(());
    }
    report.keep(Broken {
        page: number,
        value,
    })?;
    Ok(())
}

/// Whether an internal value leads to a target.
fn leads(alloc: Global, targets: &[Text], target: &[u8], value: &[u8]) -> Result<bool, NoMemory>
    requires { IsTrue (ascends targets.now) }
    ensures { IfOk result (λ leads. leads ≡ spec.is_target targets.now (resolved target.now value.now)) }
{
    let path = resolve(alloc, target, value)?;
    Ok(is_target(targets, path.as_slice()))
}
