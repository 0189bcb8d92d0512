// What is printed of a report of links.
ghost use Rattle.std.specs.Prelude.{◌≡◌, ◌++◌, ◌<◌, All, IfOk, OnOk, length};
ghost use Rattle.std.specs.List.{flat_map};
ghost use Rattle.hk_links.specs.Printed as spec;

use crate::broken::Broken;
use crate::report::LinkReport;
use crate::targets::target_at;
use hk_base::{NoMemory, Text};
use std::alloc::Global;

/// A line for each broken link with the target of its page, and one with the number of links and of broken ones. The
/// pages of the report are among the targets. `NoMemory` only for want of memory. Linear.
pub fn links_text(alloc: Global, targets: &[Text], report: &LinkReport) -> Result<Text, NoMemory>
    requires { All (λ broken. broken.page < length targets.now) report.now.broken }
    ensures { IfOk result (λ text. text ≡ spec.links_text targets.now report.now) }
{
    let mut text = Vec::new(alloc);
    write_broken(&mut text, targets, &report.broken)?;
    write_counts(alloc, &mut text, report.links, report.broken.len())?;
    Ok(Text::from_vec(text))
}

fn write_broken(text: &mut Vec<u8>, targets: &[Text], all: &[Broken]) -> Result<(), NoMemory>
    requires { All (λ broken. broken.page < length targets.now) all.now }
    ensures { OnOk result (text.new.items ≡ text.old.items ++ flat_map (spec.broken_line_of targets.now) all.now) }
{
    for broken in all {
        write_line(
            text,
            target_at(targets, broken.page),
            broken.value.as_slice(),
        )?;
    }
    Ok(())
}

fn write_line(text: &mut Vec<u8>, target: &[u8], value: &[u8]) -> Result<(), NoMemory>
    ensures { OnOk result (text.new.items ≡ text.old.items ++ spec.broken_line target.now value.now) }
{
    text.extend_from_slice(b"broken ")?;
    text.extend_from_slice(target)?;
    text.extend_from_slice(b": ")?;
    text.extend_from_slice(value)?;
    text.push(b'\n')?;
    Ok(())
}

fn write_counts(
    alloc: Global,
    text: &mut Vec<u8>,
    links: u64,
    broken: usize,
) -> Result<(), NoMemory>
    ensures { OnOk result (text.new.items ≡ text.old.items ++ spec.count_line links broken) }
{
    let line = format!(in alloc; "links {links}, broken {broken}\n")?;
    text.extend_from_slice(line.as_bytes())?;
    Ok(())
}
