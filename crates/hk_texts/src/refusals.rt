// The lines of a source that has no plan.
ghost use Rattle.std.specs.Prelude.{◌≡◌, IfOk};
ghost use Rattle.std.specs.Fmt.{decimal};
ghost use Rattle.hk_base.specs.Identifier.{print_ident};
ghost use Rattle.hk_texts.specs.Printed as spec;

use hk_base::{Identifier, NoMemory, Text};
use hk_feed::FeedFault;
use hk_rules::{PlanFault, RulesFault};
use hk_tags::TagFault;
use std::alloc::Global;

/// The line of a refused `site.toml`. Linear in what it names.
pub fn rules_line(alloc: Global, fault: &RulesFault) -> Result<Text, NoMemory>
    ensures { IfOk result (λ text. text ≡ spec.rules_line fault.now) }
{
    match fault {
        RulesFault::TooLong => Text::from_slice(alloc, b"site.toml: more than 1048576 bytes\n"),
        RulesFault::NotToml => Text::from_slice(alloc, b"site.toml: not TOML\n"),
        RulesFault::BadRule { number, word } => {
            rule_line(alloc, *number, b"", word.as_slice(), b"\n")
        }
        RulesFault::TooManyRules => Text::from_slice(alloc, b"site.toml: more than 1024 rules\n"),
        RulesFault::BadContext { name } => {
            around(alloc, b"site.toml: context ", name.as_slice(), b"\n")
        }
        RulesFault::DoubleSnapshot { number, name } => {
            rule_line(alloc, *number, b"snapshot ", name.as_slice(), b" twice\n")
        }
        RulesFault::UnknownContext { number, name } => {
            rule_line(alloc, *number, b"unknown context ", name.as_slice(), b"\n")
        }
        RulesFault::BadTags { number, word } => table_line(alloc, "tags", *number, word.as_slice()),
        RulesFault::BadPaginate { number, word } => {
            table_line(alloc, "paginate", *number, word.as_slice())
        }
        RulesFault::BadFeed { number, word } => table_line(alloc, "feed", *number, word.as_slice()),
    }
}

/// `site.toml: ` with the key of a table, its number and the key in it that is at fault.
fn table_line(alloc: Global, kind: &str, number: u32, word: &[u8]) -> Result<Text, NoMemory>
    ensures { IfOk result (λ text. text ≡ spec.table_line kind.now number word.now) }
{
    let head = format!(in alloc; "site.toml: {kind} {number}: ")?;
    let mut line = head.into_bytes();
    line.extend_from_slice(word)?;
    line.extend_from_slice(b"\n")?;
    Ok(Text::from_vec(line))
}

/// `site.toml: rule N: ` with a word in front of a name and one after it.
fn rule_line(
    alloc: Global,
    number: u32,
    front: &[u8],
    name: &[u8],
    back: &[u8],
) -> Result<Text, NoMemory>
    ensures { IfOk result (λ text. text ≡ spec.rule_line number front.now name.now back.now) }
{
    let head = format!(in alloc; "site.toml: rule {number}: ")?;
    let mut line = head.into_bytes();
    line.extend_from_slice(front)?;
    line.extend_from_slice(name)?;
    line.extend_from_slice(back)?;
    Ok(Text::from_vec(line))
}

/// A name between two words.
fn around(alloc: Global, front: &[u8], name: &[u8], back: &[u8]) -> Result<Text, NoMemory>
    ensures { IfOk result (λ text. text ≡ spec.around front.now name.now back.now) }
{
    let mut line = Vec::from_slice(alloc, front)?;
    line.extend_from_slice(name)?;
    line.extend_from_slice(back)?;
    Ok(Text::from_vec(line))
}

/// The line of rules that make no plan of a folder. Linear in what it names.
pub fn plan_line(alloc: Global, fault: &PlanFault) -> Result<Text, NoMemory>
    ensures { IfOk result (λ text. text ≡ spec.plan_line fault.now) }
{
    match fault {
        PlanFault::BadName { path } => around(alloc, b"site: bad name ", path.as_slice(), b"\n"),
        PlanFault::TooManyItems => Text::from_slice(alloc, b"site: more than 65535 items\n"),
        PlanFault::BadHeader { path, line } => header_line(alloc, path.as_slice(), *line),
        PlanFault::BadTarget { id } => id_line(alloc, b"site: bad target of ", id),
        PlanFault::SameTarget {
            target,
            first,
            second,
        } => same_line(alloc, target.as_slice(), first, second),
        PlanFault::NestedTarget {
            outer,
            inner,
            first,
            second,
        } => nested_line(alloc, outer.as_slice(), inner.as_slice(), first, second),
    }
}

/// The line of tables that give no pages. Linear in what it names.
pub fn tag_line(alloc: Global, fault: &TagFault) -> Result<Text, NoMemory>
    ensures { IfOk result (λ text. text ≡ spec.tag_line fault.now) }
{
    match fault {
        TagFault::BadPath { path } => around(alloc, b"site: bad page ", path.as_slice(), b"\n"),
        TagFault::Taken { id } => {
            let printed = id.print(alloc)?;
            around(alloc, b"site: page ", printed.as_slice(), b" is taken\n")
        }
        TagFault::NoDate { id } => id_line(alloc, b"site: no date of ", id),
        TagFault::TooManyItems => Text::from_slice(alloc, b"site: more than 65535 items\n"),
    }
}

/// The line of feeds that can't be made. Linear in what it names.
pub fn feed_line(alloc: Global, fault: &FeedFault) -> Result<Text, NoMemory>
    ensures { IfOk result (λ text. text ≡ spec.feed_line fault.now) }
{
    match fault {
        FeedFault::BadTarget { target } => {
            around(alloc, b"site: bad target ", target.as_slice(), b"\n")
        }
        FeedFault::Taken { target } => {
            around(alloc, b"site: feed ", target.as_slice(), b" is taken\n")
        }
        FeedFault::NoSnapshot { id, name } => snapshot_line(alloc, name.as_slice(), id),
        FeedFault::NoDate { id } => id_line(alloc, b"site: no date of ", id),
    }
}

fn snapshot_line(alloc: Global, name: &[u8], id: &Identifier) -> Result<Text, NoMemory>
    ensures { IfOk result (λ text. text ≡ spec.snapshot_line name.now id.now) }
{
    let mut back = id.print(alloc)?.into_vec();
    back.push(b'\n')?;
    let mut line = Vec::from_slice(alloc, b"site: no snapshot ")?;
    line.extend_from_slice(name)?;
    line.extend_from_slice(b" of ")?;
    line.extend_from_slice(&back)?;
    Ok(Text::from_vec(line))
}

fn header_line(alloc: Global, path: &[u8], line: u64) -> Result<Text, NoMemory>
    ensures { IfOk result (λ text. text ≡ spec.header_line path.now line) }
{
    let back = format!(in alloc; ", line {line}\n")?;
    around(alloc, b"site: header of ", path, back.as_bytes())
}

fn id_line(alloc: Global, front: &[u8], id: &Identifier) -> Result<Text, NoMemory>
    ensures { IfOk result (λ text. text ≡ spec.around front.now (print_ident id.now) (spec.end_of_line)) }
{
    let printed = id.print(alloc)?;
    around(alloc, front, printed.as_slice(), b"\n")
}

fn same_line(
    alloc: Global,
    target: &[u8],
    first: &Identifier,
    second: &Identifier,
) -> Result<Text, NoMemory>
    ensures { IfOk result (λ text. text ≡ spec.same_line target.now first.now second.now) }
{
    let first = first.print(alloc)?;
    let second = second.print(alloc)?;
    let mut line = Vec::from_slice(alloc, b"site: target ")?;
    line.extend_from_slice(target)?;
    line.extend_from_slice(b" of ")?;
    line.extend_from_slice(first.as_slice())?;
    line.extend_from_slice(b" and ")?;
    line.extend_from_slice(second.as_slice())?;
    line.push(b'\n')?;
    Ok(Text::from_vec(line))
}

fn nested_line(
    alloc: Global,
    outer: &[u8],
    inner: &[u8],
    first: &Identifier,
    second: &Identifier,
) -> Result<Text, NoMemory>
    ensures { IfOk result (λ text. text ≡ spec.nested_line outer.now inner.now first.now second.now) }
{
    let above = above(alloc, outer, first)?;
    let mut line = above.into_vec();
    line.extend_from_slice(b" lies above ")?;
    let below = second.print(alloc)?;
    line.extend_from_slice(inner)?;
    line.extend_from_slice(b" of ")?;
    line.extend_from_slice(below.as_slice())?;
    line.push(b'\n')?;
    Ok(Text::from_vec(line))
}

fn above(alloc: Global, outer: &[u8], first: &Identifier) -> Result<Text, NoMemory>
    ensures { IfOk result (λ text. text ≡ spec.above outer.now first.now) }
{
    let id = first.print(alloc)?;
    let mut line = Vec::from_slice(alloc, b"site: target ")?;
    line.extend_from_slice(outer)?;
    line.extend_from_slice(b" of ")?;
    line.extend_from_slice(id.as_slice())?;
    Ok(Text::from_vec(line))
}
