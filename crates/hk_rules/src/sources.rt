// The files that items are made of.
ghost use Rattle.std.specs.Prelude.{◌≡◌, ◌++◌, IfOk, codes};
ghost use Rattle.std.specs.Ordering.{nat_cmp};
ghost use Rattle.std.specs.Cmp.Lexicographic.{slice_cmp};
ghost use Rattle.std.specs.BTreeMap.{get};
ghost use Rattle.hk_base.specs.Bytes.{Bytes};
ghost use Rattle.hk_rules.specs.Sources as spec;

use crate::resource::is_companion;
use crate::source_file::SourceFile;
use hk_base::{NoMemory, Shared, Text};
use std::alloc::Global;
use std::collections::BTreeMap;

/// Files that go with others, by path, and all other files in their order.
struct Parted {
    others: Vec<(Text, Text)>,
    companions: BTreeMap<Text, Shared<Text>>,
}

/// The files that are no companions, in their order, each with the text of its companion. One look-up for each file.
#[tactic(auto, unfolding(crate::specs::Sources::sources))]
pub(crate) fn sources_of(
    alloc: Global,
    files: Vec<(Text, Text)>,
) -> Result<Vec<(Text, Shared<SourceFile>)>, NoMemory>
    ensures { IfOk result (λ v. v.items ≡ spec.sources files.items) }
{
    let Parted { others, companions } = part_files(alloc, files)?;
    sources_by(alloc, others, &companions)
}

fn part_files(alloc: Global, files: Vec<(Text, Text)>) -> Result<Parted, NoMemory>
    ensures others { IfOk result (λ p. p.others.items ≡ spec.others files.items) }
    ensures companions { IfOk result (λ p. (path : Bytes) → get (slice_cmp nat_cmp) p.companions path ≡ spec.text_at (spec.companions files.items) path) }
{
    let mut others = Vec::new(alloc);
    let mut companions = BTreeMap::new(alloc);
    for (path, text) in files {
        if is_companion(path.as_slice()) {
            companions.insert(path, Shared::new(alloc, text)?)?;
        } else {
            others.push((path, text))?;
        }
    }
    Ok(Parted { others, companions })
}

fn sources_by(
    alloc: Global,
    others: Vec<(Text, Text)>,
    companions: &BTreeMap<Text, Shared<Text>>,
) -> Result<Vec<(Text, Shared<SourceFile>)>, NoMemory>
    ensures { IfOk result (λ v. v.items ≡ spec.sources_by (get (slice_cmp nat_cmp) companions.now) others.items) }
{
    let mut sources = Vec::with_capacity(alloc, others.len())?;
    for (path, text) in others {
        let companion = companion_of(alloc, companions, &path)?;
        let source = Shared::new(alloc, SourceFile { text, companion })?;
        sources.push((path, source))?;
    }
    Ok(sources)
}

fn companion_of(
    alloc: Global,
    companions: &BTreeMap<Text, Shared<Text>>,
    path: &Text,
) -> Result<Option<Shared<Text>>, NoMemory>
    ensures { IfOk result (λ o. o ≡ get (slice_cmp nat_cmp) companions.now (path.now ++ codes ".metadata")) }
{
    let key = companion_path(alloc, path.as_slice())?;
    match companions.get(&key) {
        Some(text) => Ok(Some(text.try_clone()?)),
        None => Ok(None),
    }
}

/// The path of the companion of the file at a path.
pub(crate) fn companion_path(alloc: Global, path: &[u8]) -> Result<Text, NoMemory>
    ensures { IfOk result (λ t. t ≡ path.now ++ codes ".metadata") }
{
    let mut bytes = Vec::from_slice(alloc, path)?;
    bytes.extend_from_slice(b".metadata")?;
    Ok(Text::from_vec(bytes))
}
