// The metadata of items, and where their bodies start.
ghost use Rattle.std.specs.Prelude.{◌≡◌, ◌++◌, IfOk, Some};
ghost use Rattle.hk_rules.specs.Resource.{companion_ending};
ghost use Rattle.hk_base.specs.Answers.{Answers};
ghost use Rattle.hk_meta.specs.Header as header;
ghost use Rattle.hk_meta.specs.Metadata.{merge as merged_pairs};
ghost use Rattle.hk_rules.specs.Outcomes.{AnswersList, each};
ghost use Rattle.hk_rules.specs.Headers as spec;

use crate::owner::Owner;
use crate::plan_fault::PlanFault;
use crate::source_file::SourceFile;
use crate::sources::companion_path;
use hk_base::{Identifier, NoMemory, Refusal, Shared, Text};
use hk_meta::{HeaderFault, Metadata, Split, merge, read_companion, split};
use std::alloc::Global;

/// The header of each item, merged with its companion; `BadHeader` with the first that is refused. One pass over the
/// headers and companions.
#[tactic(auto, using(crate::proofs::Traversal::each_turn))]
pub(crate) fn headers_of(
    alloc: Global,
    items: &[(Identifier, Owner)],
) -> Result<Vec<Split>, Refusal<PlanFault>>
    ensures { AnswersList (each spec.header_of items.now) result }
{
    let mut headers = Vec::with_capacity(alloc, items.len())?;
    for item in items {
        let header = header_of(alloc, item)?;
        headers.push(header)?;
    }
    Ok(headers)
}

fn header_of(alloc: Global, item: &(Identifier, Owner)) -> Result<Split, Refusal<PlanFault>>
    ensures { Answers (spec.header_of item.now) result }
{
    match &item.1.source {
        Some(source) => header_in(alloc, item.0.path(), source.get()),
        None => Ok(Split {
            meta: Metadata::new(alloc),
            body_start: 0,
        }),
    }
}

fn header_in(alloc: Global, path: &[u8], source: &SourceFile) -> Result<Split, Refusal<PlanFault>>
    ensures { Answers (spec.header_in path.now (Some source.now)) result }
{
    let header = own_header(alloc, path, source.text.as_slice())?;
    with_companion(alloc, path, header, &source.companion)
}

fn own_header(alloc: Global, path: &[u8], text: &[u8]) -> Result<Split, Refusal<PlanFault>>
    ensures { Answers (spec.at_path path.now (header.split text.now)) result }
{
    match split(alloc, text) {
        Ok(header) => Ok(header),
        Err(refusal) => Err(at_path(alloc, path, refusal)),
    }
}

fn with_companion(
    alloc: Global,
    path: &[u8],
    header: Split,
    companion: &Option<Shared<Text>>,
) -> Result<Split, Refusal<PlanFault>>
    ensures { Answers (spec.with_companion path.now companion.now header) result }
{
    match companion {
        Some(text) => {
            let pairs = companion_pairs(alloc, path, text.get().as_slice())?;
            Ok(merged(alloc, header, pairs)?)
        }
        None => Ok(header),
    }
}

fn companion_pairs(alloc: Global, path: &[u8], text: &[u8]) -> Result<Metadata, Refusal<PlanFault>>
    ensures { Answers (spec.at_path (path.now ++ companion_ending) (header.read_companion text.now)) result }
{
    match read_companion(alloc, text) {
        Ok(pairs) => Ok(pairs),
        Err(refusal) => {
            let path = companion_path(alloc, path)?;
            Err(at_path(alloc, path.as_slice(), refusal))
        }
    }
}

fn merged(alloc: Global, header: Split, companion: Metadata) -> Result<Split, NoMemory>
    ensures { IfOk result (λ s. s ≡ record { meta = merged_pairs header.meta companion; body_start = header.body_start }) }
{
    let Split { meta, body_start } = header;
    let meta = merge(alloc, meta, companion)?;
    Ok(Split { meta, body_start })
}

/// The fault of the file at a path.
fn at_path(alloc: Global, path: &[u8], refusal: Refusal<HeaderFault>) -> Refusal<PlanFault>
    ensures { spec.IsAtPath path.now refusal result }
{
    match refusal {
        Refusal::NoMemory => Refusal::NoMemory,
        Refusal::Fault(fault) => match Text::from_slice(alloc, path) {
            Ok(path) => Refusal::Fault(PlanFault::BadHeader {
                path,
                line: line_of(fault),
            }),
            Err(_) => Refusal::NoMemory,
        },
    }
}

fn line_of(fault: HeaderFault) -> u64
    ensures { result ≡ spec.line_of fault }
{
    match fault {
        HeaderFault::Unclosed { line } => line,
        HeaderFault::BadLine { line } => line,
    }
}
