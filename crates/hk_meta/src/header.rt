// Headers of files, and companion files.
ghost use Rattle.std.specs.Prelude.{◌≡◌, ◌+◌, ◌-◌, ◌≤◌, length, IfOk};
ghost use Rattle.hk_base.specs.Answers.{Answers};
ghost use Rattle.hk_meta.specs.Header as spec;
ghost use Rattle.hk_meta.specs.Lines.{all_lines};
ghost use Rattle.hk_meta.specs.Reader.{finished};

use crate::Metadata;
use crate::answer::{HeaderFault, Split};
use crate::lines::cut_line;
use crate::reader::Reader;
use crate::scalar::is_blank;
use hk_base::Refusal;
use std::alloc::Global;

/// Reads the header of a file: the lines between a first line that is a fence and the next fence. A fence is `---` and
/// then blanks only. The body starts behind the second fence; a file whose first line is no fence is all body.
///
/// `Unclosed` with line 1 exactly where the first line is a fence and no later line is, and else `BadLine` with the first
/// line of the header that is neither blank, a comment, a member of an open list, nor a key. `NoMemory` only for want of
/// memory. Linear on average, since keys are hashed: each byte of the header is looked at a fixed number of times.
pub fn split(alloc: Global, file: &[u8]) -> Result<Split, Refusal<HeaderFault>>
    ensures value { Answers (spec.split file.now) result }
    ensures inside { IfOk result (λ s. s.body_start ≤ length file.now) }
{
    if !file.is_empty() {
        let first = cut_line(file);
        if is_fence(first.text) {
            return read_header(alloc, file, first.rest);
        }
    }
    Ok(Split {
        meta: Metadata::new(alloc),
        body_start: 0,
    })
}

/// Reads a companion file: each of its lines is a header line, and a fence says nothing.
///
/// `BadLine` with the first line that is neither blank, a comment, a member of an open list, a key nor a fence. `NoMemory`
/// only for want of memory. Linear on average, since keys are hashed.
pub fn read_companion(alloc: Global, file: &[u8]) -> Result<Metadata, Refusal<HeaderFault>>
    ensures { Answers (spec.read_companion file.now) result }
{
    let mut reader = Reader::new(alloc);
    let mut number = 0;
    let mut rest = file;
    while !rest.is_empty() {
        let line = cut_line(rest);
        rest = line.rest;
        number += 1;
        if !is_fence(line.text) && !reader.read(alloc, line.text)? {
            return Err(Refusal::Fault(HeaderFault::BadLine { line: number }));
        }
    }
    let meta = reader.finish()?;
    Ok(meta)
}

#[tactic(auto, unfolding(crate::specs::Header::is_fence))]
fn is_fence(text: &[u8]) -> bool
    ensures { result ≡ spec.is_fence text.now }
{
    text.len() >= 3
        && text[0] == b'-'
        && text[1] == b'-'
        && text[2] == b'-'
        && is_all_blank(&text[3..])
}

fn is_all_blank(text: &[u8]) -> bool
    ensures { result ≡ spec.is_all_blank text.now }
{
    text.iter().all(|byte| is_blank(*byte))
}

/// Reads on behind the first fence of a file.
fn read_header(alloc: Global, file: &[u8], lines: &[u8]) -> Result<Split, Refusal<HeaderFault>>
    requires { 1 + length lines.now ≤ length file.now }
    ensures value { Answers (spec.after_fence (length file.now - length lines.now) (spec.before_fence (all_lines lines.now))) result }
    ensures inside { IfOk result (λ s. s.body_start ≤ length file.now) }
{
    let mut reader = Reader::new(alloc);
    let mut refused = None;
    let mut number = 1;
    let mut rest = lines;
    while !rest.is_empty() {
        let line = cut_line(rest);
        rest = line.rest;
        number += 1;
        if is_fence(line.text) {
            return conclude(reader, refused, file.len() - rest.len());
        }
        if refused.is_none() && !reader.read(alloc, line.text)? {
            refused = Some(number);
        }
    }
    Err(Refusal::Fault(HeaderFault::Unclosed { line: 1 }))
}

fn conclude(
    reader: Reader,
    refused: Option<u64>,
    body_start: usize,
) -> Result<Split, Refusal<HeaderFault>>
    ensures value { Answers (spec.split_by body_start (finished refused reader)) result }
    ensures start { IfOk result (λ s. s.body_start ≡ body_start) }
{
    match refused {
        Some(line) => Err(Refusal::Fault(HeaderFault::BadLine { line })),
        None => {
            let meta = reader.finish()?;
            Ok(Split { meta, body_start })
        }
    }
}
