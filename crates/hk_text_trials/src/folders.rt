// Folders and outputs in memory at work.
use crate::row::shown;
use hk_base::{NoMemory, Text};
use hk_outside::{
    CallKind, Fail as Failing, MemSink, MemTree, Sink, StillSink, StillTree, Tree, TreeFault,
};
use std::alloc::Global;
use std::test::Fail;

fn file(alloc: Global, path: &str, bytes: &str) -> Result<(Text, Text), NoMemory> {
    Ok((
        Text::from_slice(alloc, path.as_bytes())?,
        Text::from_slice(alloc, bytes.as_bytes())?,
    ))
}

/// Two files, the first named twice.
fn files(alloc: Global) -> Result<Vec<(Text, Text)>, NoMemory> {
    let files = vec![in alloc;
        file(alloc, "a.txt", "first")?,
        file(alloc, "b.txt", "b")?,
        file(alloc, "a.txt", "last")?,
    ]?;
    Ok(files)
}

/// What one list, read, write and removal in turn answer.
fn calls<T: Tree>(alloc: Global, tree: &mut T) -> Result<String, Fail> {
    let count = tree.list(alloc).map(|paths| paths.len());
    let size = tree
        .read(alloc, b"a.txt")
        .map(|bytes| bytes.map(|bytes| bytes.len()));
    let written = tree.write(alloc, b"c/d.txt", b"new");
    let removed = tree.remove(alloc, b"b.txt");
    Ok(format!(in alloc; "list {count:?}, read {size:?}, write {written:?}, remove {removed:?}")?)
}

/// What stands at a path, behind the calls so far.
fn left(alloc: Global, before: String, bytes: Option<&[u8]>) -> Result<String, Fail> {
    match bytes {
        Some(bytes) => Ok(format!(in alloc; "{before}; {}", shown(alloc, bytes)?)?),
        None => Ok(format!(in alloc; "{before}; none")?),
    }
}

/// A folder that never fails, or one where only so many calls have an answer.
pub fn folder(alloc: Global, fuse: &[u8]) -> Result<String, Fail> {
    if fuse.is_empty() {
        still(alloc)
    } else {
        fused(alloc, str::from_utf8(fuse)?.parse::<u64>()?)
    }
}

fn still(alloc: Global) -> Result<String, Fail> {
    let mut tree = StillTree::new(alloc, files(alloc)?)?;
    let mut text = calls(alloc, &mut tree)?;
    for path in [b"a.txt".as_slice(), b"b.txt", b"c/d.txt"] {
        text = left(alloc, text, tree.get(path))?;
    }
    Ok(text)
}

fn fused(alloc: Global, fuse: u64) -> Result<String, Fail> {
    let mut tree = MemTree::new(alloc, files(alloc)?, Vec::new(alloc), Some(fuse))?;
    let mut text = calls(alloc, &mut tree)?;
    for path in [b"a.txt".as_slice(), b"b.txt", b"c/d.txt"] {
        text = left(alloc, text, tree.get(path))?;
    }
    Ok(text)
}

/// A write, by a small function without a promise.
fn put<T: Tree>(alloc: Global, tree: &mut T, path: &[u8]) -> Result<(), TreeFault> {
    tree.write(alloc, path, b"abc")
}

/// Three writes of which the second fails, and leaves so many first bytes or what there was.
pub fn torn(alloc: Global, count: &[u8]) -> Result<String, Fail> {
    let torn = match count {
        [] => None,
        _ => Some(str::from_utf8(count)?.parse::<usize>()?),
    };
    let fails = vec![in alloc;
        Failing {
            call: CallKind::Write,
            number: 2,
            torn
        },
    ]?;
    let mut tree = MemTree::new(alloc, files(alloc)?, fails, None)?;
    let first = put(alloc, &mut tree, b"b.txt");
    let second = put(alloc, &mut tree, b"a.txt");
    let text = left(
        alloc,
        format!(in alloc; "{first:?}, {second:?}")?,
        tree.get(b"a.txt"),
    )?;
    let third = put(alloc, &mut tree, b"a.txt");
    Ok(format!(in alloc; "{text}; {third:?}")?)
}

/// A line, by a small function without a promise.
fn say<W: Sink>(alloc: Global, sink: &mut W, text: &str) -> Result<(), TreeFault> {
    sink.write(alloc, text.as_bytes())
}

/// What two outputs keep: one that never fails, and one whose second write does.
pub fn output(alloc: Global) -> Result<String, Fail> {
    let mut still = StillSink::new(alloc)?;
    say(alloc, &mut still, "one\n")?;
    let mut sink = MemSink::new(alloc, vec![in alloc; (2u64, 3usize), (2u64, 0usize)]?)?;
    let first = say(alloc, &mut sink, "one\n");
    let second = say(alloc, &mut sink, "two\n");
    let third = say(alloc, &mut sink, "three\n");
    let (one, all) = (
        shown(alloc, still.as_slice())?,
        shown(alloc, sink.as_slice())?,
    );
    Ok(format!(in alloc; "{one}; {first:?}, {second:?}, {third:?}; {all}")?)
}
