// Which call a row is of.
use crate::{folders, identifiers, pages, patterns, templates};
use std::alloc::Global;
use std::test::Fail;

/// What the call of this name answers to these arguments.
pub fn answer(alloc: Global, call: &str, args: &[Vec<u8>]) -> Result<String, Fail> {
    match (call, args) {
        ("identifier", [path]) => identifiers::identifier(alloc, path, None),
        ("identifier", [path, version]) => identifiers::identifier(alloc, path, Some(version)),
        ("glob", [glob, path]) => patterns::glob(alloc, glob, path),
        ("pattern", [path]) => patterns::pattern(alloc, path, None),
        ("pattern", [path, version]) => patterns::pattern(alloc, path, Some(version)),
        ("links", [body]) => pages::linked(alloc, body),
        ("url", [target]) => pages::url(alloc, target),
        ("template", [text]) => templates::template(alloc, text),
        ("folder", [fuse]) => folders::folder(alloc, fuse),
        ("torn", [count]) => folders::torn(alloc, count),
        ("output", [_]) => folders::output(alloc),
        _ => Ok(String::from_str(alloc, "no such call")?),
    }
}
