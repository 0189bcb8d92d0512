// Folders and writers of the system at work, in the empty folder in which a test starts.
use crate::os_tree::OsTree;
use crate::std_sink::StdSink;
use hk_outside::{Sink, Tree, TreeFault};
use std::fs;
use std::test::Fail;

#[test]
fn a_folder_is_a_tree(rt: HostRuntime) -> Result<(), Fail> {
    let alloc = rt.alloc();
    let mut tree = OsTree::new(&rt, String::from_str(alloc, "site")?);
    assert!(rt; tree.list(alloc)?.is_empty());
    assert!(rt; tree.read(alloc, b"a/b/c.txt")?.is_none());
    tree.write(alloc, b"a/b/c.txt", b"long text")?;
    tree.write(alloc, b"a/b/c.txt", b"text")?;
    tree.write(alloc, b"a/d.txt", b"")?;
    fs::create_dir(&rt, "site/empty")?;
    assert_eq!(rt; tree.list(alloc)?.len(), 2);
    let read = tree.read(alloc, b"a/b/c.txt")?;
    assert!(rt; read.is_some_and(|bytes| bytes.as_slice() == b"text".as_slice()));
    assert!(rt; tree.read(alloc, b"a/d.txt/e")?.is_none());
    tree.remove(alloc, b"a/b/c.txt")?;
    assert!(rt; fs::metadata(&rt, "site/a/b").is_err());
    tree.remove(alloc, b"a/d.txt")?;
    assert!(rt; fs::metadata(&rt, "site/a").is_err());
    assert!(rt; fs::metadata(&rt, "site").is_ok());
    assert!(rt; tree.list(alloc)?.is_empty());
    assert!(rt; tree.write(alloc, b"empty", b"text") == Err(TreeFault::Failed));
    assert!(rt; tree.write(alloc, b"\xff", b"text") == Err(TreeFault::Failed));
    Ok(())
}

#[test]
fn a_writer_is_a_sink(rt: HostRuntime) -> Result<(), Fail> {
    let alloc = rt.alloc();
    let mut sink = StdSink::new(fs::create(&rt, "out.txt")?);
    sink.write(alloc, b"one\n")?;
    sink.write(alloc, b"two\n")?;
    assert!(rt; fs::read(&rt, "out.txt")?.as_slice() == b"one\ntwo\n".as_slice());
    let mut full = StdSink::new(fs::create(&rt, "/dev/full")?);
    assert!(rt; full.write(alloc, b"one\n") == Err(TreeFault::Failed));
    Ok(())
}
