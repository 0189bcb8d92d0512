// A site that is written, and written again.
ghost use Rattle.std.specs.Prelude.{◌≡◌, IfOk, IsTrue};
ghost use Rattle.hk_base.specs.Bytes.{ascends, paths_of};
ghost use Rattle.hk_writer.specs.Pages.{pages_of};

use hk_base::{NoMemory, Text};
use hk_chain::{Kind, Page, PageRef};
use hk_outside::MemTree;
use hk_writer::{Counts, PageOut, write_site};
use std::alloc::Global;
use std::test::Fail;

fn page(alloc: Global, target: &[u8], body: &[u8]) -> Result<PageOut, NoMemory>
    ensures { IfOk result (λ p. p.target ≡ target.now) }
{
    let body = Text::from_slice(alloc, body)?;
    Ok(PageOut {
        target: Text::from_slice(alloc, target)?,
        page: PageRef::new(
            alloc,
            Page {
                kind: Kind::Text,
                body,
            },
        )?,
    })
}

fn pages(alloc: Global) -> Result<Vec<PageOut>, NoMemory>
    ensures { IfOk result (λ v. IsTrue (ascends (paths_of (pages_of v.items)))) }
{
    let pages = vec![in alloc;
        page(alloc, b"a.html", b"a\n")?,
        page(alloc, b"b.html", b"b\n")?,
        page(alloc, b"c/d.html", b"d\n")?,
    ]?;
    Ok(pages)
}

/// A folder with a page that is right, one that is old, and two files that are no pages.
fn folder(alloc: Global) -> Result<MemTree, NoMemory> {
    let mut files = Vec::new(alloc);
    for (path, bytes) in [
        ("a.html", "a\n"),
        ("b.html", "old\n"),
        ("c", "x"),
        ("z.html", "z\n"),
    ] {
        files.push((
            Text::from_slice(alloc, path.as_bytes())?,
            Text::from_slice(alloc, bytes.as_bytes())?,
        ))?;
    }
    MemTree::new(alloc, files, Vec::new(alloc), None)
}

#[test]
fn a_site_is_written_and_written_again(rt: HostRuntime) -> Result<(), Fail> {
    let alloc = rt.alloc();
    let mut site = folder(alloc)?;
    let pages = pages(alloc)?;
    for (written, removed) in [(2, 2), (0, 0)] {
        let Ok(counts) = write_site(alloc, &mut site, &pages) else {
            return Err(Fail::new("refused"));
        };
        assert!(rt; counts == Counts { written, removed });
        assert!(rt; site.get(b"a.html") == Some(b"a\n".as_slice()));
        assert!(rt; site.get(b"b.html") == Some(b"b\n".as_slice()));
        assert!(rt; site.get(b"c/d.html") == Some(b"d\n".as_slice()));
        assert!(rt; site.get(b"z.html").is_none());
    }
    Ok(())
}
