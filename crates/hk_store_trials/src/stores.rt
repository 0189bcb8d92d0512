// The text of a store without entries, and the digest of a page.
ghost use Rattle.std.specs.Prelude.{◌≡◌, []};

use hk_base::{NoMemory, Text};
use hk_chain::{Kind, Page};
use hk_store::{Stored, page_digest, print_store};
use std::alloc::Global;
use std::test::Fail;

fn no_entries(alloc: Global) -> Stored
    ensures { result ≡ [] }
{
    Stored {
        entries: Vec::new(alloc),
    }
}

fn nothing_printed(alloc: Global) -> Result<Text, NoMemory> {
    let stored = no_entries(alloc);
    print_store(alloc, &stored)
}

#[test]
fn a_store_without_entries(rt: HostRuntime) -> Result<(), Fail> {
    let alloc = rt.alloc();
    let text = nothing_printed(alloc)?;
    let trailer: [u8; 32] = [
        0xc2, 0x27, 0x67, 0xed, 0x6d, 0x33, 0xfa, 0xd9, 0x2c, 0x65, 0x0d, 0x8b, 0xe7, 0xf2, 0x26,
        0x85, 0xe8, 0xfe, 0x1e, 0xcb, 0x82, 0x08, 0xd4, 0xf3, 0x9c, 0xef, 0x02, 0xaf, 0x39, 0x01,
        0x28, 0x99,
    ];
    let mut wanted = Vec::from_slice(alloc, b"hkstore 2\n0\n")?;
    wanted.extend_from_slice(&trailer)?;
    assert!(rt; text.as_slice().len() == 44);
    assert!(rt; text.as_slice() == wanted.as_slice());
    Ok(())
}

#[test]
fn a_page_has_a_digest(rt: HostRuntime) -> Result<(), Fail> {
    let alloc = rt.alloc();
    let page = Page {
        kind: Kind::Text,
        body: Text::from_slice(alloc, b"hi\n")?,
    };
    let digest = page_digest(alloc, &page)?;
    assert!(rt; digest[0] == 0xbb && digest[1] == 0x4e && digest[31] == 0xb7);
    Ok(())
}
