// A text with its root URLs made relative, and the URLs in it.
ghost use Rattle.std.specs.Prelude.{◌≡◌, false, ◌++◌, map, IfOk, OnOk};
ghost use Rattle.std.specs.List.{flat_map, list_any};
ghost use Rattle.hk_html.specs.Part as part;
ghost use Rattle.hk_html.specs.Piece.{piece_text, pieces};
ghost use Rattle.hk_html.specs.Relative.{links_of, with_roots};
ghost use Rattle.hk_html.specs.Root as spec;
ghost use Rattle.hk_html.specs.Scan.{links_with_root};

use crate::found::read_links;
use crate::place::rest_of;
use crate::root::root_of;
use crate::scan::Link;
use hk_base::{NoMemory, Text};
use std::alloc::Global;

/// The HTML text of a page with this target, in which the way up to the site's root stands before each URL that begins
/// with `/` and not with `//`, in the attributes `href` and `src` of finished tags. All other bytes stay; comments, raw
/// text and a tag without an end are copied. `NoMemory` only for want of memory. Linear in what it reads and gives.
pub fn relativize(alloc: Global, body: &[u8], target: &[u8]) -> Result<Text, NoMemory>
    ensures value { IfOk result (λ text. text ≡ with_roots (spec.root_of target.now) body.now) }

    // The text read is its pieces, joined; the text given has the same links, with the root before root URLs.
    ensures joined { OnOk result (flat_map piece_text (pieces body.now) ≡ body.now) }
    ensures links { IfOk result (λ text.
        links_of text ≡ map (part.with_root (spec.root_of target.now)) (links_of body.now)) }
    ensures unchanged { IfOk result (λ text.
        list_any part.is_rooted (links_of body.now) ≡ false → text ≡ body.now) }
{
    let root = root_of(alloc, target)?;
    let scan = read_links(alloc, body)?;
    let room = rooted_count(&scan.links).saturating_mul(root.len());
    let mut text = Vec::with_capacity(alloc, body.len().saturating_add(room))?;
    push_links(&mut text, &root, &scan.links)?;
    text.extend_from_slice(rest_of(body, scan.from))?;
    Ok(Text::from_vec(text))
}

/// The values of `href` and `src` in the finished tags of an HTML text, in order. `NoMemory` only for want of memory.
/// Linear.
pub fn links(alloc: Global, body: &[u8]) -> Result<Vec<Text>, NoMemory>
    ensures { IfOk result (λ found. found.items ≡ links_of body.now) }
{
    let scan = read_links(alloc, body)?;
    let mut found = Vec::with_capacity(alloc, scan.links.len())?;
    for link in &scan.links {
        found.push(Text::from_slice(alloc, link.value)?)?;
    }
    Ok(found)
}

fn push_links(text: &mut Vec<u8>, root: &[u8], links: &[Link<'_>]) -> Result<(), NoMemory>
    ensures { OnOk result (text.new.items ≡ text.old.items ++ links_with_root root.now links.now) }
{
    for link in links {
        push_link(text, root, link.before, link.value)?;
    }
    Ok(())
}

fn push_link(text: &mut Vec<u8>, root: &[u8], before: &[u8], url: &[u8]) -> Result<(), NoMemory>
    ensures { OnOk result (text.new.items
        ≡ text.old.items ++ (before.now ++ part.with_root root.now url.now)) }
{
    text.extend_from_slice(before)?;
    if is_rooted(url) {
        text.extend_from_slice(root)?;
    }
    text.extend_from_slice(url)?;
    Ok(())
}

fn is_rooted(url: &[u8]) -> bool
    ensures { result ≡ part.is_rooted url.now }
{
    url.starts_with(b"/") && !url.starts_with(b"//")
}

fn rooted_count(links: &[Link<'_>]) -> usize {
    links.iter().filter(|link| is_rooted(link.value)).count()
}
