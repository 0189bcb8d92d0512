// The writing of the site folder.
ghost use Rattle.std.specs.Prelude.{◌≡◌, ◌≤◌, IfSome, IfOk, IsTrue, not, option_map, [], ◌∷◌, length};
ghost use Rattle.std.specs.Ordering.{nat_cmp};
ghost use Rattle.std.specs.Cmp.Lexicographic.{slice_cmp};
ghost use Rattle.std.specs.BTreeSet.{IsFromIterResult};
ghost use Rattle.std.specs.FinMap.{get};
ghost use Rattle.hk_base.specs.Bytes.{ascends, paths_of};
ghost use Rattle.hk_outside.specs.Causes.{HasCause};
ghost use Rattle.hk_writer.specs.Pages.{page_of, pages_of};
ghost use Rattle.hk_writer.specs.Writing as spec;
ghost use Rattle.hk_writer.specs.Writing.{Makes, removals, writings, changes};
ghost use Rattle.hk_writer.specs.Written.{IsWritten};

use crate::PageOut;
use hk_base::Text;
use hk_outside::{Tree, TreeFault};
use std::alloc::{AllocError, Global};
use std::collections::BTreeSet;

/// How many files the writing of a site wrote and removed.
#[derive(Clone, Copy, Debug, PartialEq, Eq, Drop)]
pub struct Counts {
    pub written: u64,
    pub removed: u64,
}

/// Leaves exactly the pages in the folder: lists it, removes every other path in path order, then reads each target in
/// order and writes it where it is absent or differs. The targets have to ascend.
///
/// `Failed` only where the folder's count of faults rose. `NoMemory` is want of memory. After a refusal the finished
/// removals and writes stand, and the path of the call that failed is as the folder says of such a call.
///
/// One list, one read and at most one write a page, a logarithmic look-up for each listed path, and n log n comparisons
/// of the listed paths. A page is written from where its body stands, with no copy.
pub fn write_site<T: Tree>(
    alloc: Global,
    site: &mut T,
    pages: &[PageOut],
) -> Result<Counts, TreeFault>
    requires { IsTrue (ascends (paths_of (pages_of pages.now))) }
    ensures makes { Makes (changes (pages_of pages.now)) (T.files site.old) (T.files site.new) result }
    ensures done { IfSome (T.files site.old) (λ m. IfOk result (IsWritten (pages_of pages.now) m (T.files site.new))) }
    ensures cause { HasCause (T.faults site.old) (T.faults site.new) result }
{
    let listed = site.list(alloc)?;
    let paths = in_order(alloc, listed)?;
    let removed = remove_others(alloc, site, &paths, pages)?;
    let written = write_pages(alloc, site, pages)?;
    Ok(Counts { written, removed })
}

fn in_order(alloc: Global, paths: Vec<Text>) -> Result<BTreeSet<Text>, AllocError>
    ensures { IfOk result (IsFromIterResult (slice_cmp nat_cmp) paths.items) }
{
    paths.into_iter().collect(alloc)
}

fn remove_others<T: Tree>(
    alloc: Global,
    site: &mut T,
    paths: &BTreeSet<Text>,
    pages: &[PageOut],
) -> Result<u64, TreeFault>
    requires { IsTrue (ascends (paths_of (pages_of pages.now))) }
    ensures makes { Makes (λ m. removals (pages_of pages.now) paths.now.keys) (T.files site.old) (T.files site.new) result }
    ensures counted { IfOk result (λ n. n ≡ length (removals (pages_of pages.now) paths.now.keys)) }
    ensures cause { HasCause (T.faults site.old) (T.faults site.new) result }
{
    let mut removed = 0;
    for path in paths.iter() {
        if remove_other(alloc, site, pages, path.as_slice())? {
            removed += 1;
        }
    }
    Ok(removed)
}

/// Removes a path that is no page, and says whether it did.
fn remove_other<T: Tree>(
    alloc: Global,
    site: &mut T,
    pages: &[PageOut],
    path: &[u8],
) -> Result<bool, TreeFault>
    requires { IsTrue (ascends (paths_of (pages_of pages.now))) }
    ensures makes { Makes (λ m. removals (pages_of pages.now) (path.now ∷ [])) (T.files site.old) (T.files site.new) result }
    ensures counted { IfOk result (λ b. b ≡ not (spec.is_page (pages_of pages.now) path.now)) }
    ensures cause { HasCause (T.faults site.old) (T.faults site.new) result }
{
    if is_page(pages, path) {
        return Ok(false);
    }
    site.remove(alloc, path)?;
    Ok(true)
}

fn is_page(pages: &[PageOut], path: &[u8]) -> bool
    requires { IsTrue (ascends (paths_of (pages_of pages.now))) }
    ensures { result ≡ spec.is_page (pages_of pages.now) path.now }
{
    pages
        .binary_search_by(|page| page.target.as_slice().cmp(path))
        .is_ok()
}

fn write_pages<T: Tree>(alloc: Global, site: &mut T, pages: &[PageOut]) -> Result<u64, TreeFault>
    requires { IsTrue (ascends (paths_of (pages_of pages.now))) }
    ensures makes { Makes (writings (pages_of pages.now)) (T.files site.old) (T.files site.new) result }
    ensures counted { IfSome (T.files site.old) (λ m. IfOk result (λ n. n ≡ length (writings (pages_of pages.now) m))) }
    ensures cause { HasCause (T.faults site.old) (T.faults site.new) result }
{
    let mut written = 0;
    for page in pages {
        if write_page(alloc, site, page)? {
            written += 1;
        }
    }
    Ok(written)
}

/// Writes a page where it is absent or differs, and says whether it did.
fn write_page<T: Tree>(alloc: Global, site: &mut T, page: &PageOut) -> Result<bool, TreeFault>
    ensures makes { Makes (writings (page_of page.now ∷ [])) (T.files site.old) (T.files site.new) result }
    ensures counted { IfSome (T.files site.old) (λ m. IfOk result (λ b. b ≡ not (spec.holds (get m page.now.target) page.now.page.body))) }
    ensures cause { HasCause (T.faults site.old) (T.faults site.new) result }
{
    let path = page.target.as_slice();
    let body = page.page.get().body.as_slice();
    if holds(site.read(alloc, path)?, body) {
        return Ok(false);
    }
    site.write(alloc, path, body)?;
    Ok(true)
}

fn holds(found: Option<Vec<u8>>, bytes: &[u8]) -> bool
    ensures { result ≡ spec.holds (option_map (λ v. v.items) found) bytes.now }
{
    match found {
        Some(found) => found.as_slice() == bytes,
        None => false,
    }
}
