// Pages with their digests, each hashed when its digest is first wanted.
ghost use Rattle.std.specs.Prelude.{◌≡◌, IfOk, IfSome};
ghost use Rattle.std.specs.Bool.{OnTrue};
ghost use Rattle.hk_store.specs.Traits.{sha_digests};

use hk_base::{NoMemory, Shared};
use hk_chain::{Kind, Page, PageRef, PairNo};
use hk_store::page_digest;
use once_cell::race::OnceBox;
use std::alloc::Global;

/// A page and its digest.
#[derive(Drop)]
struct HashedPage {
    page: PageRef,
    digest: [u8; 32],
    ghost same: { digest ≡ sha_digests.page page },
}

impl HashedPage {
    /// Hashes a page. `NoMemory` only for want of memory. Linear.
    fn of(alloc: Global, page: &PageRef) -> Result<HashedPage, NoMemory> {
        let digest = page_digest(alloc, page.get())?;
        let page = page.try_clone()?;
        Ok(HashedPage { page, digest })
    }

    /// The digest, if this is the page. Linear, without hashing.
    fn digest_of(&self, page: &Page) -> Option<[u8; 32]>
        ensures { IfSome result (λ d. d ≡ sha_digests.page page.now) }
    {
        if is_same(self.page.get(), page) {
            Some(self.digest)
        } else {
            None
        }
    }
}

/// Whether two pages are equal. Linear.
pub(crate) fn is_same(one: &Page, other: &Page) -> bool
    ensures { OnTrue result (one.now ≡ other.now) }
{
    if !is_kind(one.kind, other.kind) {
        return false;
    }
    one.body.as_slice() == other.body.as_slice()
}

fn is_kind(one: Kind, other: Kind) -> bool
    ensures { OnTrue result (one ≡ other) }
{
    match one {
        Kind::Text => matches!(other, Kind::Text),
        Kind::Template => matches!(other, Kind::Template),
        Kind::File => matches!(other, Kind::File),
    }
}

/// The digests of the pages of a plan's pairs. Each is computed when it is first wanted and then kept, so a page that is
/// wanted again is compared and not hashed. It has several owners, and threads may share it: where two want a digest at the
/// same time, both may hash.
#[derive(Drop)]
pub struct PageDigests {
    by_pair: Shared<Vec<OnceBox<HashedPage>>>,
}

impl PageDigests {
    /// No digests yet, with a place for each of so many pairs. `NoMemory` only for want of memory. Linear in the pairs.
    pub(crate) fn new(alloc: Global, pairs: u32) -> Result<PageDigests, NoMemory> {
        let mut cells = Vec::with_capacity(alloc, pairs as usize)?;
        for _ in 0..pairs {
            cells.push(OnceBox::new(alloc))?;
        }
        let by_pair = Shared::new(alloc, cells)?;
        Ok(PageDigests { by_pair })
    }

    /// A second owner of the same digests. Constant.
    pub(crate) fn try_clone(&self) -> Result<PageDigests, NoMemory> {
        let by_pair = self.by_pair.try_clone()?;
        Ok(PageDigests { by_pair })
    }

    /// The digest of the page of a pair. `NoMemory` only for want of memory. Linear in the page, which is hashed only where
    /// this pair has no digest yet, or that of another page.
    pub(crate) fn digest(
        &self,
        alloc: Global,
        pair: PairNo,
        page: &PageRef,
    ) -> Result<[u8; 32], NoMemory>
        ensures { IfOk result (λ d. d ≡ sha_digests.page page.now) }
    {
        let Some(cell) = self.by_pair.get().get(pair.0 as usize) else {
            return page_digest(alloc, page.get());
        };
        let kept = kept_in(alloc, cell, page)?;
        match kept.digest_of(page.get()) {
            Some(digest) => Ok(digest),
            None => page_digest(alloc, page.get()),
        }
    }
}

/// What a cell keeps, which is this page with its digest where it kept nothing.
fn kept_in<'a>(
    alloc: Global,
    cell: &'a OnceBox<HashedPage>,
    page: &PageRef,
) -> Result<&'a HashedPage, NoMemory> {
    cell.get_or_try_init(move || {
        let hashed = HashedPage::of(alloc, page)?;
        Ok(Box::new(alloc, hashed)?)
    })
}
