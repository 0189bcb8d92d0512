// The bodies of several items' pages, one after another.
ghost use Rattle.std.specs.Prelude.{◌≡◌, ◌++◌, is_some, length, map, true, IfOk};
ghost use Rattle.hk_eval.specs.Asking.{other_kind, is_text as is_text_kind};
ghost use Rattle.hk_eval.specs.Groups.{told_page};
ghost use Rattle.hk_eval.specs.Told.{told_pages, AllTold};
ghost use Rattle.hk_machine.specs.Groups.{joined_of, joining_of};

use hk_base::NoMemory;
use hk_chain::{ItemNo, PairNo};
use hk_eval::{Told, is_text};
use std::alloc::Global;

/// The pages of several items, one after another.
#[derive(Drop)]
pub(crate) enum Joined {
    Bodies(Vec<u8>),
    /// The first item whose page isn't text.
    Other(ItemNo),
}

/// The bodies of the items' pages, which are told, one after another. Linear in the bodies, and logarithmic for each page.
pub(crate) fn join(
    alloc: Global,
    told: &Told,
    items: &[ItemNo],
    pairs: &[PairNo],
) -> Result<Joined, NoMemory>
    requires same { length items.now ≡ length pairs.now }
    requires told { AllTold (told_pages told.now) pairs.now }
    ensures { IfOk result (λ j. let pages = map (told_page (told_pages told.now)) pairs.now in joining_of j ≡ joined_of pages (other_kind items.now pages)) }
{
    let mut bytes = Vec::new(alloc);
    for i in 0..pairs.len() {
        if !append(&mut bytes, told, pairs[i])? {
            return Ok(Joined::Other(items[i]));
        }
    }
    Ok(Joined::Bodies(bytes))
}

/// Appends the body of a pair's page, if that is text.
fn append(bytes: &mut Vec<u8>, told: &Told, pair: PairNo) -> Result<bool, NoMemory>
    requires { is_some (told_pages told.now pair) ≡ true }
    ensures text { IfOk result (λ b. b ≡ is_text_kind (told_page (told_pages told.now) pair).kind) }
    ensures body { IfOk result (λ b. b ≡ true → bytes.new.items ≡ bytes.old.items ++ (told_page (told_pages told.now) pair).body) }
{
    let Some(page) = told.get(pair) else {
        unreachable!()
    };
    if !is_text(page.get()) {
        return Ok(false);
    }
    bytes.extend_from_slice(page.get().body.as_slice())?;
    Ok(true)
}
