// A compiler that is polled by hand.
ghost use Rattle.std.specs.Prelude.{◌≡◌, ◌<◌};

use crate::texts::page;
use hk_base::NoMemory;
use hk_chain::{ItemNo, PageRef};
use hk_families::SampleMaker;
use hk_fix::{Compiler, Maker, Polled};
use std::alloc::Global;
use std::test::Fail;

/// How a compiler ended: how many pages it saved on its way, and how many pairs it asked for or waits for.
#[derive(Debug, Drop)]
enum Way {
    Done { saved: u32, asked: usize },
    Failed { saved: u32 },
    Waiting { saved: u32, open: usize },
}

/// Polls a compiler to its end, and answers each open pair, or none.
fn gone<K: Maker>(
    alloc: Global,
    maker: &K,
    item: ItemNo,
    page: &PageRef,
    answers: usize,
) -> Result<Option<Way>, NoMemory>
    requires { item < (K.M.shape (K.common_is maker.now)).items }
{
    let mut compiler = maker.make(alloc, item)?;
    let mut saved = 0;
    for _ in 0..10 {
        match compiler.poll(alloc)? {
            Polled::Saved(_, _) => saved = 1,
            Polled::Ask => answer_some(&mut compiler, page, answers)?,
            Polled::Done(_, facts) => {
                return Ok(Some(Way::Done {
                    saved,
                    asked: facts.asks.len(),
                }));
            }
            Polled::Failed(_) => return Ok(Some(Way::Failed { saved })),
        }
        if !compiler.open_pairs().is_empty() {
            return Ok(Some(Way::Waiting {
                saved,
                open: compiler.into_open().len(),
            }));
        }
    }
    Ok(None)
}

fn answer_some<M: Compiler>(
    compiler: &mut M,
    page: &PageRef,
    answers: usize,
) -> Result<(), NoMemory>
    ensures { (M.meaning compiler.new).has_ended ≡ (M.meaning compiler.old).has_ended }
{
    for _ in 0..answers {
        if compiler.open_pairs().is_empty() {
            return Ok(());
        }
        let pair = compiler.open_pairs()[0];
        compiler.answer(pair, page.try_clone()?);
    }
    Ok(())
}

/// The ways of three compilers: one that is told both pages that it wants, one that is told one, and one that fails.
pub fn ways(alloc: Global) -> Result<String, Fail> {
    let maker = SampleMaker::new();
    let page = page(alloc)?;
    let first = gone(alloc, &maker, ItemNo(0), &page, 2)?;
    let second = gone(alloc, &maker, ItemNo(1), &page, 1)?;
    let third = gone(alloc, &maker, ItemNo(2), &page, 2)?;
    Ok(format!(in alloc; "{first:?} {second:?} {third:?}")?)
}
