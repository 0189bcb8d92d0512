// Runs by several workers and in rounds, whose results are those of one thread.
ghost use Rattle.std.specs.Prelude.{◌≡◌, ◌<◌, ◌≤◌, IfOk};
ghost use Rattle.hk_families.specs.Mutual.{mutual_shape};
ghost use Rattle.hk_families.specs.Sample.{sample_shape};

use hk_base::{NoMemory, Shared};
use hk_chain::{Kept, Layout};
use hk_families::{MutualMaker, SampleMaker};
use hk_fix::{Compiler, Maker, Outcome, Results};
use hk_outside::OpenGate;
use hk_workers::{run_pool, run_rounds, run_steal};
use std::alloc::Global;
use std::fmt::Write;
use std::sync::Wait;
use std::test::Fail;
use std::thread::Threads;

/// How each item ended, which pages are known, and how many events there were.
fn printed(alloc: Global, results: &Results) -> Result<String, Fail> {
    let mut text = String::new(alloc);
    for outcome in &results.outcomes {
        match outcome {
            Outcome::Done(facts) => write!(text, "done {};", facts.asks.len())?,
            Outcome::Failed(_) => text.push_str("failed;")?,
            Outcome::Waiting(pairs) => write!(text, "waiting {};", pairs.len())?,
        }
    }
    for page in &results.pages {
        text.push_str(if page.is_some() { "x" } else { "-" })?;
    }
    write!(text, " {}", results.history.len())?;
    Ok(text)
}

/// The layout of the family of mutual loads.
fn two_items(alloc: Global) -> Result<Layout, NoMemory>
    ensures { IfOk result (λ l. l ≡ mutual_shape) }
{
    Layout::of_counts(alloc, &[1, 1])
}

/// The layout of the family of groups.
fn three_items(alloc: Global) -> Result<Layout, NoMemory>
    ensures { IfOk result (λ l. l ≡ sample_shape) }
{
    Layout::of_counts(alloc, &[1, 1, 1])
}

/// By whom a run is made.
#[derive(Clone, Copy)]
enum Way {
    Pool,
    Steal,
    Rounds,
}

fn run<K: Maker + Sync, R: Threads + Wait + Sync>(
    rt: &R,
    alloc: Global,
    layout: Layout,
    maker: &K,
    way: Way,
    workers: u32,
) -> Result<Results, NoMemory>
where
    K::M: Send,
    <K::M as Compiler>::Common: Send,
    requires layout { layout ≡ K.M.shape (K.common_is maker.now) }
    requires workers { (0 < workers) × (workers ≤ 64) }
{
    let layout = Shared::new(alloc, layout)?;
    let kept = Kept::none(alloc, layout.get())?;
    match way {
        Way::Pool => run_pool(rt, alloc, layout, kept, maker, workers, &OpenGate),
        Way::Steal => run_steal(rt, alloc, layout, kept, maker, workers, &OpenGate),
        Way::Rounds => run_rounds(rt, alloc, layout, kept, maker, workers),
    }
}

fn mutual<R: Threads + Wait + Sync>(
    rt: &R,
    alloc: Global,
    early: bool,
    way: Way,
    workers: u32,
) -> Result<Results, NoMemory>
    requires { (0 < workers) × (workers ≤ 64) }
{
    let layout = two_items(alloc)?;
    let maker = MutualMaker { early };
    run(rt, alloc, layout, &maker, way, workers)
}

fn groups<R: Threads + Wait + Sync>(
    rt: &R,
    alloc: Global,
    way: Way,
    workers: u32,
) -> Result<Results, NoMemory>
    requires { (0 < workers) × (workers ≤ 64) }
{
    let layout = three_items(alloc)?;
    let maker = SampleMaker::new();
    run(rt, alloc, layout, &maker, way, workers)
}

/// What runs by so many workers print.
fn prints<R: Threads + Wait + Sync>(
    rt: &R,
    alloc: Global,
    way: Way,
    workers: u32,
) -> Result<[String; 3], Fail>
    requires { (0 < workers) × (workers ≤ 64) }
{
    let through = printed(alloc, &mutual(rt, alloc, true, way, workers)?)?;
    let stuck = printed(alloc, &mutual(rt, alloc, false, way, workers)?)?;
    let groups = printed(alloc, &groups(rt, alloc, way, workers)?)?;
    Ok([through, stuck, groups])
}

/// Whether so many runs by as many workers print what a run on one thread does.
fn agrees<R: Threads + Wait + Sync>(
    rt: &R,
    alloc: Global,
    way: Way,
    workers: u32,
    times: u32,
) -> Result<bool, Fail>
    requires { (0 < workers) × (workers ≤ 64) }
{
    for _ in 0..times {
        let [through, stuck, groups] = prints(rt, alloc, way, workers)?;
        let same = through.as_str() == "done 1;done 1;xxxx 6"
            && stuck.as_str() == "waiting 1;waiting 1;---- 2"
            && groups.as_str() == "done 2;waiting 1;failed;xxx-x- 8";
        if !same {
            return Ok(false);
        }
    }
    Ok(true)
}

#[test]
fn the_pool_gives_the_same(rt: HostRuntime) -> Result<(), Fail> {
    for workers in [1, 2, 3, 16, 64] {
        assert!(rt; agrees(&rt, rt.alloc(), Way::Pool, workers, 20)?);
    }
    Ok(())
}

#[test]
fn stealing_gives_the_same(rt: HostRuntime) -> Result<(), Fail> {
    for workers in [1, 2, 3, 16, 64] {
        assert!(rt; agrees(&rt, rt.alloc(), Way::Steal, workers, 8)?);
    }
    Ok(())
}

#[test]
fn rounds_give_the_same(rt: HostRuntime) -> Result<(), Fail> {
    for workers in [1, 2, 3, 16, 64] {
        assert!(rt; agrees(&rt, rt.alloc(), Way::Rounds, workers, 1)?);
    }
    Ok(())
}
