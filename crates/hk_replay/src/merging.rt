// The facts of a record that was gone through, and those of a broken record and the inner run.
ghost use Rattle.std.specs.Prelude.{◌≡◌, map, IfOk, OnOk};
ghost use Rattle.std.specs.BTreeSet.{contains};
ghost use Rattle.std.specs.Ordering.{nat_cmp};
ghost use Rattle.hk_chain.specs.Marks.{mark_view};
ghost use Rattle.hk_replay.specs.Merging.{pattern_marks, merged, through_facts, broken_facts};
ghost use Rattle.hk_eval.specs.Noted.{noted};
ghost use Rattle.hk_replay.specs.Replays.{passed};

use crate::kept::is_kept;
use crate::record::{Record, Step};
use hk_base::NoMemory;
use hk_chain::{Facts, Mark, PatternNo};
use hk_eval::Notes;
use std::alloc::Global;
use std::collections::BTreeSet;

/// The facts of a record that was gone through.
pub(crate) fn facts_through(alloc: Global, recorded: &Record) -> Result<Facts, NoMemory>
    ensures { IfOk result (λ f. f ≡ through_facts recorded.now) }
{
    let mut notes = Notes::new(alloc);
    note_steps(alloc, &mut notes, recorded.steps.as_slice())?;
    note_patterns(&mut notes, recorded.patterns.as_slice())?;
    notes.note_save(recorded.last)?;
    notes.into_facts(alloc)
}

/// The facts of the steps up to a break, and of the inner run.
pub(crate) fn facts_broken(
    alloc: Global,
    kept: &BTreeSet<u32>,
    front: &[Step],
    facts: Facts,
) -> Result<Facts, NoMemory>
    ensures { IfOk result (λ f. f ≡ broken_facts (contains nat_cmp kept.now) front.now facts) }
{
    let mut notes = Notes::new(alloc);
    note_steps(alloc, &mut notes, front)?;
    note_trace(alloc, &mut notes, kept, facts.trace.as_slice())?;
    note_patterns(&mut notes, facts.patterns.as_slice())?;
    notes.into_facts(alloc)
}

fn note_steps(alloc: Global, notes: &mut Notes, steps: &[Step]) -> Result<(), NoMemory>
    ensures { OnOk result (notes.new ≡ noted notes.old (passed steps.now)) }
{
    for step in steps {
        match step {
            Step::Asked(pairs, _) => notes.note_group(alloc, pairs.as_slice())?,
            Step::Saved(pair, _) => notes.note_save(*pair)?,
        }
    }
    Ok(())
}

fn note_patterns(notes: &mut Notes, patterns: &[PatternNo]) -> Result<(), NoMemory>
    ensures { OnOk result (notes.new ≡ noted notes.old (pattern_marks patterns.now)) }
{
    for pattern in patterns {
        notes.note_pattern(*pattern)?;
    }
    Ok(())
}

fn note_trace(
    alloc: Global,
    notes: &mut Notes,
    kept: &BTreeSet<u32>,
    trace: &[Mark],
) -> Result<(), NoMemory>
    ensures { OnOk result (notes.new ≡ merged (contains nat_cmp kept.now) notes.old (map mark_view trace.now)) }
{
    for mark in trace {
        match mark {
            Mark::Asked(pairs) => notes.note_group(alloc, pairs.as_slice())?,
            Mark::Saved(pair) => {
                if !is_kept(kept, *pair) {
                    notes.note_save(*pair)?;
                }
            }
        }
    }
    Ok(())
}
