// Two polls of one build side by side.
use crate::gate::Meeting;
use crate::trial::Trial;
use std::alloc::Global;
use std::sync::Wait;
use std::test::Fail;
use std::thread::Threads;

/// What a run over two items comes to, whose first poll waits at the gate until a poll of the other item is over, and which
/// polls the gate saw.
pub fn met<R: Threads + Wait + Sync>(
    rt: &R,
    alloc: Global,
    trial: &mut Trial,
    line: &str,
) -> Result<String, Fail> {
    let gate = Meeting::new();
    let text = trial.run_at(rt, alloc, line, &gate)?;
    let held = if gate.was_held() { "met" } else { "alone" };
    let (enters, leaves) = (gate.enters(), gate.leaves());
    Ok(format!(in alloc; "{text}; {held}, enters {enters:?}, leaves {leaves:?}")?)
}
