//! Runs up to the machine's limits.

use crate::programs::machine_with;
use crate::steps::{Act, MAIN, START, at, step_of, steps_of};
use std::alloc::Global;
use std::test::Fail;
use vf_base::{Memory, Sequence};
use vf_run::{Limit, Machine, StepFault};
use vf_schedule::turns;

/// The machine of a main that sets local 0, and then does the same again and again.
fn endless(alloc: Global, act: Act) -> Result<Machine, Memory> {
    let mut main = steps_of(alloc, &[Act::Set(0, 7)], 1)?;
    main.push(step_of(alloc, act, at(2), 1)?)?;
    machine_with(alloc, main, Sequence::new(alloc))
}

/// How many events are taken before the limit.
fn events_up_to(alloc: Global, machine: &mut Machine, limit: Limit) -> Option<usize> {
    let mut log = Vec::new(alloc);
    match turns(machine, 4_000_000, 2_000_000, &mut log) {
        Err(StepFault::Capacity(passed)) if passed == limit => Some(log.len()),
        _ => None,
    }
}

/// A run has 65,536 frames, 1,024 threads, 1,048,576 blocks and 4,194,304 cells at most. Each row has what main does
/// behind its first step, the limit, and the events before it; a call does the first step again.
#[test]
fn runs_stop_at_limits(rt: HostRuntime) -> Result<(), Fail> {
    for (act, limit, events) in [
        (Act::Call(MAIN, 0), Limit::Frames, 131_071),
        (Act::Start(START), Limit::Threads, 1024),
        (Act::New(0), Limit::Blocks, 1_048_577),
        (Act::Ints(0, 2_097_152), Limit::Cells, 3),
    ] {
        let mut machine = endless(rt.alloc(), act)?;
        assert_eq!(rt; events_up_to(rt.alloc(), &mut machine, limit), Some(events));
    }
    Ok(())
}
