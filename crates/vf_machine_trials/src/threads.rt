//! Threads that take turns.

use crate::programs::machine;
use crate::steps::{Act, START};
use std::test::Fail;
use vf_model::Outcome;
use vf_schedule::turns;

/// Each of two threads does two things after main has started the other. Each row has a quantum, and the threads of the
/// events.
#[test]
fn threads_take_turns(rt: HostRuntime) -> Result<(), Fail> {
    let main = [
        Act::Set(0, 7),
        Act::Start(START),
        Act::Set(1, 7),
        Act::Return(7),
    ];
    let other = [Act::Set(1, 7), Act::Leave];
    for (quantum, threads) in [
        (1, [0, 0, 1, 0, 1, 0].as_slice()),
        (2, [0, 0, 1, 1, 0, 0].as_slice()),
        (9, [0, 0, 0, 0].as_slice()),
    ] {
        let mut machine = machine(rt.alloc(), &main, &other)?;
        let mut log = Vec::new(rt.alloc());
        assert!(rt; turns(&mut machine, quantum, 9, &mut log).is_ok());
        assert_eq!(rt; log.len(), threads.len());
        for (event, thread) in log.iter().zip(threads) {
            assert_eq!(rt; event.thread, *thread);
        }
        assert_eq!(rt; machine.outcome(), Outcome::Returned(7));
    }
    Ok(())
}
