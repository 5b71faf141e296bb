//! Whether a run is done.

ghost use Rattle.std.specs.Prelude.{◌≡◌, ◌↔◌, List, map, slice_get, IsTrue};
ghost use Rattle.vf_tree.specs.Core.{Identity};
ghost use Rattle.vf_model.specs.Calls.{has_ended};
ghost use Rattle.vf_engine.specs.States.{thread_of};
ghost use Rattle.vf_run.specs.Machines.{machine_state};
ghost use Rattle.vf_ends.specs.Settled.{OthersEnded, IsSettled};

use vf_engine::{End, Thread};
use vf_run::Machine;

/// Whether a thread was started and has ended.
fn has_ended(threads: &[Thread], thread: usize) -> bool
    ensures { (names : List Identity) → result ≡ has_ended (slice_get (map (thread_of names) threads.now) thread) }
{
    match threads.get(thread) {
        Some(
            Thread {
                frame: None,
                callers: _,
            },
        ) => true,
        _ => false,
    }
}

/// Whether each thread but main has ended.
fn others_ended(threads: &[Thread]) -> bool
    ensures { (names : List Identity) → IsTrue result ↔ OthersEnded (map (thread_of names) threads.now) }
{
    for thread in 1..threads.len() {
        if !has_ended(threads, thread) {
            return false;
        }
    }
    true
}

/// Whether main has returned and all other threads have ended.
pub fn settled(machine: &Machine) -> bool
    ensures { IsTrue result ↔ IsSettled (machine_state machine.now) }
{
    let running = machine.running();
    match running.end {
        None => false,
        Some(end) => match end {
            End::Returned(_) => others_ended(running.threads.as_slice()),
            End::Aborted | End::Fault(_, _) => false,
        },
    }
}
