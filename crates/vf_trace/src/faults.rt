//! The first fault of a state.

ghost use Rattle.std.specs.Prelude.{◌≡◌, length, IfSome, IfNone};
ghost use Rattle.vf_run.specs.Machines.{machine_program, machine_state};
ghost use Rattle.vf_trace.specs.Sights.{IsFaultless, IsFirstFault};

use vf_base::Place;
use vf_looks::next_fault;
use vf_model::FaultKind;
use vf_run::Machine;

/// A fault of a thread's next step.
#[derive(Clone, Copy, Debug, PartialEq, Eq)]
pub struct ThreadFault {
    pub thread: u32,
    pub kind: FaultKind,
    pub place: Place,
}

/// How many threads have been started.
pub fn thread_count(machine: &Machine) -> u32
    ensures { result ≡ length (machine_state machine.now).threads }
{
    machine.running().threads.len() as u32
}

/// The fault of the least thread whose next step has one.
pub fn first_fault(machine: &Machine) -> Option<ThreadFault>
    ensures first { IfSome result (λ f. IsFirstFault (machine_program machine.now) (machine_state machine.now) f.thread f.kind f.place) }
    ensures none { IfNone result (IsFaultless (machine_program machine.now) (machine_state machine.now)) }
{
    for thread in 0..thread_count(machine) {
        if let Some(trouble) = next_fault(machine, thread) {
            return Some(ThreadFault {
                thread,
                kind: trouble.kind,
                place: trouble.place,
            });
        }
    }
    None
}
