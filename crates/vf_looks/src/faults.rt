//! Faults of next steps.

ghost use Rattle.std.specs.Prelude.{◌≡◌, Some, IfSome};
ghost use Rattle.vf_base.specs.declared.place.Place as declared_place;
ghost use Rattle.vf_model.specs.declared.words.FaultKind as declared_kind;
ghost use Rattle.vf_model.specs.Runs.{Fault};
ghost use Rattle.vf_core.specs.Shown.{program_of};
ghost use Rattle.vf_engine.specs.States.{state_of};
ghost use Rattle.vf_run.specs.Machines.{machine_program, machine_state};

use vf_core::Program;
use vf_engine::{Running, Trouble};
use vf_run::{Machine, next_effect};

/// The fault of the next step of a thread, where that can step and has one.
fn fault_of(program: &Program, running: &Running, thread: u32) -> Option<Trouble>
    ensures found { IfSome result (λ f. Fault (program_of program.now.unit) (state_of program.now.unit.names running.now) thread f.kind f.place) }
    ensures complete { (kind : declared_kind.FaultKind) (place : declared_place.Place) → Fault (program_of program.now.unit) (state_of program.now.unit.names running.now) thread kind place → result ≡ Some (record { kind = kind; place = place }) }
{
    match running.end {
        Some(_) => None,
        None => match next_effect(program, running, thread) {
            Ok(_) => None,
            Err(trouble) => Some(trouble),
        },
    }
}

/// The fault of the next step of a thread, where that can step and has one.
pub fn next_fault(machine: &Machine, thread: u32) -> Option<Trouble>
    ensures found { IfSome result (λ f. Fault (machine_program machine.now) (machine_state machine.now) thread f.kind f.place) }
    ensures complete { (kind : declared_kind.FaultKind) (place : declared_place.Place) → Fault (machine_program machine.now) (machine_state machine.now) thread kind place → result ≡ Some (record { kind = kind; place = place }) }
{
    fault_of(machine.program(), machine.running(), thread)
}
