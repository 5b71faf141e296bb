//! What is seen first in a state.

ghost use Rattle.vf_run.specs.Machines.{machine_program, machine_state};
ghost use Rattle.vf_trace.specs.Sights.{IsSeen};

use crate::faults::first_fault;
use crate::races::first_race;
use vf_base::Place;
use vf_model::FaultKind;
use vf_run::Machine;

/// What is wrong in a state.
#[derive(Clone, Copy, Debug, PartialEq, Eq)]
pub enum Sight {
    /// The thread's next step has the fault.
    Fault {
        thread: u32,
        kind: FaultKind,
        place: Place,
    },
    /// The two threads race, by steps at these places.
    Race {
        first: u32,
        first_place: Place,
        second: u32,
        second_place: Place,
    },
}

/// The fault of the least thread that has one, else the race of the least pair of threads that race.
pub fn look(machine: &Machine) -> Option<Sight>
    ensures { IsSeen (machine_program machine.now) (machine_state machine.now) result }
{
    if let Some(fault) = first_fault(machine) {
        return Some(Sight::Fault {
            thread: fault.thread,
            kind: fault.kind,
            place: fault.place,
        });
    }
    match first_race(machine) {
        None => None,
        Some(race) => Some(Sight::Race {
            first: race.first,
            first_place: race.first_place,
            second: race.second,
            second_place: race.second_place,
        }),
    }
}
