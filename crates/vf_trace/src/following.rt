//! Following a list of events.

ghost use Rattle.std.specs.Prelude.{◌≡◌, ◌<◌, ◌≤◌, List, length, slice_get, Some};
ghost use Rattle.vf_tree.specs.Core.{ProgramTree};
ghost use Rattle.vf_model.specs.State.{State};
ghost use Rattle.vf_model.specs.declared.words.Event as declared_event;
ghost use Rattle.vf_run.specs.Machines.{machine_program, machine_state};
ghost use Rattle.vf_trace.specs.Sights.{IsSeen};
ghost use Rattle.vf_trace.specs.Traces.{ComesTo, IsFound, IsTraced};

use crate::sight::{Sight, look};
use vf_base::Place;
use vf_engine::StepFault;
use vf_model::{Event, FaultKind};
use vf_run::Machine;
use vf_schedule::Schedule;

/// What a run shows. `after` is how many events were taken before it is seen.
#[derive(Clone, Copy, Debug, PartialEq, Eq)]
pub enum Finding {
    /// No state up to the last one has a fault or a race.
    Clean,
    /// The thread's next step has the fault.
    Fault {
        after: u32,
        thread: u32,
        kind: FaultKind,
        place: Place,
    },
    /// The two threads race, by steps at these places.
    Race {
        after: u32,
        first: u32,
        first_place: Place,
        second: u32,
        second_place: Place,
    },
}

/// What was seen after so many events, as a finding.
fn finding_of(after: u32, sight: Sight) -> Finding
    ensures { (p : ProgramTree) (s new : State) (events : List declared_event.Event) → ComesTo p s events after new → IsSeen p new (Some sight) → IsFound p s events new result }
{
    match sight {
        Sight::Fault {
            thread,
            kind,
            place,
        } => Finding::Fault {
            after,
            thread,
            kind,
            place,
        },
        Sight::Race {
            first,
            first_place,
            second,
            second_place,
        } => Finding::Race {
            after,
            first,
            first_place,
            second,
            second_place,
        },
    }
}

/// The event at an index.
fn event_at(events: &[Event], at: usize) -> Event
    requires { at < length events.now }
    ensures { slice_get events.now at ≡ Some result }
{
    events[at]
}

/// Follows a schedule from the machine's state, up to the first state with a fault or a race. The
/// machine keeps the events that were taken.
pub fn trace(machine: &mut Machine, schedule: &Schedule) -> Result<Finding, StepFault>
    requires { length schedule.now ≤ 4294967295 }
    ensures program { machine_program machine.new ≡ machine_program machine.old }
    ensures traced { IsTraced (machine_program machine.old) (machine_state machine.old) schedule.now (machine_state machine.new) result }
{
    let events = schedule.as_slice();
    for after in 0..events.len() {
        if let Some(sight) = look(machine) {
            return Ok(finding_of(after as u32, sight));
        }
        let event = event_at(events, after);
        match machine.step(event) {
            Ok(_) => {}
            Err(fault) => return Err(fault),
        }
    }
    match look(machine) {
        Some(sight) => Ok(finding_of(events.len() as u32, sight)),
        None => Ok(Finding::Clean),
    }
}
