//! The threads going round.

ghost use Rattle.std.specs.Prelude.{◌≡◌, ◌<◌, ◌≤◌};
ghost use Rattle.std.specs.Option.{option_map};
ghost use Rattle.vf_run.specs.Machines.{machine_program, machine_state};
ghost use Rattle.vf_schedule.specs.rounds.Turns.{thread_at, next_stepper, new_turn, next_turn, turns_of};
ghost use Rattle.vf_schedule.specs.rounds.Taken.{IsNextTaken, IsTurnTaken, AreTurned};

use crate::rounds::event::{thread_count, try_event};
use vf_model::Event;
use vf_run::{Machine, StepFault};

/// A thread's turn, and how many events are left of it.
#[derive(Clone, Copy, Debug, PartialEq, Eq)]
struct Turn {
    thread: u32,
    left: u32,
}

/// The thread that comes so many places behind the next one after a thread.
fn thread_at(thread: u32, count: usize, places: usize) -> u32
    requires some { places < count }
    requires few { count ≤ 1024 }
    ensures { result ≡ thread_at thread count places }
{
    ((thread as usize + 1 + places) % count) as u32
}

/// Takes an event of the first thread after one that can step, and answers which it is.
fn next_thread(
    machine: &mut Machine,
    log: &mut Vec<Event>,
    thread: u32,
) -> Result<Option<u32>, StepFault>
    ensures program { machine_program machine.new ≡ machine_program machine.old }
    ensures taken { IsNextTaken (machine_program machine.old) (machine_state machine.old) log.old.items (next_stepper (machine_program machine.old) (machine_state machine.old) thread) result (machine_state machine.new) log.new.items }
{
    let count = thread_count(machine);
    for places in 0..count {
        let next = thread_at(thread, count, places);
        match try_event(machine, log, next) {
            Ok(true) => return Ok(Some(next)),
            Ok(false) => {}
            Err(fault) => return Err(fault),
        }
    }
    Ok(None)
}

/// Takes the first event of a new turn, where a thread can step, and answers what is left of it.
fn new_turn(
    machine: &mut Machine,
    log: &mut Vec<Event>,
    quantum: u32,
    thread: u32,
) -> Result<Option<Turn>, StepFault>
    requires { 1 ≤ quantum }
    ensures program { machine_program machine.new ≡ machine_program machine.old }
    ensures taken { IsTurnTaken (machine_program machine.old) (machine_state machine.old) log.old.items (option_map (new_turn quantum) (next_stepper (machine_program machine.old) (machine_state machine.old) thread)) result (machine_state machine.new) log.new.items }
{
    match next_thread(machine, log, thread) {
        Ok(None) => Ok(None),
        Ok(Some(thread)) => Ok(Some(Turn {
            thread,
            left: quantum - 1,
        })),
        Err(fault) => Err(fault),
    }
}

/// Takes the next event, where a thread can step, and answers what is left of whose turn.
fn next_turn(
    machine: &mut Machine,
    log: &mut Vec<Event>,
    quantum: u32,
    turn: Turn,
) -> Result<Option<Turn>, StepFault>
    requires { 1 ≤ quantum }
    ensures program { machine_program machine.new ≡ machine_program machine.old }
    ensures taken { IsTurnTaken (machine_program machine.old) (machine_state machine.old) log.old.items (next_turn (machine_program machine.old) quantum (machine_state machine.old) turn.thread turn.left) result (machine_state machine.new) log.new.items }
{
    if turn.left == 0 {
        return new_turn(machine, log, quantum, turn.thread);
    }
    match try_event(machine, log, turn.thread) {
        Ok(true) => Ok(Some(Turn {
            thread: turn.thread,
            left: turn.left - 1,
        })),
        Ok(false) => new_turn(machine, log, quantum, turn.thread),
        Err(fault) => Err(fault),
    }
}

/// Takes events by turns of a quantum, until so many are taken or the run is not running, and logs
/// them. After a refusal the machine and the log keep the events that were taken.
pub fn turns(
    machine: &mut Machine,
    quantum: u32,
    steps: u32,
    log: &mut Vec<Event>,
) -> Result<(), StepFault>
    requires { 1 ≤ quantum }
    ensures program { machine_program machine.new ≡ machine_program machine.old }
    ensures turned { AreTurned (machine_program machine.old) (machine_state machine.old) log.old.items (turns_of (machine_program machine.old) quantum (machine_state machine.old) steps) result (machine_state machine.new) log.new.items }
{
    let mut turn = Turn {
        thread: 0,
        left: quantum,
    };
    for _ in 0..steps {
        match next_turn(machine, log, quantum, turn) {
            Ok(Some(next)) => turn = next,
            Ok(None) => return Ok(()),
            Err(fault) => return Err(fault),
        }
    }
    Ok(())
}
