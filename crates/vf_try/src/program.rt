//! The run of a program, and the search in it.

ghost use Rattle.std.specs.Prelude.{◌≡◌, ◌≤◌, ◌++◌, [], List, ℕ, length, IfOk, OnOk, Err};
ghost use Rattle.vf_core.specs.Shown.{program_of};
ghost use Rattle.vf_engine.specs.declared.words.Limit as declared_limit;
ghost use Rattle.vf_engine.specs.declared.words.StepFault.TheVariants as faults;
ghost use Rattle.vf_run.specs.Machines.{machine_program, machine_state};
ghost use Rattle.vf_try.specs.Answers.{path_by};
ghost use Rattle.vf_try.specs.Runs.{Follows, IsFull, ProgramPrints, RunPrints, TracePrints, status_of_finding, status_of_outcome};

use crate::purpose::Purpose;
use std::alloc::Global;
use vf_base::{Memory, Text};
use vf_core::Program;
use vf_model::{Event, Outcome};
use vf_report::{Status, push_capacity, push_finding, push_outcome, push_output};
use vf_run::{Machine, StepFault};
use vf_schedule::Schedule;
use vf_snapshot::Snapshot;
use vf_trace::{Finding, trace};

/// Follows a schedule to its end, or up to a step that is not taken.
fn follow(machine: &mut Machine, events: &[Event]) -> Result<(), StepFault>
    ensures program { machine_program machine.new ≡ machine_program machine.old }
    ensures done { OnOk result (Follows (machine_program machine.old) (machine_state machine.old) events.now (length events.now) (machine_state machine.new)) }
    ensures full { (limit : declared_limit.Limit) → result ≡ Err (faults.Capacity limit) → IsFull (machine_program machine.old) (machine_state machine.old) events.now (machine_state machine.new) limit }
{
    for at in 0..events.len() {
        match machine.step(events[at]) {
            Ok(_) => {}
            Err(fault) => return Err(fault),
        }
    }
    Ok(())
}

/// The status of a run by its outcome.
fn status_of_outcome(outcome: Outcome) -> Status
    ensures { result ≡ status_of_outcome outcome }
{
    match outcome {
        Outcome::Fault(_, _) => Status::RunFault,
        _ => Status::Done,
    }
}

/// The status of a trace by what it found.
fn status_of_finding(finding: Finding) -> Status
    ensures { result ≡ status_of_finding finding }
{
    match finding {
        Finding::Clean => Status::Done,
        _ => Status::RunFault,
    }
}

/// Runs a program under a schedule, and prints what it wrote and how the run stands.
fn push_run(
    alloc: Global,
    text: &mut Text,
    snapshot: &Snapshot,
    program: Program,
    events: &[Event],
) -> Result<Status, Memory>
    ensures { IfOk result (λ s. (shown : List ℕ) × (text.new ≡ text.old ++ shown) × RunPrints (path_by snapshot.now) (program_of program.unit) events.now s shown) }
{
    let mut machine = Machine::start(alloc, program)?;
    match follow(&mut machine, events) {
        Ok(()) => {
            push_output(text, machine.output())?;
            let outcome = machine.outcome();
            push_outcome(alloc, text, snapshot, "", outcome)?;
            Ok(status_of_outcome(outcome))
        }
        Err(StepFault::Capacity(limit)) => {
            push_output(text, machine.output())?;
            push_capacity(text, limit)?;
            Ok(Status::Capacity)
        }
        Err(StepFault::Memory) => Err(Memory),
    }
}

/// Searches a program's run under a schedule for its first fault or race, and prints what was found.
fn push_trace(
    alloc: Global,
    text: &mut Text,
    snapshot: &Snapshot,
    program: Program,
    schedule: &Schedule,
) -> Result<Status, Memory>
    requires few { length schedule.now ≤ 1000000 }
    ensures { IfOk result (λ s. (shown : List ℕ) × (text.new ≡ text.old ++ shown) × TracePrints (path_by snapshot.now) (program_of program.unit) schedule.now s shown) }
{
    let mut machine = Machine::start(alloc, program)?;
    match trace(&mut machine, schedule) {
        Ok(finding) => {
            push_finding(alloc, text, snapshot, "", finding)?;
            Ok(status_of_finding(finding))
        }
        Err(StepFault::Capacity(limit)) => {
            push_capacity(text, limit)?;
            Ok(Status::Capacity)
        }
        Err(StepFault::Memory) => Err(Memory),
    }
}

/// Prints what is wanted of a program's run under a schedule.
pub fn push_program(
    alloc: Global,
    text: &mut Text,
    snapshot: &Snapshot,
    purpose: Purpose,
    program: Program,
    schedule: &Schedule,
) -> Result<Status, Memory>
    requires few { length schedule.now ≤ 1000000 }
    ensures { IfOk result (λ s. (shown : List ℕ) × (text.new ≡ text.old ++ shown) × ProgramPrints purpose (path_by snapshot.now) (program_of program.unit) schedule.now s shown) }
{
    match purpose {
        Purpose::Run => push_run(alloc, text, snapshot, program, schedule.as_slice()),
        Purpose::Trace => push_trace(alloc, text, snapshot, program, schedule),
    }
}
