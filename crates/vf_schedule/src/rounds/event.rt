//! One event of a thread, logged.

ghost use Rattle.std.specs.Prelude.{◌≡◌, ◌∷◌, [], ◌++◌, cond, true, None, Some, Err, length, IfOk, OnOk, OnErr};
ghost use Rattle.vf_model.specs.Runs.{after, can_step};
ghost use Rattle.vf_engine.specs.declared.words.Limit as declared_limit;
ghost use Rattle.vf_engine.specs.declared.words.StepFault.TheVariants as refusals;
ghost use Rattle.vf_run.specs.Counts.{first_passed};
ghost use Rattle.vf_run.specs.Machines.{machine_program, machine_state};
ghost use Rattle.vf_schedule.specs.rounds.Turns.{event_of};

use vf_model::Event;
use vf_run::{Machine, StepFault, Stepped};

/// How many threads have been started.
pub fn thread_count(machine: &Machine) -> usize
    ensures { result ≡ length (machine_state machine.now).threads }
{
    machine.running().threads.len()
}

/// Puts an event at the end of a log.
fn record(log: &mut Vec<Event>, event: Event) -> Result<(), StepFault>
    ensures logged { OnOk result (log.new.items ≡ log.old.items ++ event ∷ []) }
    ensures unchanged { OnErr result (log.new.items ≡ log.old.items) }
    ensures memory { (limit : declared_limit.Limit) → result ≡ Err (refusals.Capacity limit) → ⊥ }
{
    match log.push(event) {
        Ok(()) => Ok(()),
        Err(_) => Err(StepFault::Memory),
    }
}

/// Takes an event of a thread and logs it, where the thread can step; answers whether it can.
pub fn try_event(
    machine: &mut Machine,
    log: &mut Vec<Event>,
    thread: u32,
) -> Result<bool, StepFault>
    ensures program { machine_program machine.new ≡ machine_program machine.old }
    ensures could { IfOk result (λ took. took ≡ can_step (machine_program machine.old) (machine_state machine.old) thread) }
    ensures after { OnOk result (machine_state machine.new ≡ after (machine_program machine.old) (machine_state machine.old) (event_of thread)) }
    ensures logged { IfOk result (λ took. log.new.items ≡ cond took (log.old.items ++ event_of thread ∷ []) log.old.items) }
    ensures fits { OnOk result (first_passed (after (machine_program machine.old) (machine_state machine.old) (event_of thread)) ≡ None) }
    ensures unchanged { OnErr result (machine_state machine.new ≡ machine_state machine.old) }
    ensures unlogged { OnErr result (log.new.items ≡ log.old.items) }
    ensures capacity { (limit : declared_limit.Limit) → result ≡ Err (refusals.Capacity limit) → first_passed (after (machine_program machine.old) (machine_state machine.old) (event_of thread)) ≡ Some limit }
    ensures could_not { (limit : declared_limit.Limit) → result ≡ Err (refusals.Capacity limit) → can_step (machine_program machine.old) (machine_state machine.old) thread ≡ true }
{
    let event = Event { thread, grant: 1 };
    record(log, event)?;
    match machine.step(event) {
        Ok(Stepped::Moved) => Ok(true),
        Ok(_) => {
            let _untaken = log.pop();
            Ok(false)
        }
        Err(fault) => {
            let _untaken = log.pop();
            Err(fault)
        }
    }
}
