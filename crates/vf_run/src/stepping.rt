//! One event.

ghost use Rattle.std.specs.Prelude.{◌≡◌, true, None, Some, Ok, Err, IfOk, IsOk, OnOk, OnErr};
ghost use Rattle.vf_model.specs.Runs.{after, can_step};
ghost use Rattle.vf_core.specs.Shown.{program_of};
ghost use Rattle.vf_engine.specs.States.{state_of};
ghost use Rattle.vf_engine.specs.declared.words.Limit as declared_limit;
ghost use Rattle.vf_engine.specs.declared.words.StepFault.TheVariants as faults;
ghost use Rattle.vf_effects.specs.Becoming.{StaysAs};
ghost use Rattle.vf_run.specs.Acting.{IsKnown, InFrame, Acts, IsAnswer};
ghost use Rattle.vf_run.specs.Counts.{HasCounts, Within, first_passed};
ghost use Rattle.vf_run.specs.Making.{MakesNothing};

use crate::acting::{is_waiting, next_effect};
use crate::changes::counts_after;
use crate::counts::{Counts, passed_limit};
use vf_core::Program;
use vf_effects::apply;
use vf_engine::{Effect, End, Running, StepFault, Stepped};
use vf_model::Event;

/// Takes the step of a thread that has the effect.
fn advance(
    program: &Program,
    running: &mut Running,
    counts: Counts,
    e: Event,
    effect: Effect,
) -> Result<Counts, StepFault>
    requires going { running.old.end ≡ None }
    requires framed { InFrame running.old e.thread }
    requires acts { Acts program.now.unit.names (program_of program.now.unit) running.old e.thread (Ok effect) }
    requires known { IsKnown (program_of program.now.unit) effect }
    requires counted { HasCounts (state_of program.now.unit.names running.old) counts }
    requires within { Within counts }
    ensures after { OnOk result (state_of program.now.unit.names running.new ≡ after (program_of program.now.unit) (state_of program.now.unit.names running.old) e) }
    ensures unchanged { OnErr result (StaysAs program.now.unit.names running.old running.new) }
    ensures counted { IfOk result (λ new. HasCounts (state_of program.now.unit.names running.new) new) }
    ensures within { IfOk result (λ new. Within new) }
    ensures capacity { (limit : declared_limit.Limit) → result ≡ Err (faults.Capacity limit) → first_passed (after (program_of program.now.unit) (state_of program.now.unit.names running.old) e) ≡ Some limit }
    ensures full { (limit : declared_limit.Limit) → first_passed (after (program_of program.now.unit) (state_of program.now.unit.names running.old) e) ≡ Some limit → result ≡ Err (faults.Capacity limit) }
    ensures outright { MakesNothing (program_of program.now.unit) (state_of program.now.unit.names running.old) e → IsOk result }
{
    let new = counts_after(program, running, counts, e.grant, effect);
    match passed_limit(new) {
        Some(limit) => Err(StepFault::Capacity(limit)),
        None => {
            let alloc = *running.threads.allocator();
            match apply(alloc, program, running, e.thread, e.grant, effect) {
                Ok(()) => Ok(new),
                Err(_) => Err(StepFault::Memory),
            }
        }
    }
}

/// One event of a run that has not ended: the answer, and the counts of the new state.
fn take_step(
    program: &Program,
    running: &mut Running,
    counts: Counts,
    e: Event,
) -> Result<(Stepped, Counts), StepFault>
    requires going { running.old.end ≡ None }
    requires counted { HasCounts (state_of program.now.unit.names running.old) counts }
    requires within { Within counts }
    ensures after { OnOk result (state_of program.now.unit.names running.new ≡ after (program_of program.now.unit) (state_of program.now.unit.names running.old) e) }
    ensures unchanged { OnErr result (StaysAs program.now.unit.names running.old running.new) }
    ensures counted { IfOk result (λ new. HasCounts (state_of program.now.unit.names running.new) new.1) }
    ensures within { IfOk result (λ new. Within new.1) }
    ensures answer { IfOk result (λ new. IsAnswer (program_of program.now.unit) (state_of program.now.unit.names running.old) e.thread new.0) }
    ensures could { OnErr result (can_step (program_of program.now.unit) (state_of program.now.unit.names running.old) e.thread ≡ true) }
    ensures capacity { (limit : declared_limit.Limit) → result ≡ Err (faults.Capacity limit) → first_passed (after (program_of program.now.unit) (state_of program.now.unit.names running.old) e) ≡ Some limit }
    ensures full { (limit : declared_limit.Limit) → first_passed (after (program_of program.now.unit) (state_of program.now.unit.names running.old) e) ≡ Some limit → result ≡ Err (faults.Capacity limit) }
    ensures outright { MakesNothing (program_of program.now.unit) (state_of program.now.unit.names running.old) e → IsOk result }
{
    let found = next_effect(program, running, e.thread);
    if is_waiting(&found) {
        return Ok((Stepped::Idle, counts));
    }
    match found {
        Ok(effect) => match advance(program, running, counts, e, effect) {
            Ok(new) => Ok((Stepped::Moved, new)),
            Err(fault) => Err(fault),
        },
        Err(trouble) => {
            running.end = Some(End::Fault(trouble.kind, trouble.place));
            Ok((Stepped::Moved, counts))
        }
    }
}

/// One event: the answer, and the counts of the new state.
pub fn take_event(
    program: &Program,
    running: &mut Running,
    counts: Counts,
    e: Event,
) -> Result<(Stepped, Counts), StepFault>
    requires counted { HasCounts (state_of program.now.unit.names running.old) counts }
    requires within { Within counts }
    ensures after { OnOk result (state_of program.now.unit.names running.new ≡ after (program_of program.now.unit) (state_of program.now.unit.names running.old) e) }
    ensures unchanged { OnErr result (StaysAs program.now.unit.names running.old running.new) }
    ensures counted { IfOk result (λ new. HasCounts (state_of program.now.unit.names running.new) new.1) }
    ensures within { IfOk result (λ new. Within new.1) }
    ensures answer { IfOk result (λ new. IsAnswer (program_of program.now.unit) (state_of program.now.unit.names running.old) e.thread new.0) }
    ensures could { OnErr result (can_step (program_of program.now.unit) (state_of program.now.unit.names running.old) e.thread ≡ true) }
    ensures capacity { (limit : declared_limit.Limit) → result ≡ Err (faults.Capacity limit) → first_passed (after (program_of program.now.unit) (state_of program.now.unit.names running.old) e) ≡ Some limit }
    ensures full { (limit : declared_limit.Limit) → first_passed (after (program_of program.now.unit) (state_of program.now.unit.names running.old) e) ≡ Some limit → result ≡ Err (faults.Capacity limit) }
    ensures outright { MakesNothing (program_of program.now.unit) (state_of program.now.unit.names running.old) e → IsOk result }
{
    match running.end {
        Some(_) => Ok((Stepped::Ended, counts)),
        None => take_step(program, running, counts, e),
    }
}
