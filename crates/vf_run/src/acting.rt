//! Which effect a thread's next step has.

ghost use Rattle.std.specs.Prelude.{◌≡◌, ◌≤◌, ◌↔◌, List, IsTrue, IsFalse, None, Ok, length};
ghost use Rattle.std.specs.Option.{option_copied};
ghost use Rattle.vf_tree.specs.Core.{Identity};
ghost use Rattle.vf_model.specs.State.{Turn};
ghost use Rattle.vf_model.specs.Acts.{Waits};
ghost use Rattle.vf_model.specs.Steps.{next_act};
ghost use Rattle.vf_model.specs.Runs.{can_step, some_can_step};
ghost use Rattle.vf_core.specs.Shown.{program_of};
ghost use Rattle.vf_engine.specs.States.{state_of};
ghost use Rattle.vf_engine.specs.Effects.{act_of_effect, act_of_result};
ghost use Rattle.vf_engine.specs.declared.effect.Effect.TheVariants as effects;
ghost use Rattle.vf_run.specs.Acting.{IsKnown, Acts, FramedOrWaits, KnownOrFault, top_frame};

use vf_core::Program;
use vf_engine::{Effect, Frame, Running, Trouble, effect_in};

/// Whether the program has the functions that an effect goes on in.
fn is_known(program: &Program, effect: &Effect) -> bool
    ensures known { IsTrue result → IsKnown (program_of program.now.unit) effect.now }
    ensures unknown { IsFalse result → (names : List Identity) (turn : Turn) → act_of_effect names (program_of program.now.unit) turn effect.now ≡ Waits }
{
    let functions = &program.unit.functions;
    match effect {
        Effect::Enter {
            function,
            target: _,
            arguments: _,
            next: _,
        } => functions.get(*function).is_some(),
        Effect::Start {
            run,
            argument: _,
            next: _,
        } => functions.get(*run).is_some(),
        Effect::StartJoinable {
            run,
            argument: _,
            target: _,
            next: _,
        } => functions.get(*run).is_some(),
        _ => true,
    }
}

/// The effect, or waiting where it goes on in a function that the program does not have.
fn known<'a>(
    program: &'a Program,
    found: Result<Effect<'a>, Trouble>,
) -> Result<Effect<'a>, Trouble>
    ensures known { KnownOrFault (program_of program.now.unit) result }
    ensures same { (names : List Identity) (turn : Turn) → act_of_result names (program_of program.now.unit) turn found.entry ≡ act_of_result names (program_of program.now.unit) turn result }
{
    let effect = found?;
    if is_known(program, &effect) {
        Ok(effect)
    } else {
        Ok(Effect::Wait)
    }
}

/// The innermost frame of a thread that has one.
fn top_of(running: &Running, thread: u32) -> Option<&Frame>
    ensures { option_copied result ≡ top_frame running.now thread }
{
    match running.threads.get(thread as usize) {
        Some(of) => of.frame.as_ref(),
        None => None,
    }
}

/// What the next step of a thread does; a thread without a frame waits.
pub fn next_effect<'a>(
    program: &'a Program,
    running: &Running,
    thread: u32,
) -> Result<Effect<'a>, Trouble>
    ensures acts { Acts program.now.unit.names (program_of program.now.unit) running.now thread result }
    ensures framed { FramedOrWaits running.now thread result }
    ensures known { KnownOrFault (program_of program.now.unit) result }
    ensures waits { result ≡ Ok effects.Wait → next_act (program_of program.now.unit) (state_of program.now.unit.names running.now) thread ≡ Waits }
{
    match top_of(running, thread) {
        None => Ok(Effect::Wait),
        Some(frame) => known(program, effect_in(program, running, thread, frame)),
    }
}

/// Whether what was found is waiting.
pub fn is_waiting(found: &Result<Effect, Trouble>) -> bool
    ensures { IsTrue result ↔ (found.now ≡ Ok effects.Wait) }
{
    matches!(found, Ok(Effect::Wait))
}

/// Whether a thread can step, where the run has not ended.
fn can_step(program: &Program, running: &Running, thread: u32) -> bool
    requires { running.now.end ≡ None }
    ensures { result ≡ can_step (program_of program.now.unit) (state_of program.now.unit.names running.now) thread }
{
    let found = next_effect(program, running, thread);
    !is_waiting(&found)
}

/// Whether any thread can step, where the run has not ended.
pub fn some_can_step(program: &Program, running: &Running) -> bool
    requires going { running.now.end ≡ None }
    requires few { length running.now.threads.items ≤ 1024 }
    ensures { result ≡ some_can_step (program_of program.now.unit) (state_of program.now.unit.names running.now) }
{
    for thread in 0..running.threads.len() {
        if can_step(program, running, thread as u32) {
            return true;
        }
    }
    false
}
