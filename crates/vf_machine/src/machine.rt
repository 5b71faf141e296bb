//! Machines.

ghost use Rattle.std.specs.Prelude.{◌≡◌, ◌↔◌, IfOk, IsOk, OnOk, OnErr, IsSome, IsNone, IsFalse, OnSome, slice_set, slice_get};
ghost use Rattle.vf_model.specs.Values.{Number};
ghost use Rattle.vf_model.specs.Steps.{next_act};
ghost use Rattle.vf_model.specs.Runs.{after, can_step, CanStep, main_frames, opening, outcome_of};
ghost use Rattle.vf_machine.specs.Machine.{tree_of, values_of, frames_of, machine_program, machine_state};
ghost use Rattle.vf_machine.specs.Effects.{act_by, effect_state};

use crate::effect::{Effect, effect_of};
use crate::program::Program;
use crate::sum::Trouble;
use crate::words::{StepFault, Stepped};
use std::alloc::Global;
use vf_base::{Memory, Place, Text};
use vf_model::{Event, FaultKind, Outcome};

/// The call of main that the thread is in.
#[derive(Debug, Drop)]
pub(crate) struct Frame {
    pub(crate) step: u32,
    pub(crate) locals: Vec<Option<i128>>,
}

/// How the run has ended.
#[derive(Clone, Copy, Debug, PartialEq, Eq)]
pub(crate) enum End {
    Returned(i128),
    Fault(FaultKind, Place),
}

/// A program in a state of its run.
#[derive(Debug, Drop)]
pub struct Machine {
    pub(crate) program: Program,
    pub(crate) frame: Option<Frame>,
    pub(crate) output: Text,
    pub(crate) end: Option<End>,
}

/// A frame before main's first step, where the program has its main.
fn main_frame(alloc: Global, program: &Program) -> Result<Option<Frame>, Memory>
    ensures { IfOk result (λ frame. frames_of program.now.plain.main frame ≡ main_frames program.now.plain.main (slice_get (tree_of program.now).functions program.now.plain.main)) }
{
    match program.plain.functions.get(program.plain.main as usize) {
        None => Ok(None),
        Some(function) => {
            let locals = vec![in alloc; None; function.locals as usize]?;
            Ok(Some(Frame { step: 0, locals }))
        }
    }
}

/// The frame at the next step, with a value in a local.
fn with_local(frame: Frame, local: u32, value: i128, next: u32) -> Frame
    ensures step { result.step ≡ next }
    ensures locals { values_of result.locals.items ≡ slice_set (values_of frame.locals.items) local (Some (Number value)) }
{
    let Frame {
        step: _,
        mut locals,
    } = frame;
    let local = local as usize;
    if local < locals.len() {
        locals[local] = Some(value);
    }
    Frame { step: next, locals }
}

impl Machine {
    /// The machine in the opening state of a program's runs.
    pub fn start(alloc: Global, program: Program) -> Result<Machine, Memory>
        ensures program { IfOk result (λ m. machine_program m ≡ tree_of program) }
        ensures opening { IfOk result (λ m. machine_state m ≡ opening (tree_of program)) }
    {
        let frame = main_frame(alloc, &program)?;
        Ok(Machine {
            program,
            frame,
            output: Text::new(alloc),
            end: None,
        })
    }

    /// What thread 0's next step does, if it has one.
    fn next_effect(&self) -> Option<Effect>
        ensures act { next_act (machine_program self.now) (machine_state self.now) 0 ≡ act_by self.now result }
        ensures framed { OnSome result (IsSome self.now.frame) }
    {
        let frame = self.frame.as_ref()?;
        let program = &self.program.plain;
        let function = program.functions.get(program.main as usize)?;
        Some(effect_of(function, frame.step, frame.locals.as_slice()))
    }

    /// Takes the step, which is thread 0's.
    fn apply(&mut self, effect: Effect)
        requires { IsSome self.old.frame }
        ensures program { machine_program self.new ≡ machine_program self.old }
        ensures state { machine_state self.new ≡ effect_state self.old effect }
    {
        match effect {
            Effect::Set { local, value, next } => {
                if let Some(frame) = self.frame.take() {
                    self.frame = Some(with_local(frame, local, value, next));
                }
            }
            Effect::Return(value) => {
                self.frame = None;
                self.end = Some(End::Returned(value));
            }
            Effect::Fault(Trouble { kind, place }) => self.end = Some(End::Fault(kind, place)),
        }
    }

    /// One event. It takes no memory and meets no limit in programs of this form.
    pub fn step(&mut self, e: Event) -> Result<Stepped, StepFault>
        ensures program { machine_program self.new ≡ machine_program self.old }
        ensures after { OnOk result (machine_state self.new ≡ after (machine_program self.old) (machine_state self.old) e) }
        ensures unchanged { OnErr result (machine_state self.new ≡ machine_state self.old) }

        ensures ended { (result ≡ Ok Stepped.Ended) ↔ IsSome (machine_state self.old).end }
        ensures idle { (result ≡ Ok Stepped.Idle) ↔ (IsNone (machine_state self.old).end × IsFalse (can_step (machine_program self.old) (machine_state self.old) e.thread)) }
        ensures moved { (result ≡ Ok Stepped.Moved) ↔ CanStep (machine_program self.old) (machine_state self.old) e.thread }
        ensures always { IsOk result }
    {
        if self.end.is_some() {
            return Ok(Stepped::Ended);
        }
        if e.thread != 0 {
            return Ok(Stepped::Idle);
        }
        match self.next_effect() {
            None => Ok(Stepped::Idle),
            Some(effect) => {
                self.apply(effect);
                Ok(Stepped::Moved)
            }
        }
    }

    /// How the run stands.
    pub fn outcome(&self) -> Outcome
        ensures { result ≡ outcome_of (machine_program self.now) (machine_state self.now) }
    {
        match &self.end {
            Some(End::Returned(number)) => Outcome::Returned(*number),
            Some(End::Fault(kind, place)) => Outcome::Fault(*kind, *place),
            None if self.next_effect().is_some() => Outcome::Running,
            None => Outcome::Blocked,
        }
    }

    /// What the program has written.
    pub fn output(&self) -> &[u8]
        ensures { result.now ≡ (machine_state self.now).output }
    {
        self.output.as_bytes()
    }
}
