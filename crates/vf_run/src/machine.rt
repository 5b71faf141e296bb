//! Machines.

ghost use Rattle.std.specs.Prelude.{◌≡◌, None, Some, Err, IfOk, IsOk, OnOk, OnErr, slice_get};
ghost use Rattle.vf_model.specs.Runs.{after, main_frames, opening, outcome_of};
ghost use Rattle.vf_core.specs.Shown.{program_of};
ghost use Rattle.vf_engine.specs.States.{state_of};
ghost use Rattle.vf_run.specs.Counts.{HasCounts, Within, first_passed};

use crate::acting::some_can_step;
use crate::counts::Counts;
use crate::opening::opening;
use crate::stepping::take_event;
use std::alloc::Global;
use vf_base::Memory;
use vf_core::Program;
use vf_engine::{End, Running, StepFault, Stepped};
use vf_model::{Event, Outcome};

/// A program in a state of its run.
#[derive(Debug, Drop)]
pub struct Machine {
    pub(crate) program: Program,
    pub(crate) running: Running,
    pub(crate) counts: Counts,
    ghost counted: { HasCounts (state_of program.unit.names running) counts },
    ghost within: { Within counts },
}

impl Machine {
    ghost use Rattle.std.specs.FinMap as finite;
    ghost use Rattle.vf_engine.specs.declared.words.Limit as declared_limit;
    ghost use Rattle.vf_engine.specs.declared.words.StepFault.TheVariants as faults;
    ghost use Rattle.vf_run.specs.Acting.{Answers};
    ghost use Rattle.vf_run.specs.Machines.{machine_program, machine_state};
    ghost use Rattle.vf_run.specs.Making.{MakesNothing};

    /// The machine in the opening state of a program's runs.
    pub fn start(alloc: Global, program: Program) -> Result<Machine, Memory>
        ensures program { IfOk result (λ m. machine_program m ≡ program_of program.unit) }
        ensures opening { IfOk result (λ m. machine_state m ≡ opening (program_of program.unit)) }
    {
        let (running, counts) = opening(alloc, &program)?;
        Ok(Machine {
            program,
            running,
            counts,
        })
    }

    /// Makes ready for that many steps that make nothing. Such a step takes no memory at any time, so
    /// there is nothing to do.
    pub fn reserve_turn(&mut self, _steps: u32) -> Result<(), Memory>
        ensures program { machine_program self.new ≡ machine_program self.old }
        ensures state { machine_state self.new ≡ machine_state self.old }
        ensures outright { IsOk result }
    {
        Ok(())
    }

    /// One event. An event that makes nothing takes no memory, and is taken outright.
    pub fn step(&mut self, e: Event) -> Result<Stepped, StepFault>
        ensures program { machine_program self.new ≡ machine_program self.old }
        ensures after { OnOk result (machine_state self.new ≡ after (machine_program self.old) (machine_state self.old) e) }
        ensures unchanged { OnErr result (machine_state self.new ≡ machine_state self.old) }
        ensures answer { Answers (machine_program self.old) (machine_state self.old) e.thread result }
        ensures capacity { (limit : declared_limit.Limit) → result ≡ Err (faults.Capacity limit) → first_passed (after (machine_program self.old) (machine_state self.old) e) ≡ Some limit }
        ensures full { (limit : declared_limit.Limit) → first_passed (after (machine_program self.old) (machine_state self.old) e) ≡ Some limit → result ≡ Err (faults.Capacity limit) }
        ensures outright { MakesNothing (machine_program self.old) (machine_state self.old) e → IsOk result }
    {
        let (stepped, counts) = take_event(&self.program, &mut self.running, self.counts, e)?;
        self.counts = counts;
        Ok(stepped)
    }

    /// How the run stands.
    pub fn outcome(&self) -> Outcome
        ensures { result ≡ outcome_of (machine_program self.now) (machine_state self.now) }
    {
        match self.running.end {
            Some(End::Returned(number)) => Outcome::Returned(number),
            Some(End::Aborted) => Outcome::Aborted,
            Some(End::Fault(kind, place)) => Outcome::Fault(kind, place),
            None => {
                if some_can_step(&self.program, &self.running) {
                    Outcome::Running
                } else {
                    Outcome::Blocked
                }
            }
        }
    }

    /// What the program has written.
    pub fn output(&self) -> &[u8]
        ensures { result.now ≡ (machine_state self.now).output }
    {
        self.running.output.as_bytes()
    }

    /// How many blocks there are, mutexes and handles among them.
    pub fn blocks(&self) -> u32
        ensures { result ≡ finite.len (machine_state self.now).memory }
    {
        self.counts.blocks as u32
    }

    /// The program that it runs.
    pub fn program(&self) -> &Program
        ensures { result.now ≡ self.now.program }
    {
        &self.program
    }

    /// The state that it is in.
    pub fn running(&self) -> &Running
        ensures { result.now ≡ self.now.running }
    {
        &self.running
    }
}
