//! The opening state of a program's runs.

ghost use Rattle.std.specs.Prelude.{◌≡◌, ◌≤◌, [], List, IfOk, length, slice_get};
ghost use Rattle.vf_tree.specs.Core.{Identity};
ghost use Rattle.vf_model.specs.Runs.{main_frames, opening};
ghost use Rattle.vf_core.specs.Shown.{program_of};
ghost use Rattle.vf_engine.specs.States.{frames_with, state_of};
ghost use Rattle.vf_run.specs.Counts.{HasCounts, Within};

use crate::counts::Counts;
use std::alloc::Global;
use vf_base::{Memory, Text};
use vf_core::Program;
use vf_engine::{Blocks, Frame, Running, Thread, frame_of_call};

/// The frame of main before its first step, where the program has its main.
fn main_frame(alloc: Global, program: &Program) -> Result<Option<Frame>, Memory>
    ensures { IfOk result (λ frame. main_frames program.now.unit.main (slice_get (program_of program.now.unit).functions program.now.unit.main) ≡ frames_with program.now.unit.names frame []) }
{
    match program.unit.functions.get(program.unit.main as usize) {
        None => Ok(None),
        Some(function) => {
            let number = program.unit.main as usize;
            let frame = frame_of_call(number, function, Vec::new(alloc), None)?;
            Ok(Some(frame))
        }
    }
}

/// How many frames main has before its first step.
fn main_count(program: &Program) -> usize
    ensures count { result ≡ length (main_frames program.now.unit.main (slice_get (program_of program.now.unit).functions program.now.unit.main)) }
    ensures few { result ≤ 1 }
{
    match program.unit.functions.get(program.unit.main as usize) {
        Some(_) => 1,
        None => 0,
    }
}

/// The opening state.
fn opening_state(alloc: Global, program: &Program) -> Result<Running, Memory>
    ensures { IfOk result (λ r. state_of program.now.unit.names r ≡ opening (program_of program.now.unit)) }
{
    let frame = main_frame(alloc, program)?;
    let mut threads = Vec::new(alloc);
    threads.push(Thread {
        frame,
        callers: Vec::new(alloc),
    })?;
    Ok(Running {
        blocks: Blocks::new(alloc),
        threads,
        output: Text::new(alloc),
        end: None,
    })
}

/// The opening state, and its counts.
pub fn opening(alloc: Global, program: &Program) -> Result<(Running, Counts), Memory>
    ensures opening { IfOk result (λ r. state_of program.now.unit.names r.0 ≡ opening (program_of program.now.unit)) }
    ensures counted { IfOk result (λ r. HasCounts (state_of program.now.unit.names r.0) r.1) }
    ensures within { IfOk result (λ r. Within r.1) }
{
    let running = opening_state(alloc, program)?;
    let counts = Counts {
        blocks: 0,
        threads: 1,
        frames: main_count(program),
        cells: 0,
    };
    Ok((running, counts))
}
