//! States of a run.

use crate::blocks::Blocks;
use crate::value::Value;
use vf_base::{Place, Text};
use vf_model::FaultKind;

/// A call of a function: the function's number in the program, the number of the next step, the
/// locals, and the caller's local that wants the result.
#[derive(Debug, Drop)]
pub struct Frame {
    pub function: usize,
    pub step: u32,
    pub locals: Vec<Option<Value>>,
    pub target: Option<u32>,
}

/// A thread: its innermost frame, and below it the frames that wait, the nearest last. A thread that
/// has ended has no frame.
#[derive(Debug, Drop)]
pub struct Thread {
    pub frame: Option<Frame>,
    pub callers: Vec<Frame>,
}

/// How a run has ended.
#[derive(Clone, Copy, Debug, PartialEq, Eq)]
pub enum End {
    Returned(i128),
    Aborted,
    Fault(FaultKind, Place),
}

/// A state of a run.
#[derive(Debug, Drop)]
pub struct Running {
    pub blocks: Blocks,
    pub threads: Vec<Thread>,
    pub output: Text,
    pub end: Option<End>,
}
