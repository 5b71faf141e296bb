//! What a step answers.

use vf_base::Memory;

/// How a step went.
#[derive(Clone, Copy, Debug, PartialEq, Eq)]
pub enum Stepped {
    /// The thread took a step, which may have ended the run.
    Moved,
    /// The thread is unknown, has ended or is blocked, and nothing changed.
    Idle,
    /// The run had ended before, and nothing changed.
    Ended,
}

/// A limit of the machine.
#[derive(Clone, Copy, Debug, PartialEq, Eq)]
pub enum Limit {
    /// 1,048,576 blocks at one time, mutexes and handles among them.
    Blocks,
    /// 1,024 threads, main among them.
    Threads,
    /// 65,536 frames of all threads.
    Frames,
    /// 4,194,304 cells of arrays of `int` at one time.
    Cells,
}

/// Why a step was not taken.
#[derive(Clone, Copy, Debug, PartialEq, Eq)]
pub enum StepFault {
    /// The step needs more than the machine has room for.
    Capacity(Limit),
    /// There is no memory left.
    Memory,
}

impl From<Memory> for StepFault {
    ghost use Rattle.std.specs.Prelude.{◌≡◌};
    ghost use Rattle.vf_engine.specs.declared.words.StepFault.TheVariants as faults;

    ghost from_gives = { λ _ e. e ≡ faults.Memory };

    fn from(_: Memory) -> StepFault {
        StepFault::Memory
    }
}
