//! What a step answers.

/// How a step went.
#[derive(Clone, Copy, Debug, PartialEq, Eq)]
pub enum Stepped {
    /// The thread took a step, which may have ended the run.
    Moved,
    /// The thread is unknown, has ended or is blocked, and nothing changed.
    Idle,
    /// The run had ended before, and nothing changed.
    Ended,
}

/// A limit of the machine.
#[derive(Clone, Copy, Debug, PartialEq, Eq)]
pub enum Limit {
    Blocks,
    Threads,
    Frames,
    /// The cells of all arrays of `int`.
    Cells,
}

/// Why a step was not taken.
#[derive(Clone, Copy, Debug, PartialEq, Eq)]
pub enum StepFault {
    /// The step needs more than the machine has room for.
    Capacity(Limit),
    /// There is no memory left.
    Memory,
}
