//! The words of the machine.

use vf_base::Place;

/// What a schedule is a list of: the thread that steps, and the grant of an allocation. Grant 0
/// denies it; grant `g` gives block `g` where that is free, else the least free number from 1.
#[derive(Clone, Copy, Debug, PartialEq, Eq)]
pub struct Event {
    pub thread: u32,
    pub grant: u32,
}

/// What is wrong with a thread's next step.
#[derive(Clone, Copy, Debug, PartialEq, Eq)]
pub enum FaultKind {
    /// There is no such cell.
    Access,
    /// A cell or a local that is read holds no value.
    Unset,
    /// A result does not fit its type.
    Range,
    /// The divisor is 0, or the least number is divided by -1.
    Divisor,
    /// What is freed is no block of that kind.
    Free,
    /// What is called is no function of that signature.
    Pointer,
    /// There is no such mutex, it is held by another, or it is disposed while held.
    Mutex,
    /// What is joined is no handle.
    Join,
    /// A body that owes a value has come to its end.
    NoReturn,
}

/// How a run stands.
#[derive(Clone, Copy, Debug, PartialEq, Eq)]
pub enum Outcome {
    /// Main has returned this number.
    Returned(i128),
    /// A step has aborted the run.
    Aborted,
    /// The run has not ended, and no thread can step.
    Blocked,
    /// The run has not ended, and some thread can step.
    Running,
    /// A step has ended the run by a fault.
    Fault(FaultKind, Place),
}
