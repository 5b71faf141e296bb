//! What is wanted of a program's run.

/// What is wanted of a program's run.
#[derive(Clone, Copy, Debug, PartialEq, Eq)]
pub enum Purpose {
    /// What the program writes, and how the run stands in the end.
    Run,
    /// The first fault or race.
    Trace,
}
