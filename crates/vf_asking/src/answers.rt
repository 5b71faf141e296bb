//! Answers.

/// The answer to a question: that the goal follows from the facts, or that it is not known to.
#[derive(Clone, Copy, Debug, PartialEq, Eq)]
pub enum Answer {
    Proved,
    Unknown,
}
