//! The annotations of a body.

use vf_resolved::assertion::Assertion;
use vf_resolved::command::Command;

/// What annotations tell at a place of a body.
#[derive(Drop)]
pub enum Annotation {
    /// A ghost command.
    Command(Command),
    /// A loop, by its invariant, where it has one.
    Loop(Option<Assertion>),
}
