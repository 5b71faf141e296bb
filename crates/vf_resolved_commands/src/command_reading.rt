//! Commands that declare nothing.

use vf_resolved::command::Command;

/// A command that declares nothing, and the first number of unknown sorts that is not used yet.
#[derive(Drop)]
pub struct CommandReading {
    pub command: Command,
    pub next: usize,
}
