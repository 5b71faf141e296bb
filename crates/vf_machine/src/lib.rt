//! The machine that runs a linked program under a schedule, one core step at a time.
//!
//! Contracts see a [`Machine`] as its program's tree and the state that it is in, and say that `start`
//! gives the opening state, that `step` is one event, and that `outcome` and `output` are those of the
//! state. So after any list of events the machine stands where the definitions of `vf_model` lead.
//! This form has programs of one unit whose main declares, adds and returns: they have one thread, and
//! no step of theirs takes memory or meets a limit.
#![tactic(auto)]

mod effect;
mod machine;
mod program;
mod sum;
mod words;

pub use machine::Machine;
pub use program::{Program, assemble_one};
pub use vf_model::{Event, FaultKind, Outcome};
pub use words::{Limit, StepFault, Stepped};
