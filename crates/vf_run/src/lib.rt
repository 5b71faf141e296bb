//! The machine that runs whole programs under a schedule, one core step at a time.
//!
//! Contracts see a [`Machine`] as its program's tree and the state that it is in, and say that `start`
//! gives the opening state, that `step` is one event, and that `outcome` and `output` are those of the
//! state. So after any list of events that needs no more than the machine's limits, the machine stands
//! where the definitions of `vf_model` lead.
//!
//! `Machine::start` is the opening state; `step` is one event with its answer, and Capacity comes exactly where the
//! state after it would pass a limit; after an error the state is as before; an event after which the state has no
//! more of anything is taken outright; `outcome`, `output` and `blocks` are the state's. Law:
//! `quiet_steps_make_nothing`.
#![tactic(auto)]

mod acting;
mod changes;
mod counts;
mod laws;
mod machine;
mod opening;
mod stepping;

pub use acting::next_effect;
pub use counts::Counts;
pub use laws::quiet_steps_make_nothing;
pub use machine::Machine;
pub use vf_core::{Program, Unit, assemble_unit};
pub use vf_engine::{Limit, StepFault, Stepped};
pub use vf_model::{Event, FaultKind, Outcome};
