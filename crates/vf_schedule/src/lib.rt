//! Schedules: as texts, and as what threads that take turns log.
#![tactic(auto)]

pub mod rounds;
pub mod texts;

pub use rounds::turns;
pub use texts::{Schedule, ScheduleFault, one_reading, read_schedule, write_schedule};
