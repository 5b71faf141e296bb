//! Schedules as texts: which thread steps next, event for event, and what is granted to it.
//!
//! A schedule is a JSON array. An event is a thread's number, or an array of a thread's number and a
//! grant; a number alone has grant 1. [`read_schedule`] refuses a text just where it stands for no
//! schedule, and what [`write_schedule`] writes reads back.

mod read;
mod write;

pub use read::{Schedule, ScheduleFault, one_reading, read_schedule};
pub use write::write_schedule;
