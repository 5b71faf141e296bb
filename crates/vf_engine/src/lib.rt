//! The machine of whole programs, one core step at a time.
//!
//! `effect_of_step`: what is found for each core step is what the machine's definition says of it, with each fault's
//! kind and place; `evaluate`, `allocate`, `enter_at`, `leave_at` and more. Blocks lie in a vector by their numbers,
//! those that come out of order in a map; the least free number is found by counts of groups, and not by a scan (its
//! time is not proved).
#![tactic(auto)]

mod access;
mod apply;
mod blocks;
mod calls;
mod cell;
mod effect;
mod expressions;
mod frames;
mod groups;
mod integers;
mod shelf;
mod signature;
mod state;
mod step;
mod threads;
mod value;
mod words;
mod writing;

pub use apply::{go, remove, store};
pub use blocks::{Block, Blocks};
pub use cell::Cell;
pub use effect::Effect;
pub use expressions::{Trouble, evaluate};
pub use frames::{argument_values, frame_of_call};
pub use state::{End, Frame, Running, Thread};
pub use step::effect_in;
pub use threads::{Change, change_at, enter_at, leave_at};
pub use value::{Value, number_of, same_value};
pub use words::{Limit, StepFault, Stepped};
pub use writing::set_at;
