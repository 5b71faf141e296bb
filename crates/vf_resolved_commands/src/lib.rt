//! Ghost commands, resolved.
//!
//! [`command_resolved`] goes over a ghost command at a place where something is declared and numbered, and gives its
//! resolved tree; [`commands_resolved`] over several, from the first to the last.
//!
//! In `specs/`: the resolved tree as a function of the tree, of what stands around it, and of what is declared and
//! numbered in front of it. Both calls are what it says, and so is what is declared and numbered behind; they refuse
//! nothing, and want of memory alone is free.
#![tactic(auto)]

mod calls;
mod command_reading;
mod commands;
mod locals;
mod opening;
mod reading;
mod simple;

pub use commands::{command_resolved, commands_resolved};
