//! Ghost commands, sorted and resolved.
//!
//! [`command_told`] sorts a ghost command where something is declared and numbered, and then resolves it with what is
//! known of unknown sorts in the end; [`commands_told`] does so with several, one after another.
//!
//! In `specs/`: which resolved trees commands come to, and where they are refused. Both calls: what is answered is one
//! of these, and a refusal is that of the sorting, by its rule and place.
#![tactic(auto)]

mod commands;

pub use commands::{command_told, commands_told};
