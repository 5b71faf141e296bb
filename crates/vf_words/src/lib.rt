//! What the words of the command line ask for.
//!
//! `command_of` gives the command that the words after the program's name ask for, and none exactly where they ask for
//! none. The first word is a command's name; the others are read by a `clap` command of that name, which knows no option
//! and takes positional words alone: `--` is left out, and a word before it that begins with `-` asks for an option. A
//! word that means a path of a source file or of a manifest holds printed bytes alone, no blanks, quotes, `#` and angle
//! brackets.
#![tactic(auto)]

mod command;
mod paths;
mod positional;
mod text;

pub use command::{Command, Name, RunWords, ScheduledWords, command_of};
pub use text::texts_of;
