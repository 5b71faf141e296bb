//! Unit text: the tokens of a file, with those of each header at its first include, in which macros
//! are replaced.
//!
//! `specs/UnitText.antt` says what the text of a unit is, and `header_at` there is recursive over
//! files. The code has all that one file needs: lines, directives, groups, macros and their
//! replacement, what an include means, and what a header leaves to its includer. The walk over the
//! files stands above it.
//!
//! In `specs/`: what a unit's text is, over a map of files: includes, macros, guards, headers; and all that one file
//! needs; which names stand in which file. Each call gives exactly what the definition says, with rule and place
//! (`follow_line`, `with_header`, `join_header`, `put_expanded`, `NameTable::stands` and more). Law:
//! `replacements_are_whole` (no replacement of macros is cut short by the bound on how deep they stand within one
//! another).
#![tactic(auto)]

mod fault;
mod files;
mod groups;
mod include;
mod include_target;
mod join;
mod laws;
mod macros;
mod name_table;
mod replace;
mod scope;
mod sources;
mod stack;
mod steps;
mod unit;
mod words;

pub use fault::ExpandFault;
pub use files::FileList;
pub use groups::{Group, begin, end, is_taken, skip, turn};
pub use include::{closed, opened};
pub use include_target::{is_ghost_path, path_text, target};
pub use join::{Join, join_header, with_header};
pub use laws::replacements_are_whole;
pub use macros::Macros;
pub use name_table::NameTable;
pub use replace::{MOST_TOKENS, put_expanded};
pub use scope::{Header, Scope, define, names_in};
pub use sources::Loaded;
pub use steps::{File, Step, follow_line};
pub use unit::Unit;
pub use words::{Word, first_line, has_ghost, word_of};
