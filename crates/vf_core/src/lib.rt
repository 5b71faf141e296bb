//! The core of whole C programs as code: types, expressions, steps, functions, and programs that run.
//!
//! Names of functions, structs and function types are numbers of a table of names. Each type of the
//! code stands for one of the pure data of `vf_tree` (`specs/Shown.antt`). A [`Program`] is a unit with
//! what each name calls, found once, so that no step of a run looks a name up by its text.
//!
//! Each tree stands for pure data of `vf_tree` (`program_of`); `resolved` is what a name calls; `assemble_unit` keeps
//! the unit.
#![tactic(auto)]

mod expression;
mod program;
mod resolve;
mod step;
mod words;

pub use expression::Expression;
pub use program::{Program, assemble_unit, resolved};
pub use resolve::{Resolved, prelude_named, resolve_text, same_name, text_of};
pub use step::{CoreStep, Function, StructBody, Unit};
pub use words::{Comparison, Field, Name, Operator, PreludeFunction, Scalar, Signature};
