//! The core of a function's body as lowering makes it: the steps of C, and what stands between them.
//!
//! Functions, structs and function types go by the numbers that they have where they are declared. `specs/Tree.antt`
//! has the pure data, and `specs/Core.antt` what it is in the core of whole programs.
//!
//! `Value::copy` answers the same value again; want of memory alone is free.
#![tactic(auto)]

mod action;
mod value;

pub use action::{Action, FieldNumber, Node};
pub use value::Value;
