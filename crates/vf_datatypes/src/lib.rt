//! Datatypes, as annotations declare them.
//!
//! [`declare_datatype`] puts a datatype and its constructors into what is declared at a place of a unit, or refuses it
//! at its first fault in the order of the text. A datatype may use itself, at its own type parameters in order, and
//! datatypes that stand before it; and it has a value.
//!
//! In `specs/`: what is declared behind a datatype, or its first refusal in the order of the text: its name, type
//! parameters and constructors, the sorts of their arguments, which may use the datatype itself at its own parameters
//! in order and datatypes that stand before it, and that it has a value. `declare_datatype` leaves the scope that the
//! definition gives, or answers its refusal, unless memory ran out. Law: `values_are_built` (where the datatypes of a unit
//! stand in order, as they are accepted, each sort over them has a value).
#![tactic(auto)]

mod arguments;
mod constructors;
mod datatype;
pub mod declaring;
mod inhabited;
pub mod laws;
pub mod names;
mod own;
pub mod refusal;
mod stated;

pub use datatype::declare_datatype;
pub use own::Own;
pub use stated::Stated;
