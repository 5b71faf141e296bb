//! Resolved trees: what stands in annotations as terms over numbered names, and assertions over these.
//!
//! The names of a text have numbers, in the order in which they are declared, the parameters first; a leaf is a term in
//! which a name is the symbol of its number, and `result`, `this` and `currentThread` are symbols of their own. What
//! names mean at file level is decided: functions, constructors, fixpoints, predicates, families and structs are
//! identities, and a part is known to be a truth value, a cell or a chunk, with what it is of. The connectives,
//! comparisons and choices of a truth value that is a part of an assertion stay apart, and each part, case and command
//! keeps its place.
//!
//! `specs/AssertionTree.antt` and its neighbours have the pure data, and `specs/Apart.antt` the term that a truth value
//! is whose connectives and comparisons are told apart.
#![tactic(auto)]

pub mod assertion;
pub mod command;
pub mod contract;
pub mod head;
pub mod pattern;
pub mod truth;
