//! Trees of the language and of the core: what a C program is after reading and lowering.
//!
//! The types here are those of the first form, a `main` of declarations, sums and a return. Each has
//! the pure data of the whole language as its meaning (`specs/Core.antt`, `specs/Shown.antt`).
//!
//! Each tree of the code means one of the pure data; `erase` drops the annotations.
#![tactic(auto)]

mod unit;

pub use unit::{
    Contract, Core, CoreStep, Expression, Function, Link, Operand, Operator, Plain, Pure, erase,
};
