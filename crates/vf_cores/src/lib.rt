//! Functions with their bodies in steps: which functions the items of a unit make.
//!
//! [`lower_items`] goes over the items of a unit in the order of the text. It is given what annotations declare, and
//! makes each function with a body where what its own item declares is declared.
//!
//! `lower_function` gives the function that the definition gives where some things are declared, which stay as they
//! are. `lower_items`: the items come to what is declared behind them, by the walk of `vf_walk`, and to these
//! functions, or the first refusal is answered; want of memory alone is free.
#![tactic(auto)]

mod cores;
mod function;
mod items;
mod parameters;

pub use cores::Core;
pub use function::lower_function;
pub use items::lower_items;
