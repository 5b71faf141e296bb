//! Names with numbers: each name that comes gets the next number, and keeps it.
//!
//! A name keeps its number, and `number` finds it exactly where it was put; `truncate` and `remove` take names away,
//! from the end and from between, where a name that stands twice has the number of its first place. How long that
//! takes is not proved.
#![tactic(auto)]

mod names;

pub use names::Names;
