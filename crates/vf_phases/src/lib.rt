//! The phases between the tree of a unit and the checks of what it declares: names, types and sorts first, then its
//! fixpoints, then the order of operands. A unit is refused in the first phase that refuses it.
//!
//! In `specs/`: the phases of a unit behind its tree, and where the first that refuses it does so. `check_names`: a
//! unit that is answered comes to what it declares, by `vf_resolve`, its fixpoints have values and the order of no
//! two operands matters; a refusal is that of the first phase that refuses it.
#![tactic(auto)]

mod names;
mod order;

pub use names::check_names;
