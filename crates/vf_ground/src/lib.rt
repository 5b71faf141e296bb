//! Ground questions over a table of terms: what classes of equal terms and bounds between integer terms lack of each
//! other, and what in them shows a conflict.
//!
//! Classes and bounds hold the facts and what the terms give of themselves; they exchange equalities and bounds until
//! each holds what the other one does. Who does so stands above.
//!
//! `lack_at` tells what classes and bounds lack of each other at two terms, and `is_clash` and `contradicts` tell a
//! conflict; each is exact.
#![tactic(auto)]

mod exchange;
mod verdict;

pub use exchange::{Lack, are_integers, are_level, is_near, lack_at};
pub use verdict::{contradicts, is_clash};
