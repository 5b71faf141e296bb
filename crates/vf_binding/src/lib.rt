//! What patterns, shares and chunks of assertions bind.
//!
//! [`chunk_bound`] and [`cell_bound`] go over a chunk at a place of a unit. They give the names that its patterns bind,
//! which are visible behind the part in which the chunk stands, or refuse the chunk at its first fault in the order of
//! the text. What comes to be known of unknown sorts is kept in [`vf_sorts::Unknowns`].
//!
//! In `specs/`: what patterns, shares, chunks and cells of assertions bind, and where they are refused, by one rule
//! for each form: expressions, `?x` and `_`; products of factors and `[?f]`; predicates, families, predicate
//! constructors, predicate values of locals, `malloc_block_S`, and applications that are truth values; each rule goes
//! from what is known of unknown sorts and the names that are bound in the same part to what is known and bound then.
//! `chunk_bound`, `cell_bound`, `share_bound`, `pattern_bound` and `arguments_bound`: what is bound is what the rules
//! give, and a refusal is one that they give, by its rule and place. `declare_names` declares what is bound behind
//! the part; `chunk_takes` tells what a name takes as a chunk's, just as its definition does. Each assertion and
//! ghost command in which they stand comes to one thing at most (`vf_order_laws::determined`).
#![tactic(auto)]

pub mod bound;
mod cells;
pub mod chunk_sorts;
mod chunks;
mod heads;
mod patterns;
mod shares;
mod truths;

pub use cells::cell_bound;
pub use chunks::{arguments_bound, chunk_bound, taken_bound};
pub use heads::head_list_checked;
pub use patterns::pattern_bound;
pub use shares::share_bound;
