//! The walk over a unit's C text: what is declared behind each item and each statement, or the first refusal.
//!
//! [`walk_items`] goes over items in the order of the text, and is given what annotations declare, by [`Annotations`];
//! [`walk_item`] goes over one of them.
//!
//! In `specs/`: what the walk over each statement and item of C text comes to: locals and blocks, loops, returns,
//! parameters, structs and their fields, function types, prototypes and definitions, headers, `main`, the names of
//! preludes. The one ghost member of the trait `Annotations`, `Meanings`, relates what stands declared before
//! contracts, invariants, ghost commands and ghost items to what they may leave declared and to how they may be
//! refused, and says whether a function without a contract takes that of its prototype; `NoAnnotations` declares
//! nothing and takes none. `walk_items`, and `walk_item` for one of them, leaves a scope, or answers a refusal, that
//! the walk may come to, unless memory ran out. Law: `walks_agree` (where each annotation comes to one thing at most,
//! so does the walk). Exact where each annotation comes to one thing at most, as those of `vf_annotations` do.
#![tactic(auto)]

pub mod annotations;
mod function;
mod function_type;
mod items;
mod laws;
mod names;
mod parameters;
mod statement;
mod structure;
mod variable;

pub use annotations::{Annotations, NoAnnotations, Owner};
pub use items::{walk_item, walk_items};
pub use laws::walks_agree;
