//! Sorts of ghost text, and sorts that are not known yet.
//!
//! Each use of a constructor, a fixpoint or a lemma with type parameters begins with unknown sorts in their place,
//! and its arguments make them equal to what they are. [`Unknowns::unify`] makes two sorts equal wherever that can
//! be, and learns no more than that. The struct that the written type of a pointer tells is kept, and makes no sorts
//! unequal.
//!
//! `Unknowns::unify` answers yes exactly where some sorts for the unknown ones agree with what is known and make both
//! equal, and then what is known is agreed with by just these (`Equates`); what pointers tell is kept, and an unknown
//! sort that is made equal to a pointer tells the same wherever something can, of two that tell otherwise the first
//! in the order of the text; what is known then is determined, by the rules of Martelli and Montanari taken from left
//! to right (`unified`); whatever is answered, nothing that was known is given up. `settle`, `resolve` and `instance`
//! are what the definitions say of a sort. Law: `settling_agrees` (the sorts by which others are settled agree with
//! what is known).
#![tactic(auto)]

mod filling;
mod instance;
pub mod laws;
mod occurrence;
mod pair;
mod sort;
mod unify;
mod unknowns;

pub use sort::{Head, Sort, SortList, are_alike, are_one};
pub use unknowns::Unknowns;
