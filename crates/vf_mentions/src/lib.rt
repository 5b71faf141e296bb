//! Which functions and lemmas the text of a body names.
//!
//! A body names a function where the function's name stands as an expression, in C text or in an annotation, and a
//! lemma where it calls it. `specs/` says what a body mentions, in the order of the text. A name that stands as an
//! expression is mentioned as a function unless a local of C that is visible there has it: whether a function of that
//! name is declared is the caller's to look up, since a name of an annotation's own stands as an expression too.
//!
//! `mentions_of_body` and `mentions_of_lemma` give just the mentions of the definitions, in near linear time: a visible
//! local is found in logarithmic time. Law: `mentioned_in_examples` (what a declaration, a block, a loop and a call of a
//! lemma mention).
#![tactic(auto)]

mod assertion;
mod body;
mod command;
pub mod examples;
mod expr;
mod ghost_expr;
mod mention;
mod stmt;

pub use body::{mentions_of_body, mentions_of_lemma};
pub use mention::Mention;
