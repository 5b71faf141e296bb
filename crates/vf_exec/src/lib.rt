//! The rules of a body, walked once from its first step on: which questions are asked, and the first
//! that is not proved.
//!
//! `check_main` comes to what the written rules (`specs/Main.antt`) come to with just the answers that
//! its asker gave, whoever the asker is.
//!
//! Exact for the first form, by the course `checks` of the core.
#![tactic(auto)]

mod body;
mod literals;
mod sum;

pub use body::check_main;
