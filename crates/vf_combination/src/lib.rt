//! Classes of equal terms and bounds of integer terms that exchange what they know, along a path.
//!
//! Terms and facts come one by one, and are taken back level by level. What a term or a fact changes is
//! marked, and equalities and bounds are exchanged only at pairs of which one term is marked.
//!
//! `refuted` holds exactly where the closure of the facts has a conflict, and where it has none `same` holds exactly
//! where two terms are equal in it; `end` leaves exactly the terms and facts of the last level's beginning and takes
//! no memory, and `keep` leaves them all; where there is no memory nothing is added. Exact within small numbers.
#![tactic(auto)]

mod combination;
mod exchange;
mod gather;
mod level;
mod marking;
mod taking;
mod verdict;

pub use combination::Combination;
