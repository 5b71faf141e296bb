//! Trials of the prover, layer by layer: tables of terms, classes, bounds, steps of refutations, levels of literals,
//! chains, unfoldings, and questions that are put to the prover.
#![tactic(auto)]

#[cfg(test)]
mod asked;
#[cfg(test)]
mod bounds;
#[cfg(test)]
mod checks;
#[cfg(test)]
mod classes;
#[cfg(test)]
mod growing;
#[cfg(test)]
mod laws;
#[cfg(test)]
mod leaves;
#[cfg(test)]
mod levels;
#[cfg(test)]
mod questions;
#[cfg(test)]
mod relations;
#[cfg(test)]
mod steps;
#[cfg(test)]
mod tables;
#[cfg(test)]
mod unfoldings;
