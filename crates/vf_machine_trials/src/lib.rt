//! Trials of the machine of whole programs, on small ones.
//!
//! Threads take turns, and runs end at a limit: what a run of the program cannot show. All else that a step does is shown
//! by the cases of `tests/`, each a program of its own.
#![tactic(auto)]

#[cfg(test)]
mod limits;
#[cfg(test)]
mod programs;
#[cfg(test)]
mod steps;
#[cfg(test)]
mod threads;
