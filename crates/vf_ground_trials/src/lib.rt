//! Trials of the lowest crates: calls that fail, and a limit, which no run of the program shows.
//!
//! Their tests stand here and not in the crates, so that the crates are proved once.
#![tactic(auto)]

#[cfg(test)]
mod files;
#[cfg(test)]
mod trails;
