//! Trials of the tool over files in memory, where a read or a write fails as in no call that a text of tests/ can make.
#![tactic(auto)]

#[cfg(test)]
mod failures;
