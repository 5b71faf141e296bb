//! How many terms a question has.

/// The most terms that a question may have.
pub const MOST_TERMS: usize = 1024;
