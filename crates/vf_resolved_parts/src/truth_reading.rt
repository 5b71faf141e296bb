//! Truth values as they are read.

use vf_resolved::truth::Truth;
use vf_sorts::Sort;

/// A truth value, and the first number of unknown sorts that is not used yet.
#[derive(Drop)]
pub struct TruthReading {
    pub truth: Truth,
    pub next: usize,
}

/// A side of `==` or `!=`: a comparison, or a value of a sort.
#[derive(Drop)]
pub struct Side {
    pub truth: Truth,
    pub sort: Sort,
    pub next: usize,
}
