//! Terms with their sorts.

use vf_formula::{Term, TermList};
use vf_sorts::Sort;

/// A term of a sort, and the first number of unknown sorts that is not used yet.
#[derive(Drop)]
pub struct Reading {
    pub sort: Sort,
    pub term: Term,
    pub next: usize,
}

/// Two terms of a common sort.
#[derive(Drop)]
pub struct Pair {
    pub first: Term,
    pub second: Term,
    pub sort: Sort,
    pub next: usize,
}

/// Terms of arguments.
#[derive(Drop)]
pub struct Row {
    pub terms: TermList,
    pub next: usize,
}
