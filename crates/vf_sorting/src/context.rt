//! What stands around an expression.

use vf_sorts::Sort;

/// What an expression may speak of by words, and whose text it stands in.
#[derive(Drop)]
pub struct Context {
    /// The sort of `result`, where it may stand.
    pub result: Option<Sort>,
    /// Whether `this` may stand.
    pub has_this: bool,
    /// Whether `currentThread` may stand.
    pub has_thread: bool,
    /// The number of the ghost declaration in whose own text the expression stands: there its type parameters are sorts
    /// of their own.
    pub own: Option<usize>,
}
