//! What a part of an assertion binds.

use vf_binding::bound::Bound;

/// The names that a part binds so far, and the first number of unknown sorts that is not used yet.
#[derive(Drop)]
pub struct Progress {
    pub bound: Bound,
    pub next: usize,
}
