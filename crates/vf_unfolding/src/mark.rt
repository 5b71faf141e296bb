//! Marks of levels.

/// How much there was at the beginning of a level: facts, unfoldings and numbers of the facts' terms.
#[derive(Clone, Copy, Debug)]
pub struct Mark {
    pub facts: usize,
    pub made: usize,
    pub asked: usize,
}
