//! The beginning of a level.

/// How much there was at the beginning of a level, and whether two terms were known to clash.
#[derive(Clone, Copy)]
pub struct Level {
    pub class_steps: usize,
    pub bound_steps: usize,
    pub terms: usize,
    pub facts: usize,
    pub clashed: bool,
}
