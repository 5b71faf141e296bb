//! What is left to do of a unit.

use crate::frames::{Open, Waiting};
use vf_preproc::Unit;

/// A unit whose files are being followed.
#[derive(Drop)]
pub struct Walk {
    pub unit: Unit,
    /// The files that wait for the end of a header, the innermost at the end.
    pub stack: Vec<Waiting>,
    /// The file whose lines are being followed.
    pub current: Open,
}

/// What comes behind a step of the walk.
#[derive(Drop)]
pub enum Next {
    Goes(Walk),
    /// All files were followed to their ends.
    Ends(Unit),
}
