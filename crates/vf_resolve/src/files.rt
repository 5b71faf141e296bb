//! The files of a unit.

use vf_base::{NumberList, Sequence};

/// The files of a unit, by their numbers.
#[derive(Drop)]
pub struct Files {
    /// The unit's own file.
    pub own: u32,
    /// For each file by its number, the files of which it consists: itself, and those that it includes, directly or
    /// through others. Of a file that is not of the unit, none.
    pub headers: Sequence<NumberList>,
    /// The files that are preludes.
    pub preludes: NumberList,
    /// Whether `<stdlib.h>` is in the unit.
    pub has_stdlib: bool,
    /// Whether `<vf_arrays.h>` is in the unit.
    pub has_arrays: bool,
}
