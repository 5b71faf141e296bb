//! The datatypes of a unit.

use vf_base::{NumberList, Sequence};
use vf_names::Names;

/// The names of the datatypes that stand anywhere in the unit, and the files in which each of them stands.
#[derive(Drop)]
pub struct Stated {
    pub names: Names,
    pub files: Sequence<NumberList>,
}
