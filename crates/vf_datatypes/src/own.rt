//! A datatype that is being declared.

use vf_base::Place;
use vf_names::Names;

/// A datatype that is being declared: the place of its name, its number among the datatypes of the unit, and its type
/// parameters.
#[derive(Drop)]
pub struct Own {
    pub place: Place,
    pub number: usize,
    pub parameters: Names,
}
