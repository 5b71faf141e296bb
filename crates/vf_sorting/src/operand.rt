//! What is kept of a left operand.

use vf_base::Place;
use vf_sorts::Sort;

/// A left operand: whether it is a `0`, which is the null pointer beside a pointer, the place of its first token, and
/// its sort.
#[derive(Drop)]
pub struct Operand {
    pub is_null: bool,
    pub place: Place,
    pub sort: Sort,
}
