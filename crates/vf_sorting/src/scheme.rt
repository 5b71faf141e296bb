//! What names may be used at.

use vf_sorts::{Sort, SortList};

/// What a name may be used at: the sorts of what it is applied to, and that of the whole, with so many type parameters
/// for which each use has sorts of its own.
#[derive(Drop)]
pub struct Scheme {
    pub parameters: usize,
    pub arguments: SortList,
    pub result: Sort,
}
