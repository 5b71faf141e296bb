//! What stands around contracts and invariants.

ghost use Rattle.std.specs.Prelude.{◌≡◌};
ghost use Rattle.vf_contracts.specs.Comes as contracts;

use std::alloc::Global;
use vf_declared::ctype::CType;
use vf_sorting::Context;
use vf_sorting::names::sort_of_type;
use vf_sorts::Sort;
use vf_walk::Owner;

/// The sort of `result` where a type is given.
fn result_sort(alloc: Global, given: CType) -> Option<Sort>
    ensures { result ≡ contracts.result_sort given }
{
    match given {
        CType::Void => None,
        _ => Some(sort_of_type(alloc, given)),
    }
}

/// What stands around the precondition of a function or function type.
pub fn around_precondition(owner: Owner) -> Context
    ensures { result ≡ contracts.around_precondition owner }
{
    Context {
        result: None,
        has_this: owner.is_type,
        has_thread: true,
        own: None,
    }
}

/// What stands around its postcondition.
pub fn around_postcondition(alloc: Global, owner: Owner) -> Context
    ensures { result ≡ contracts.around_postcondition owner }
{
    Context {
        result: result_sort(alloc, owner.given),
        has_this: owner.is_type,
        has_thread: true,
        own: None,
    }
}

/// What stands around the invariant of a loop.
pub fn around_invariant() -> Context
    ensures { result ≡ contracts.around_invariant }
{
    Context {
        result: None,
        has_this: false,
        has_thread: true,
        own: None,
    }
}
