//! Kinds of sorts.

ghost use Rattle.std.specs.Prelude.{◌≡◌, ◌&&◌, ◌||◌, IfOk};
ghost use Rattle.vf_sorting.specs.Kinds.{bool_sort, datatype_sort, int_sort, is_any, is_pointer, is_predicate, parameter_sorts, pointer_sort, predicate_sort, value_sort};

use std::alloc::Global;
use vf_base::Memory;
use vf_sorts::{Head, Sort, SortList};

/// Integers of every size.
pub fn int_sort(alloc: Global) -> Sort
    ensures { result ≡ int_sort }
{
    Sort::leaf(alloc, Head::Int)
}

/// Truth values.
pub fn bool_sort(alloc: Global) -> Sort
    ensures { result ≡ bool_sort }
{
    Sort::leaf(alloc, Head::Bool)
}

/// Pointers that tell no struct.
pub fn pointer_sort(alloc: Global) -> Sort
    ensures { result ≡ pointer_sort }
{
    Sort::leaf(alloc, Head::Pointer(None))
}

/// Values of every sort.
pub fn value_sort(alloc: Global) -> Sort
    ensures { result ≡ value_sort }
{
    Sort::leaf(alloc, Head::Any)
}

/// Whether it is a sort of pointers.
pub fn is_pointer(sort: &Sort) -> bool
    ensures { result ≡ is_pointer sort.now }
{
    match sort.head {
        Head::Pointer(_) => true,
        _ => false,
    }
}

/// Whether it is the sort of all values.
pub fn is_any(sort: &Sort) -> bool
    ensures { result ≡ is_any sort.now }
{
    match sort.head {
        Head::Any => true,
        _ => false,
    }
}

/// Whether a `0`, if it is one, is the null pointer beside something of a sort.
pub fn is_null_beside(sort: &Sort, is_null: bool) -> bool
    ensures { result ≡ (is_pointer sort.now && is_null) }
{
    is_pointer(sort) && is_null
}

/// Whether one of two sorts is that of all values.
pub fn either_any(first: &Sort, second: &Sort) -> bool
    ensures { result ≡ (is_any first.now || is_any second.now) }
{
    is_any(first) || is_any(second)
}

/// Whether it is a sort of predicates.
pub fn is_predicate(sort: &Sort) -> bool
    ensures { result ≡ is_predicate sort.now }
{
    match sort.head {
        Head::Predicate => true,
        _ => false,
    }
}

/// A datatype at so many type parameters of its own.
pub fn datatype_sort(alloc: Global, number: usize, parameters: usize) -> Result<Sort, Memory>
    ensures { IfOk result (λ t. t ≡ datatype_sort number parameters) }
{
    let mut parts = SortList::new(alloc);
    for parameter in 0..parameters {
        parts.push(Sort::leaf(alloc, Head::Parameter(parameter)))?;
    }
    Ok(Sort::new(Head::Datatype(number), parts))
}

/// Predicates over arguments of these sorts.
pub fn predicate_sort(alloc: Global, arguments: &SortList) -> Result<Sort, Memory>
    ensures { IfOk result (λ t. t ≡ predicate_sort arguments.now) }
{
    let arguments = arguments.copy(alloc)?;
    Ok(Sort::new(Head::Predicate, arguments))
}
