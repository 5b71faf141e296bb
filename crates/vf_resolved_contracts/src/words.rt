//! The symbols of words that annotations have.

ghost use Rattle.std.specs.Prelude.{◌≡◌};
ghost use Rattle.vf_resolved_contracts.specs.Reading.{result_symbol, this_symbol, thread_symbol};

use std::alloc::Global;
use vf_formula::{Head, Kind, Name, Term};
use vf_sorting::Context;
use vf_terms::setting::kind_of_sort;

/// The symbol of `result`, of the kind of its sort.
pub fn result_symbol(alloc: Global, context: &Context) -> Term
    ensures { result ≡ result_symbol context.now }
{
    let kind = match &context.result {
        Some(sort) => kind_of_sort(sort),
        None => Kind::Integer,
    };
    Term::leaf(alloc, Head::Symbol(kind, Name::Result))
}

/// The symbol of `this`.
pub fn this_symbol(alloc: Global) -> Term
    ensures { result ≡ this_symbol }
{
    Term::leaf(alloc, Head::Symbol(Kind::Other, Name::This))
}

/// The symbol of `currentThread`.
pub fn thread_symbol(alloc: Global) -> Term
    ensures { result ≡ thread_symbol }
{
    Term::leaf(alloc, Head::Symbol(Kind::Integer, Name::CurrentThread))
}
