//! The literals that are asked for.

ghost use Rattle.std.specs.Prelude.{◌≡◌};
ghost use Rattle.vf_asking.specs.Plain.{CanBeAsked};
ghost use Rattle.vf_exec.specs.Literals.{at_most_of, equal_of, truth_of};
ghost use Rattle.vf_exec.specs.Small.{IsSmall};
ghost use Rattle.vf_formula.specs.Literals.{shown_literal};

use std::alloc::Global;
use vf_formula::{Head, Literal, Term};

/// `a <= b`: both sides have no atoms, and 0 less 0 is at most `b - a`.
pub(crate) fn at_most(alloc: Global, a: i128, b: i128) -> Literal
    requires left { IsSmall a }
    requires right { IsSmall b }
    ensures value { shown_literal result ≡ at_most_of a b }
    ensures plain { CanBeAsked (shown_literal result) }
{
    Literal::AtMost(Term::of_number(alloc, 0), Term::of_number(alloc, 0), b - a)
}

/// `a == b`: 0 less 0 is `b - a`.
pub(crate) fn equal(alloc: Global, a: i128, b: i128) -> Literal
    requires left { IsSmall a }
    requires right { IsSmall b }
    ensures value { shown_literal result ≡ equal_of a b }
    ensures plain { CanBeAsked (shown_literal result) }
{
    Literal::Difference(Term::of_number(alloc, 0), Term::of_number(alloc, 0), b - a)
}

/// That a truth value is true.
pub(crate) fn truth(alloc: Global, value: bool) -> Literal
    ensures value { shown_literal result ≡ truth_of value }
    ensures plain { CanBeAsked (shown_literal result) }
{
    let value = Term::leaf(alloc, Head::Truth(value));
    Literal::Equal(value, Term::leaf(alloc, Head::Truth(true)))
}
