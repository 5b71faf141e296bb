//! Comparisons, connectives and choices.

ghost use Rattle.std.specs.Prelude.{◌≡◌, IfOk, false};
ghost use Rattle.vf_sorting.specs.Kinds.{bool_sort};
ghost use Rattle.vf_terms.specs.Readings.{null_term};
ghost use Rattle.vf_resolved.specs.TruthTree as truths;
ghost use Rattle.vf_resolved_parts.specs.Names.{is_truth};
ghost use Rattle.vf_resolved_parts.specs.Truths.{as_side, both, choice, compared, comparison_in, denied, either, equated, of_side, related, whole, whole_side};

use crate::truth_reading::{Side, TruthReading};
use std::alloc::Global;
use vf_base::Memory;
use vf_core::Comparison;
use vf_formula::{Head, Term};
use vf_resolved::truth::{Truth, TruthNode};
use vf_sorting::kinds::{bool_sort, is_null_beside};
use vf_sorts::{Head as SortHead, Sort};
use vf_syntax::operator::BinaryOperator;
use vf_terms::Reading;

/// A value, which is no more told apart.
pub(crate) fn value(term: Term) -> Truth
    ensures { result ≡ truths.value term }
{
    Truth {
        node: TruthNode::Value(term),
    }
}

/// A term, which is no more told apart.
pub(crate) fn whole(reading: Reading) -> TruthReading
    ensures { result ≡ whole reading }
{
    TruthReading {
        truth: value(reading.term),
        next: reading.next,
    }
}

/// The same beside a comparison.
pub(crate) fn whole_side(reading: Reading) -> Side
    ensures { result ≡ whole_side reading }
{
    Side {
        truth: value(reading.term),
        sort: reading.sort,
        next: reading.next,
    }
}

/// The comparison of an operator.
fn comparison_in(operator: BinaryOperator) -> Comparison
    ensures { result ≡ comparison_in operator }
{
    match operator {
        BinaryOperator::NotEqual => Comparison::NotEqual,
        BinaryOperator::Less => Comparison::Less,
        BinaryOperator::LessOrEqual => Comparison::LessEqual,
        BinaryOperator::Greater => Comparison::Greater,
        BinaryOperator::GreaterOrEqual => Comparison::GreaterEqual,
        _ => Comparison::Equal,
    }
}

/// A comparison of two sides, and whether both are truth values.
fn comparison(
    alloc: Global,
    operator: BinaryOperator,
    of_truths: bool,
    left: Truth,
    right: Truth,
) -> Result<Truth, Memory>
    ensures { IfOk result (λ x. x ≡ truths.comparison (comparison_in operator) of_truths left right) }
{
    let left = Box::new(alloc, left)?;
    let right = Box::new(alloc, right)?;
    Ok(Truth {
        node: TruthNode::Comparison(comparison_in(operator), of_truths, left, right),
    })
}

/// Two numbers beside an operator.
pub(crate) fn related(
    alloc: Global,
    operator: BinaryOperator,
    left: Reading,
    right: Reading,
) -> Result<TruthReading, Memory>
    ensures { IfOk result (λ x. x ≡ related operator left right) }
{
    let truth = comparison(alloc, operator, false, value(left.term), value(right.term))?;
    Ok(TruthReading {
        truth,
        next: right.next,
    })
}

/// Two sides of `==` or `!=`, and whether both are truth values.
fn equated(
    alloc: Global,
    operator: BinaryOperator,
    of_truths: bool,
    left: Truth,
    right: Truth,
    next: usize,
) -> Result<Side, Memory>
    ensures { IfOk result (λ x. x ≡ equated operator of_truths left right next) }
{
    let truth = comparison(alloc, operator, of_truths, left, right)?;
    Ok(Side {
        truth,
        sort: bool_sort(alloc),
        next,
    })
}

/// Whether it is the sort of truth values.
fn is_truth(sort: &Sort) -> bool
    ensures { result ≡ is_truth sort.now }
{
    match sort.head {
        SortHead::Bool => true,
        _ => false,
    }
}

/// The null pointer.
fn null_value(alloc: Global) -> Truth
    ensures { result ≡ truths.value null_term }
{
    value(Term::leaf(alloc, Head::Null))
}

/// A left side beside a right one, each of which is or is not a `0`.
pub(crate) fn compared(
    alloc: Global,
    operator: BinaryOperator,
    is_second_null: bool,
    is_first_null: bool,
    left: Side,
    right: Side,
) -> Result<Side, Memory>
    ensures { IfOk result (λ x. x ≡ compared operator is_second_null is_first_null left right) }
{
    if is_null_beside(&left.sort, is_second_null) {
        return equated(
            alloc,
            operator,
            false,
            left.truth,
            null_value(alloc),
            right.next,
        );
    }
    if is_null_beside(&right.sort, is_first_null) {
        return equated(
            alloc,
            operator,
            false,
            null_value(alloc),
            right.truth,
            right.next,
        );
    }
    let are_truths = is_truth(&left.sort) && is_truth(&right.sort);
    equated(
        alloc,
        operator,
        are_truths,
        left.truth,
        right.truth,
        right.next,
    )
}

/// A comparison as a truth value.
pub(crate) fn of_side(side: Side) -> TruthReading
    ensures { result ≡ of_side side }
{
    TruthReading {
        truth: side.truth,
        next: side.next,
    }
}

/// A truth value as a side.
pub(crate) fn as_side(alloc: Global, reading: TruthReading) -> Side
    ensures { result ≡ as_side reading }
{
    Side {
        truth: reading.truth,
        sort: bool_sort(alloc),
        next: reading.next,
    }
}

/// `!a`
pub(crate) fn denied(alloc: Global, inner: TruthReading) -> Result<TruthReading, Memory>
    ensures { IfOk result (λ x. x ≡ denied inner) }
{
    let truth = Box::new(alloc, inner.truth)?;
    Ok(TruthReading {
        truth: Truth {
            node: TruthNode::Not(truth),
        },
        next: inner.next,
    })
}

/// `a && b`
pub(crate) fn both(
    alloc: Global,
    left: TruthReading,
    right: TruthReading,
) -> Result<TruthReading, Memory>
    ensures { IfOk result (λ x. x ≡ both left right) }
{
    let first = Box::new(alloc, left.truth)?;
    let second = Box::new(alloc, right.truth)?;
    Ok(TruthReading {
        truth: Truth {
            node: TruthNode::And(first, second),
        },
        next: right.next,
    })
}

/// `a || b`
pub(crate) fn either(
    alloc: Global,
    left: TruthReading,
    right: TruthReading,
) -> Result<TruthReading, Memory>
    ensures { IfOk result (λ x. x ≡ either left right) }
{
    let first = Box::new(alloc, left.truth)?;
    let second = Box::new(alloc, right.truth)?;
    Ok(TruthReading {
        truth: Truth {
            node: TruthNode::Or(first, second),
        },
        next: right.next,
    })
}

/// `(c ? a : b)`
pub(crate) fn choice(
    alloc: Global,
    test: TruthReading,
    yes: TruthReading,
    no: TruthReading,
) -> Result<TruthReading, Memory>
    ensures { IfOk result (λ x. x ≡ choice test yes no) }
{
    let first = Box::new(alloc, test.truth)?;
    let second = Box::new(alloc, yes.truth)?;
    let third = Box::new(alloc, no.truth)?;
    Ok(TruthReading {
        truth: Truth {
            node: TruthNode::Choice(first, second, third),
        },
        next: no.next,
    })
}
