//! Operators in terms.

ghost use Rattle.std.specs.Prelude.{◌≡◌, IfOk};
ghost use Rattle.vf_formula.specs.Heads.{shown_head};
ghost use Rattle.vf_terms.specs.Operated.{over_two, operator_head, prefixed_term};
ghost use Rattle.vf_terms.specs.Readings.{beside_by, chosen, chosen_pointer, linked, null_term, paired, prefixed};

use crate::forms::{is_equality, moves, prefix_sort, result_sort};
use crate::reading::{Pair, Reading};
use crate::setting::kind_of_sort;
use std::alloc::Global;
use vf_base::Memory;
use vf_core::{Comparison, Operator};
use vf_formula::{Head, Kind, Term};
use vf_sorting::kinds::{bool_sort, either_any, is_null_beside, pointer_sort, value_sort};
use vf_syntax::operator::{BinaryOperator, UnaryOperator};

/// The null pointer.
pub(crate) fn null_term(alloc: Global) -> Term
    ensures { result ≡ null_term }
{
    Term::leaf(alloc, Head::Null)
}

/// The head of an operator between two operands.
fn operator_head(operator: BinaryOperator) -> Head
    ensures { shown_head result ≡ operator_head operator }
{
    match operator {
        BinaryOperator::Times => Head::Arithmetic(Operator::Multiply),
        BinaryOperator::Divide => Head::Arithmetic(Operator::Divide),
        BinaryOperator::Remainder => Head::Arithmetic(Operator::Remainder),
        BinaryOperator::Plus => Head::Arithmetic(Operator::Add),
        BinaryOperator::Minus => Head::Arithmetic(Operator::Subtract),
        BinaryOperator::Less => Head::Compare(Comparison::Less),
        BinaryOperator::LessOrEqual => Head::Compare(Comparison::LessEqual),
        BinaryOperator::Greater => Head::Compare(Comparison::Greater),
        BinaryOperator::GreaterOrEqual => Head::Compare(Comparison::GreaterEqual),
        BinaryOperator::Equal => Head::Compare(Comparison::Equal),
        BinaryOperator::NotEqual => Head::Compare(Comparison::NotEqual),
        BinaryOperator::And => Head::And,
        BinaryOperator::Or => Head::Or,
    }
}

/// An operator in front of an operand.
pub(crate) fn prefixed(
    alloc: Global,
    operator: UnaryOperator,
    operand: Reading,
) -> Result<Reading, Memory>
    ensures { IfOk result (λ r. r ≡ prefixed operator operand) }
{
    let term = match operator {
        UnaryOperator::Minus => Term::with_two(
            alloc,
            Head::Arithmetic(Operator::Subtract),
            Term::of_number(alloc, 0),
            operand.term,
        )?,
        UnaryOperator::Not => Term::with_one(alloc, Head::Not, operand.term)?,
    };
    Ok(Reading {
        sort: prefix_sort(alloc, operator),
        term,
        next: operand.next,
    })
}

/// A left operand, which is or is not a `0`, beside a right one that is none beside a pointer.
fn paired(alloc: Global, is_null: bool, left: Reading, right: Reading) -> Pair
    ensures { result ≡ paired is_null left right }
{
    let first_sort = left.sort;
    let second_sort = right.sort;
    if is_null_beside(&second_sort, is_null) {
        return Pair {
            first: null_term(alloc),
            second: right.term,
            sort: second_sort,
            next: right.next,
        };
    }
    let are_any = either_any(&first_sort, &second_sort);
    Pair {
        first: left.term,
        second: right.term,
        sort: if are_any {
            value_sort(alloc)
        } else {
            first_sort
        },
        next: right.next,
    }
}

/// A left operand beside a right one, each of which is or is not a `0`.
pub(crate) fn beside(
    alloc: Global,
    is_second_null: bool,
    is_first_null: bool,
    left: Reading,
    right: Reading,
) -> Pair
    ensures { result ≡ beside_by is_second_null is_first_null left right }
{
    if is_null_beside(&left.sort, is_second_null) {
        return Pair {
            first: left.term,
            second: null_term(alloc),
            sort: left.sort,
            next: left.next,
        };
    }
    paired(alloc, is_first_null, left, right)
}

/// What an operator makes of a left and a right operand, each of which is or is not a `0`.
pub(crate) fn linked(
    alloc: Global,
    operator: BinaryOperator,
    is_second_null: bool,
    is_first_null: bool,
    left: Reading,
    right: Reading,
) -> Result<Reading, Memory>
    ensures { IfOk result (λ r. r ≡ linked operator is_second_null is_first_null left right) }
{
    if is_equality(operator) {
        let pair = beside(alloc, is_second_null, is_first_null, left, right);
        let term = Term::with_two(alloc, operator_head(operator), pair.first, pair.second)?;
        return Ok(Reading {
            sort: bool_sort(alloc),
            term,
            next: pair.next,
        });
    }
    if moves(operator, &left.sort) {
        let term = Term::with_two(alloc, Head::PointerSum, left.term, right.term)?;
        return Ok(Reading {
            sort: pointer_sort(alloc),
            term,
            next: right.next,
        });
    }
    let term = Term::with_two(alloc, operator_head(operator), left.term, right.term)?;
    Ok(Reading {
        sort: result_sort(alloc, operator),
        term,
        next: right.next,
    })
}

/// A choice between two terms of a common sort.
pub(crate) fn chosen(alloc: Global, test: Reading, pair: Pair) -> Result<Reading, Memory>
    ensures { IfOk result (λ r. r ≡ chosen test pair) }
{
    let head = Head::Choose(kind_of_sort(&pair.sort));
    let term = Term::with_three(alloc, head, test.term, pair.first, pair.second)?;
    Ok(Reading {
        sort: pair.sort,
        term,
        next: pair.next,
    })
}

/// A choice between two pointers.
pub(crate) fn chosen_pointer(
    alloc: Global,
    test: Reading,
    first: Reading,
    second: Reading,
) -> Result<Reading, Memory>
    ensures { IfOk result (λ r. r ≡ chosen_pointer test first second) }
{
    let head = Head::Choose(Kind::Other);
    let term = Term::with_three(alloc, head, test.term, first.term, second.term)?;
    Ok(Reading {
        sort: pointer_sort(alloc),
        term,
        next: second.next,
    })
}
