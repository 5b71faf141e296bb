//! Operations on terms in normal form.

ghost use Rattle.std.specs.Prelude.{◌≡◌, pos, neg_ℤ, true, false, Some, IfOk, MatchOption};
ghost use Rattle.vf_tree.specs.Core.{Divide, Remainder};
ghost use Rattle.vf_meaning.specs.GhostValues.{computed};
ghost use Rattle.vf_core.specs.Shown.{operator_of};
ghost use Rattle.vf_normal.specs.Sums.{is_small, fits, added, scaled, constant, product_of, combined, operation, calculated};
ghost use Rattle.vf_normal.specs.NormalForms.{IsNormal};
ghost use Rattle.vf_formula.specs.Linears.{IsSum, IsFitted, IsCombined};

use crate::head::Head;
use crate::linear::{Linear, form, times_each, together};
use crate::term::Term;
use std::alloc::Global;
use vf_base::Memory;
use vf_core::Operator;

/// The sum of two sums; none where its number is past 128 bits.
fn added(alloc: Global, left: &Linear, right: &Linear) -> Result<Option<Linear>, Memory>
    requires left_sum { IsSum left.now.atoms }
    requires right_sum { IsSum right.now.atoms }
    ensures { IfOk result (λ o. IsFitted (added left.now right.now) o) }
{
    match left.number.checked_add(right.number) {
        Some(number) => Ok(Some(Linear {
            atoms: together(alloc, &left.atoms, &right.atoms)?,
            number,
        })),
        None => Ok(None),
    }
}

/// A number times a sum; none where a factor or the number of this product is past 128 bits.
fn scaled(alloc: Global, number: i128, sum: &Linear) -> Result<Option<Linear>, Memory>
    ensures { IfOk result (λ o. IsFitted (scaled number sum.now) o) }
{
    match number.checked_mul(sum.number) {
        Some(product) => match times_each(alloc, number, &sum.atoms)? {
            Some(atoms) => Ok(Some(Linear {
                atoms,
                number: product,
            })),
            None => Ok(None),
        },
        None => Ok(None),
    }
}

/// The difference of two sums; none where its number is past 128 bits.
fn subtracted(alloc: Global, left: &Linear, right: &Linear) -> Result<Option<Linear>, Memory>
    requires left_sum { IsSum left.now.atoms }
    requires right_sum { IsSum right.now.atoms }
    ensures { IfOk result (λ o. IsFitted (added left.now (scaled (neg_ℤ (pos 1)) right.now)) o) }
{
    match times_each(alloc, -1, &right.atoms)? {
        Some(negated) => match left.number.checked_sub(right.number) {
            Some(number) => Ok(Some(Linear {
                atoms: together(alloc, &left.atoms, &negated)?,
                number,
            })),
            None => Ok(None),
        },
        None => Ok(None),
    }
}

/// The product of two sums, where one of them is a number.
fn product(alloc: Global, left: &Linear, right: &Linear) -> Result<Option<Linear>, Memory>
    ensures { IfOk result (λ o. IsCombined (product_of left.now.atoms right.now.atoms left.now right.now) o) }
{
    if left.is_number() {
        return scaled(alloc, left.number, right);
    }
    if right.is_number() {
        return scaled(alloc, right.number, left);
    }
    Ok(None)
}

/// The quotient of two numbers, which is 0 where the divisor is 0; none where it is past 128 bits.
fn quotient(dividend: i128, divisor: i128) -> Option<i128>
    ensures { MatchOption result (is_small (computed Divide dividend divisor) ≡ false) (λ z. z ≡ computed Divide dividend divisor) }
{
    if divisor == 0 {
        return Some(0);
    }
    dividend.checked_div(divisor)
}

/// The remainder of two numbers, which is 0 where the divisor is 0.
fn remainder(dividend: i128, divisor: i128) -> i128
    ensures { result ≡ computed Remainder dividend divisor }
{
    if divisor == 0 {
        return 0;
    }
    dividend.wrapping_rem(divisor)
}

/// The quotient of two sums, where both are numbers.
fn divided(alloc: Global, left: &Linear, right: &Linear) -> Option<Linear>
    ensures { IsCombined (combined Divide left.now right.now) result }
{
    if !left.is_number() {
        return None;
    }
    if !right.is_number() {
        return None;
    }
    match quotient(left.number, right.number) {
        Some(number) => Some(Linear::constant(alloc, number)),
        None => None,
    }
}

/// The remainder of two sums, where both are numbers.
fn left_over(alloc: Global, dividend: &Linear, divisor: &Linear) -> Option<Linear>
    ensures { IsCombined (combined Remainder dividend.now divisor.now) result }
{
    if !dividend.is_number() {
        return None;
    }
    if !divisor.is_number() {
        return None;
    }
    Some(Linear::constant(alloc, remainder(dividend.number, divisor.number)))
}

/// What an operator makes of two sums, where it is a sum; none too where that is past 128 bits.
fn combined(
    alloc: Global,
    operator: Operator,
    left: &Linear,
    right: &Linear,
) -> Result<Option<Linear>, Memory>
    requires left_sum { IsSum left.now.atoms }
    requires right_sum { IsSum right.now.atoms }
    ensures { IfOk result (λ o. IsCombined (combined (operator_of operator) left.now right.now) o) }
{
    match operator {
        Operator::Add => added(alloc, left, right),
        Operator::Subtract => subtracted(alloc, left, right),
        Operator::Multiply => product(alloc, left, right),
        Operator::Divide => Ok(divided(alloc, left, right)),
        Operator::Remainder => Ok(left_over(alloc, left, right)),
    }
}

/// An operation on two terms that stays as it is.
fn operation(alloc: Global, operator: Operator, a: &Term, b: &Term) -> Result<Term, Memory>
    ensures { IfOk result (λ t. t ≡ operation (operator_of operator) a.now b.now) }
{
    Term::with_two(
        alloc,
        Head::Arithmetic(operator),
        a.copy(alloc)?,
        b.copy(alloc)?,
    )
}

/// The normal form of an operation on two terms in normal form: a sum, or the operation itself where
/// it comes to no sum within the bounds.
pub fn calculated(alloc: Global, operator: Operator, a: &Term, b: &Term) -> Result<Term, Memory>
    requires left { IsNormal a.now }
    requires right { IsNormal b.now }
    ensures value { IfOk result (λ t. t ≡ calculated (operator_of operator) a.now b.now) }
    ensures normal { IfOk result IsNormal }
{
    let left = form(alloc, a)?;
    let right = form(alloc, b)?;
    match combined(alloc, operator, &left, &right)? {
        Some(sum) => {
            if sum.fits() {
                sum.term(alloc)
            } else {
                operation(alloc, operator, a, b)
            }
        }
        None => operation(alloc, operator, a, b),
    }
}
