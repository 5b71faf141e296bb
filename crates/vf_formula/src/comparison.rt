//! The literals of comparisons.

ghost use Rattle.std.specs.Prelude.{◌≡◌, pos, neg_ℤ, ◌-ℤ◌, true, [], ◌∷◌, ◌++◌, IfOk, OnOk};
ghost use Rattle.vf_core.specs.Shown.{comparison_of};
ghost use Rattle.vf_normal.specs.Sums.{is_small, number_in, times_each, sum_of};
ghost use Rattle.vf_normal.specs.Normal.{comparison};
ghost use Rattle.vf_normal.specs.NormalForms.{IsNormal};
ghost use Rattle.vf_normal.specs.Comparisons.{difference, above, below, below_nought, at_most_nought, is_nought, is_not_nought, difference_literal, is_true_literal, literal_of};
ghost use Rattle.vf_formula.specs.Linears.{IsSum, IsWide, AreWide, IsDifference};
ghost use Rattle.vf_formula.specs.Literals.{shown_literal};

use crate::head::Head;
use crate::linear::{Linear, Weighted, form, is_small, sum, times_each, together};
use crate::literal::Literal;
use crate::normal::comparison;
use crate::term::Term;
use std::alloc::Global;
use vf_base::Memory;
use vf_core::Comparison;

/// Atoms with small factors, each with its factor's opposite.
fn negated(alloc: Global, atoms: &[Weighted]) -> Result<Vec<Weighted>, Memory>
    requires { IsSum atoms.now }
    ensures value { IfOk result (λ all. all.items ≡ times_each (neg_ℤ (pos 1)) atoms.now) }
    ensures sum { IfOk result (λ all. IsSum all.items) }
{
    match times_each(alloc, -1, atoms)? {
        Some(all) => Ok(all),
        None => unreachable!(),
    }
}

/// The first of two small numbers less the second.
fn less(left: i128, right: i128) -> i128
    requires left { is_small left ≡ true }
    requires right { is_small right ≡ true }
    ensures value { result ≡ left -ℤ right }
    ensures wide { IsWide result }
{
    left - right
}

/// The first of two sums less the second.
fn difference(alloc: Global, left: &Linear, right: &Linear) -> Result<Linear, Memory>
    requires left_sum { IsSum left.now.atoms }
    requires right_sum { IsSum right.now.atoms }
    requires left_number { is_small left.now.number ≡ true }
    requires right_number { is_small right.now.number ≡ true }
    ensures value { IfOk result (λ f. f ≡ difference left.now right.now) }
    ensures wide { IfOk result IsDifference }
{
    let negated = negated(alloc, &right.atoms)?;
    Ok(Linear {
        atoms: together(alloc, &left.atoms, &negated)?,
        number: less(left.number, right.number),
    })
}

/// Puts an atom at the end if its factor is above 0.
fn put_above(alloc: Global, all: &mut Vec<Weighted>, weighted: &Weighted) -> Result<(), Memory>
    ensures { OnOk result (all.new.items ≡ all.old.items ++ above (weighted.now ∷ [])) }
{
    if weighted.factor > 0 {
        all.push(Weighted {
            factor: weighted.factor,
            atom: weighted.atom.copy(alloc)?,
        })?;
    }
    Ok(())
}

/// The atoms whose factors are above 0.
fn above(alloc: Global, atoms: &[Weighted]) -> Result<Vec<Weighted>, Memory>
    ensures { IfOk result (λ all. all.items ≡ above atoms.now) }
{
    let mut all = Vec::new(alloc);
    for weighted in atoms {
        put_above(alloc, &mut all, weighted)?;
    }
    Ok(all)
}

/// Puts an atom at the end if its factor is below 0, with its factor without the sign.
fn put_below(alloc: Global, all: &mut Vec<Weighted>, weighted: &Weighted) -> Result<(), Memory>
    requires { IsWide weighted.now.factor }
    ensures { OnOk result (all.new.items ≡ all.old.items ++ below (weighted.now ∷ [])) }
{
    if weighted.factor < 0 {
        all.push(Weighted {
            factor: -weighted.factor,
            atom: weighted.atom.copy(alloc)?,
        })?;
    }
    Ok(())
}

/// The atoms whose factors are below 0, each with its factor without the sign.
fn below(alloc: Global, atoms: &[Weighted]) -> Result<Vec<Weighted>, Memory>
    requires { AreWide atoms.now }
    ensures { IfOk result (λ all. all.items ≡ below atoms.now) }
{
    let mut all = Vec::new(alloc);
    for weighted in atoms {
        put_below(alloc, &mut all, weighted)?;
    }
    Ok(all)
}

/// The sum of the atoms whose factors are above 0.
fn sum_above(alloc: Global, atoms: &[Weighted]) -> Result<Term, Memory>
    ensures { IfOk result (λ t. t ≡ sum_of (above atoms.now)) }
{
    let atoms = above(alloc, atoms)?;
    sum(alloc, &atoms)
}

/// The sum of the atoms whose factors are below 0, each with its factor without the sign.
fn sum_below(alloc: Global, atoms: &[Weighted]) -> Result<Term, Memory>
    requires { AreWide atoms.now }
    ensures { IfOk result (λ t. t ≡ sum_of (below atoms.now)) }
{
    let atoms = below(alloc, atoms)?;
    sum(alloc, &atoms)
}

/// That a sum is less than 0.
fn below_nought(alloc: Global, whole: &Linear) -> Result<Literal, Memory>
    requires { IsDifference whole.now }
    ensures { IfOk result (λ l. shown_literal l ≡ below_nought whole.now) }
{
    let above = sum_above(alloc, &whole.atoms)?;
    let below = sum_below(alloc, &whole.atoms)?;
    Ok(Literal::AtMost(above, below, -whole.number - 1))
}

/// That a sum is at most 0.
fn at_most_nought(alloc: Global, whole: &Linear) -> Result<Literal, Memory>
    requires { IsDifference whole.now }
    ensures { IfOk result (λ l. shown_literal l ≡ at_most_nought whole.now) }
{
    let above = sum_above(alloc, &whole.atoms)?;
    let below = sum_below(alloc, &whole.atoms)?;
    Ok(Literal::AtMost(above, below, -whole.number))
}

/// That a sum is 0.
fn is_nought(alloc: Global, whole: &Linear) -> Result<Literal, Memory>
    requires { IsDifference whole.now }
    ensures { IfOk result (λ l. shown_literal l ≡ is_nought whole.now) }
{
    let above = sum_above(alloc, &whole.atoms)?;
    let below = sum_below(alloc, &whole.atoms)?;
    Ok(Literal::Difference(above, below, -whole.number))
}

/// That a sum is not 0.
fn is_not_nought(alloc: Global, whole: &Linear) -> Result<Literal, Memory>
    requires { IsDifference whole.now }
    ensures { IfOk result (λ l. shown_literal l ≡ is_not_nought whole.now) }
{
    let above = sum_above(alloc, &whole.atoms)?;
    let below = sum_below(alloc, &whole.atoms)?;
    Ok(Literal::NotDifference(above, below, -whole.number))
}

/// The literal of a comparison of two sums, by their difference.
fn by_difference(
    alloc: Global,
    operator: Comparison,
    left: &Linear,
    right: &Linear,
) -> Result<Literal, Memory>
    requires left_sum { IsSum left.now.atoms }
    requires right_sum { IsSum right.now.atoms }
    requires left_number { is_small left.now.number ≡ true }
    requires right_number { is_small right.now.number ≡ true }
    ensures { IfOk result (λ l. shown_literal l ≡ difference_literal (comparison_of operator) left.now right.now) }
{
    match operator {
        Comparison::Equal => is_nought(alloc, &difference(alloc, left, right)?),
        Comparison::NotEqual => is_not_nought(alloc, &difference(alloc, left, right)?),
        Comparison::Less => below_nought(alloc, &difference(alloc, left, right)?),
        Comparison::LessEqual => at_most_nought(alloc, &difference(alloc, left, right)?),
        Comparison::Greater => below_nought(alloc, &difference(alloc, right, left)?),
        Comparison::GreaterEqual => at_most_nought(alloc, &difference(alloc, right, left)?),
    }
}

/// That a comparison of two terms in normal form is true, as a term.
fn is_true(
    alloc: Global,
    operator: Comparison,
    left: &Term,
    right: &Term,
) -> Result<Literal, Memory>
    ensures { IfOk result (λ l. shown_literal l ≡ is_true_literal (comparison (comparison_of operator) left.now right.now (number_in left.now) (number_in right.now))) }
{
    let compared = comparison(alloc, operator, left.copy(alloc)?, right.copy(alloc)?)?;
    Ok(Literal::Equal(compared, Term::leaf(alloc, Head::Truth(true))))
}

/// The literal of a comparison of two integer terms in normal form.
pub fn comparison_literal(
    alloc: Global,
    operator: Comparison,
    left: &Term,
    right: &Term,
) -> Result<Literal, Memory>
    requires left { IsNormal left.now }
    requires right { IsNormal right.now }
    ensures { IfOk result (λ l. shown_literal l ≡ literal_of (comparison_of operator) left.now right.now) }
{
    let first = form(alloc, left)?;
    let second = form(alloc, right)?;
    if !is_small(first.number) {
        return is_true(alloc, operator, left, right);
    }
    if !is_small(second.number) {
        return is_true(alloc, operator, left, right);
    }
    by_difference(alloc, operator, &first, &second)
}
