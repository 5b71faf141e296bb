//! The literals of truth values.

ghost use Rattle.std.specs.Prelude.{◌≡◌, cond, IfOk};
ghost use Rattle.vf_closure.specs.Terms.{Compare, term, no_terms, and_term};
ghost use Rattle.vf_core.specs.Shown.{comparison_of};
ghost use Rattle.vf_normal.specs.Comparisons.{literal_of};
ghost use Rattle.vf_normal.specs.NormalForms.{IsNormal};
ghost use Rattle.vf_formula.specs.Literals.{shown_literal};
ghost use Rattle.vf_truths.specs.Truths.{opposite, is_integer, has_truth, equality, other_literal, compared_literal, bare_literal, truth_literal};

use crate::bare::bare;
use std::alloc::Global;
use vf_base::Memory;
use vf_core::Comparison;
use vf_formula::{Head, Kind, Literal, Term, comparison_literal};

/// The comparison that holds where another does not.
fn opposite(operator: Comparison) -> Comparison
    ensures { comparison_of result ≡ opposite (comparison_of operator) }
{
    match operator {
        Comparison::Equal => Comparison::NotEqual,
        Comparison::NotEqual => Comparison::Equal,
        Comparison::Less => Comparison::GreaterEqual,
        Comparison::LessEqual => Comparison::Greater,
        Comparison::Greater => Comparison::LessEqual,
        Comparison::GreaterEqual => Comparison::Less,
    }
}

/// Whether a term is an integer term.
fn is_integer(term: &Term) -> bool
    ensures { result ≡ is_integer term.now }
{
    match term.head.kind() {
        Kind::Integer => true,
        Kind::Other => false,
    }
}

/// A term has a truth value.
fn has_truth(alloc: Global, term: &Term, wanted: bool) -> Result<Literal, Memory>
    ensures { IfOk result (λ l. shown_literal l ≡ has_truth term.now wanted) }
{
    let term = term.copy(alloc)?;
    Ok(Literal::Equal(term, Term::leaf(alloc, Head::Truth(wanted))))
}

/// Two terms are equal, or are not.
fn equality(alloc: Global, left: &Term, right: &Term, wanted: bool) -> Result<Literal, Memory>
    ensures { IfOk result (λ l. shown_literal l ≡ equality left.now right.now wanted) }
{
    if wanted {
        Ok(Literal::Equal(left.copy(alloc)?, right.copy(alloc)?))
    } else {
        Ok(Literal::NotEqual(left.copy(alloc)?, right.copy(alloc)?))
    }
}

/// A comparison of integer terms, or its opposite.
fn ordered(
    alloc: Global,
    operator: Comparison,
    left: &Term,
    right: &Term,
    wanted: bool,
) -> Result<Literal, Memory>
    requires left { IsNormal left.now }
    requires right { IsNormal right.now }
    ensures { IfOk result (λ l. shown_literal l ≡ literal_of (cond wanted (comparison_of operator) (opposite (comparison_of operator))) left.now right.now) }
{
    if wanted {
        comparison_literal(alloc, operator, left, right)
    } else {
        comparison_literal(alloc, opposite(operator), left, right)
    }
}

/// A comparison of terms that are no integer terms has a truth value.
fn other_literal(
    alloc: Global,
    whole: &Term,
    operator: Comparison,
    left: &Term,
    right: &Term,
    wanted: bool,
) -> Result<Literal, Memory>
    requires { whole.now ≡ term (Compare (comparison_of operator)) (and_term left.now (and_term right.now no_terms)) }
    ensures { IfOk result (λ l. shown_literal l ≡ other_literal (comparison_of operator) left.now right.now wanted) }
{
    match operator {
        Comparison::Equal => equality(alloc, left, right, wanted),
        Comparison::NotEqual => equality(alloc, left, right, !wanted),
        _ => has_truth(alloc, whole, wanted),
    }
}

/// A comparison has a truth value.
fn compared_literal(
    alloc: Global,
    whole: &Term,
    operator: Comparison,
    left: &Term,
    right: &Term,
    wanted: bool,
) -> Result<Literal, Memory>
    requires whole { whole.now ≡ term (Compare (comparison_of operator)) (and_term left.now (and_term right.now no_terms)) }
    requires left { IsNormal left.now }
    requires right { IsNormal right.now }
    ensures { IfOk result (λ l. shown_literal l ≡ compared_literal (comparison_of operator) left.now right.now wanted) }
{
    if is_integer(left) && is_integer(right) {
        ordered(alloc, operator, left, right, wanted)
    } else {
        other_literal(alloc, whole, operator, left, right, wanted)
    }
}

/// A term that is no negation and is not compared with a truth value has a truth value.
fn bare_literal(alloc: Global, term: &Term, wanted: bool) -> Result<Literal, Memory>
    requires { IsNormal term.now }
    ensures { IfOk result (λ l. shown_literal l ≡ bare_literal term.now wanted) }
{
    match &term.head {
        Head::Compare(operator) => {
            if term.parts.len() != 2 {
                return has_truth(alloc, term, wanted);
            }
            let parts = term.parts.as_slice();
            compared_literal(alloc, term, *operator, &parts[0], &parts[1], wanted)
        }
        _ => has_truth(alloc, term, wanted),
    }
}

/// The literal that a term in normal form has a truth value.
pub fn truth_literal(alloc: Global, term: &Term, wanted: bool) -> Result<Literal, Memory>
    requires { IsNormal term.now }
    ensures { IfOk result (λ l. shown_literal l ≡ truth_literal term.now wanted) }
{
    let statement = bare(term);
    bare_literal(alloc, statement.subject, statement.is_denied != wanted)
}
