//! Literals whose numbers are small.

ghost use Rattle.std.specs.Prelude.{◌≡◌, ◌^◌, ◌↔◌, map, All, IsTrue};
ghost use Rattle.vf_arith.specs.Paths.{IsSmall};
ghost use Rattle.vf_closure.specs.Literals.{IsInteger};
ghost use Rattle.vf_formula.specs.Heads.{shown_head};
ghost use Rattle.vf_formula.specs.Literals.{shown_literal};
ghost use Rattle.vf_formula.specs.Rows.{row};
ghost use Rattle.vf_question.specs.Plain.{IsPlainOver, IsPlain, IsPlainLiteral};

use vf_arith::is_small;
use vf_formula::{Head, Kind, Literal, Term, TermList};

/// Whether a head is no number, or a small one without parts.
fn is_plain_over(head: &Head, parts: &TermList) -> bool
    ensures { IsTrue result ↔ IsPlainOver (shown_head head.now) (row parts.now) }
{
    match head {
        Head::Number(z) => {
            if !parts.is_empty() {
                return false;
            }
            is_small(*z)
        }
        _ => true,
    }
}

/// Whether each number that stands in a term has no parts and is small.
pub fn is_plain(term: &Term) -> bool
    ensures { IsTrue result ↔ IsPlain term.now }
{
    if !is_plain_over(&term.head, &term.parts) {
        return false;
    }
    for part in term.parts.as_slice() {
        if !is_plain(part) {
            return false;
        }
    }
    true
}

/// Whether a term is an integer term.
fn is_integer(term: &Term) -> bool
    ensures { IsTrue result ↔ IsInteger term.now }
{
    match term.head.kind() {
        Kind::Integer => true,
        Kind::Other => false,
    }
}

/// Whether two terms are plain.
fn are_both_plain(a: &Term, b: &Term) -> bool
    ensures { IsTrue result ↔ IsPlain a.now × IsPlain b.now }
{
    if !is_plain(a) {
        return false;
    }
    is_plain(b)
}

/// Whether two terms are plain integer terms, and a number is small.
fn is_plain_bound(p: &Term, n: &Term, c: i128) -> bool
    ensures { IsTrue result ↔ IsPlain p.now × IsPlain n.now × IsInteger p.now × IsInteger n.now × IsSmall (2 ^ 100) c }
{
    if !are_both_plain(p, n) {
        return false;
    }
    if !is_integer(p) {
        return false;
    }
    if !is_integer(n) {
        return false;
    }
    is_small(c)
}

/// Whether a literal is between plain terms, and a bound between integer terms with a small number.
pub fn is_plain_literal(literal: &Literal) -> bool
    ensures { IsTrue result ↔ IsPlainLiteral (shown_literal literal.now) }
{
    match literal {
        Literal::Equal(a, b) => are_both_plain(a, b),
        Literal::NotEqual(a, b) => are_both_plain(a, b),
        Literal::AtMost(p, n, c) => is_plain_bound(p, n, *c),
        Literal::Difference(p, n, c) => is_plain_bound(p, n, *c),
        Literal::NotDifference(p, n, c) => is_plain_bound(p, n, *c),
        Literal::False => true,
    }
}

/// Whether each literal is between plain terms, and each bound between integer terms with a small
/// number.
pub fn are_plain(literals: &[Literal]) -> bool
    ensures { IsTrue result ↔ All IsPlainLiteral (map shown_literal literals.now) }
{
    for literal in literals {
        if !is_plain_literal(literal) {
            return false;
        }
    }
    true
}
