//! The normal form of a term.

ghost use Rattle.std.specs.Prelude.{◌≡◌, IfOk, OnOk, IsErrOf};
ghost use Rattle.vf_tree.specs.Core.{Add, Multiply};
ghost use Rattle.vf_model.specs.Values as values;
ghost use Rattle.vf_meaning.specs.GhostValues.{compared};
ghost use Rattle.vf_closure.specs.Terms.{Arithmetic, Compare, Choose, PointerSum, number, term};
ghost use Rattle.vf_core.specs.Shown.{operator_of, comparison_of};
ghost use Rattle.vf_normal.specs.Sums.{number_in, calculated};
ghost use Rattle.vf_normal.specs.Normal.{part_at, added_up, comparison, as_kind, choice, moved, pointer_sum, normal_over, normal, all_normal};
ghost use Rattle.vf_normal.specs.NormalForms.{AllNormal, IsNormal};
ghost use Rattle.vf_formula.specs.Rows.{row};
ghost use Rattle.vf_formula.specs.Heads.{shown_kind, shown_head};
ghost use Rattle.vf_formula.specs.Shares.{KeepsOver, KeepsFractions, AllKeepFractions};

use crate::calculation::calculated;
use crate::head::{Head, Kind};
use crate::linear::as_integer;
use crate::share::{NormalFault, shared};
use crate::term::{Term, TermList};
use std::alloc::Global;
use vf_base::Memory;
use vf_core::{Comparison, Operator};

/// The part at a place, counted from 0; where there is none, the number 0.
fn part(alloc: Global, parts: &TermList, at: usize) -> Result<Term, Memory>
    requires { AllNormal (row parts.now) }
    ensures value { IfOk result (λ t. t ≡ part_at (row parts.now) at) }
    ensures normal { IfOk result IsNormal }
{
    match parts.get(at) {
        Some(part) => part.copy(alloc),
        None => Ok(Term::of_number(alloc, 0)),
    }
}

/// A term in normal form times its factor, and a sum in normal form.
fn one_added(alloc: Global, factor: i128, part: &Term, sum: &Term) -> Result<Term, Memory>
    requires part { IsNormal part.now }
    requires sum { IsNormal sum.now }
    ensures value { IfOk result (λ t. t ≡ calculated Add (calculated Multiply (number factor) part.now) sum.now) }
    ensures normal { IfOk result IsNormal }
{
    let factor = Term::of_number(alloc, factor);
    let product = calculated(alloc, Operator::Multiply, &factor, part)?;
    calculated(alloc, Operator::Add, &product, sum)
}

/// Terms in normal form times their factors added up.
fn added_up(alloc: Global, factors: &[i128], parts: &TermList) -> Result<Term, Memory>
    requires { AllNormal (row parts.now) }
    ensures value { IfOk result (λ t. t ≡ added_up factors.now (row parts.now)) }
    ensures normal { IfOk result IsNormal }
{
    let mut sum = Term::of_number(alloc, 0);
    for i in (0..factors.len().min(parts.len())).rev() {
        sum = one_added(alloc, factors[i], &parts.as_slice()[i], &sum)?;
    }
    Ok(sum)
}

/// What a comparison says of two numbers.
fn compared(comparison: Comparison, left: i128, right: i128) -> bool
    ensures { result ≡ compared (comparison_of comparison) (values.Number left) (values.Number right) }
{
    match comparison {
        Comparison::Equal => left == right,
        Comparison::NotEqual => left != right,
        Comparison::Less => left < right,
        Comparison::LessEqual => left <= right,
        Comparison::Greater => left > right,
        Comparison::GreaterEqual => left >= right,
    }
}

/// A comparison of two terms in normal form: of two numbers its truth value.
pub(crate) fn comparison(
    alloc: Global,
    operator: Comparison,
    left: Term,
    right: Term,
) -> Result<Term, Memory>
    ensures { IfOk result (λ t. t ≡ comparison (comparison_of operator) left right (number_in left) (number_in right)) }
{
    match left.number() {
        Some(a) => match right.number() {
            Some(b) => Ok(Term::leaf(alloc, Head::Truth(compared(operator, a, b)))),
            None => Term::with_two(alloc, Head::Compare(operator), left, right),
        },
        None => Term::with_two(alloc, Head::Compare(operator), left, right),
    }
}

/// A term as a term of a kind.
fn as_kind(alloc: Global, kind: Kind, whole: Term) -> Result<Term, Memory>
    ensures { IfOk result (λ t. t ≡ as_kind (shown_kind kind) whole) }
{
    match kind {
        Kind::Integer => as_integer(alloc, whole),
        Kind::Other => Ok(whole),
    }
}

/// A conditional of terms in normal form: on a truth value the branch that this chooses.
fn choice(
    alloc: Global,
    kind: Kind,
    condition: Term,
    first: Term,
    second: Term,
) -> Result<Term, Memory>
    ensures { IfOk result (λ t. t ≡ choice (shown_kind kind) condition first second) }
{
    match condition.truth() {
        Some(true) => as_kind(alloc, kind, first),
        Some(false) => as_kind(alloc, kind, second),
        None => Term::with_three(alloc, Head::Choose(kind), condition, first, second),
    }
}

/// A pointer and an offset: with offset 0 it is the pointer.
fn moved(alloc: Global, pointer: Term, offset: Term) -> Result<Term, Memory>
    ensures { IfOk result (λ t. t ≡ moved pointer offset (number_in offset)) }
{
    match offset.number() {
        Some(0) => Ok(pointer),
        _ => Term::with_two(alloc, Head::PointerSum, pointer, offset),
    }
}

/// A pointer's sum in normal form, given by its parts, and an offset more.
fn further(alloc: Global, parts: &TermList, offset: &Term) -> Result<Term, Memory>
    requires sum { IsNormal (term PointerSum (row parts.now)) }
    requires offset { IsNormal offset.now }
    ensures { IfOk result (λ t. t ≡ pointer_sum (term PointerSum (row parts.now)) offset.now) }
{
    let pointer = part(alloc, parts, 0)?;
    let first = part(alloc, parts, 1)?;
    let whole = calculated(alloc, Operator::Add, &first, offset)?;
    moved(alloc, pointer, whole)
}

/// A pointer's sum of terms in normal form: of a pointer's sum it adds the offsets.
fn pointer_sum(alloc: Global, pointer: Term, offset: Term) -> Result<Term, Memory>
    requires pointer { IsNormal pointer }
    requires offset { IsNormal offset }
    ensures { IfOk result (λ t. t ≡ pointer_sum pointer offset) }
{
    match &pointer.head {
        Head::PointerSum => further(alloc, &pointer.parts, &offset),
        _ => moved(alloc, pointer, offset),
    }
}

/// An operation over parts in normal form.
fn operation_over(alloc: Global, operator: Operator, parts: &TermList) -> Result<Term, Memory>
    requires { AllNormal (row parts.now) }
    ensures { IfOk result (λ t. t ≡ normal_over (Arithmetic (operator_of operator)) (row parts.now)) }
{
    let left = part(alloc, parts, 0)?;
    let right = part(alloc, parts, 1)?;
    calculated(alloc, operator, &left, &right)
}

/// A comparison over parts in normal form.
fn comparison_over(alloc: Global, operator: Comparison, parts: &TermList) -> Result<Term, Memory>
    requires { AllNormal (row parts.now) }
    ensures { IfOk result (λ t. t ≡ normal_over (Compare (comparison_of operator)) (row parts.now)) }
{
    let left = part(alloc, parts, 0)?;
    let right = part(alloc, parts, 1)?;
    comparison(alloc, operator, left, right)
}

/// A conditional over parts in normal form.
fn choice_over(alloc: Global, kind: Kind, parts: &TermList) -> Result<Term, Memory>
    requires { AllNormal (row parts.now) }
    ensures { IfOk result (λ t. t ≡ normal_over (Choose (shown_kind kind)) (row parts.now)) }
{
    let condition = part(alloc, parts, 0)?;
    let first = part(alloc, parts, 1)?;
    let second = part(alloc, parts, 2)?;
    choice(alloc, kind, condition, first, second)
}

/// A pointer's sum over parts in normal form.
fn pointer_sum_over(alloc: Global, parts: &TermList) -> Result<Term, Memory>
    requires { AllNormal (row parts.now) }
    ensures { IfOk result (λ t. t ≡ normal_over PointerSum (row parts.now)) }
{
    let pointer = part(alloc, parts, 0)?;
    let offset = part(alloc, parts, 1)?;
    pointer_sum(alloc, pointer, offset)
}

/// The normal form of a head over parts in normal form.
fn normal_over(alloc: Global, head: Head, parts: TermList) -> Result<Term, NormalFault>
    requires { AllNormal (row parts) }
    ensures value { IfOk result (λ t. t ≡ normal_over (shown_head head) (row parts)) }
    ensures kept { OnOk result (KeepsOver (shown_head head) (row parts)) }
    ensures fraction { IsErrOf result NormalFault.Fraction → KeepsOver (shown_head head) (row parts) → ⊥ }
{
    match head {
        Head::Number(number) => Ok(Term::of_number(alloc, number)),
        Head::Sum(factors) => Ok(added_up(alloc, factors.as_slice(), &parts)?),
        Head::Plus => Ok(operation_over(alloc, Operator::Add, &parts)?),
        Head::Arithmetic(operator) => Ok(operation_over(alloc, operator, &parts)?),
        Head::Compare(operator) => Ok(comparison_over(alloc, operator, &parts)?),
        Head::Choose(kind) => Ok(choice_over(alloc, kind, &parts)?),
        Head::PointerSum => Ok(pointer_sum_over(alloc, &parts)?),
        Head::Share(fraction) => shared(alloc, fraction, &parts),
        other => Ok(Term::new(other, parts)),
    }
}

impl Term {
    /// The normal form of the term.
    #[cycle(normal)]
    pub fn normal(&self, alloc: Global) -> Result<Term, NormalFault>
        ensures value { IfOk result (λ t. t ≡ normal self.now) }
        ensures normal { IfOk result IsNormal }
        ensures kept { OnOk result (KeepsFractions self.now) }
        ensures fraction { IsErrOf result NormalFault.Fraction → KeepsFractions self.now → ⊥ }
    {
        let parts = self.parts.normal(alloc)?;
        normal_over(alloc, self.head.copy()?, parts)
    }
}

impl TermList {
    /// The normal forms of the terms.
    #[cycle(normal)]
    pub fn normal(&self, alloc: Global) -> Result<TermList, NormalFault>
        ensures value { IfOk result (λ ts. row ts ≡ all_normal (row self.now)) }
        ensures kept { OnOk result (AllKeepFractions (row self.now)) }
        ensures fraction { IsErrOf result NormalFault.Fraction → AllKeepFractions (row self.now) → ⊥ }
    {
        let mut all = TermList::new(alloc);
        for item in &self.items {
            all.push(item.normal(alloc)?)?;
        }
        Ok(all)
    }
}
