//! Sums: the terms of operands and partial sums, and the questions whether they fit.

ghost use Rattle.std.specs.Prelude.{◌≡◌, ◌<◌, ℕ, ℤ, Option, List, All, IfOk, length};
ghost use Rattle.vf_asking.specs.Course.{Says, refusal};
ghost use Rattle.vf_asking.specs.Journal.{Grew, HasNode, path_at, seen};
ghost use Rattle.vf_asking.specs.Plain.{CanBeAsked};
ghost use Rattle.vf_formula.specs.Literals.{shown_literal};
ghost use Rattle.vf_base.specs.declared.int_type.IntType.TheVariants.{Int};
ghost use Rattle.vf_model.specs.Integers.{least, greatest};
ghost use Rattle.vf_exec.specs.Literals.{at_most_of};
ghost use Rattle.vf_exec.specs.Main.{required, fits, folded, local_value, operand_value, combined, sum_with, adds_one, adds, evaluates};
ghost use Rattle.vf_exec.specs.Small.{AreSmall, IsSmall, IsSmallTerm};

use crate::literals::at_most;
use std::alloc::Global;
use vf_asking::{Asker, holds};
use vf_base::{Place, Refusal, Rule, RuleFault, Sequence, Shown};
use vf_formula::Literal;
use vf_trail::Node;
use vf_tree::{Expression, Link, Operand, Operator};

/// A term that is a number.
#[derive(Clone, Copy, Debug, PartialEq, Eq)]
pub struct NumberTerm {
    pub number: i128,
}

/// The terms of the locals, and none where a local is unset.
pub type Locals = Sequence<Option<NumberTerm>>;

/// The bound of the numbers of terms, both ways.
pub const MOST: i128 = 1_237_940_039_285_380_274_899_124_224;

/// A refusal by a rule at a place.
pub fn refusal(rule: Rule, place: Place) -> Refusal
    ensures { result ≡ refusal rule place }
{
    Refusal {
        rule,
        place,
        shown: Shown::Nothing,
    }
}

/// Asks for a goal that has to be proved; else the rule refuses at the place.
#[tactic(auto, using(vf_asking::proofs::Following::follows), unfolding(crate::specs::Main::required))]
pub fn require<A: Asker>(
    asker: &mut A,
    at: Node,
    goal: &Literal,
    rule: Rule,
    place: Place,
) -> Result<(), RuleFault>
    requires begun { 0 < length (A.journal asker.old).units }
    requires there { HasNode (A.journal asker.old) at }
    requires plain { CanBeAsked (shown_literal goal.now) }
    ensures says { Says (required rule place (path_at (A.journal asker.old) at) (shown_literal goal.now)) (λ _. tt) (seen (A.journal asker.old)) (seen (A.journal asker.new)) result }
    ensures grew { Grew (A.journal asker.old) (A.journal asker.new) }
    ensures origin { A.origin asker.new ≡ A.origin asker.old }
{
    let proved = holds(asker, at, goal, place)?;
    if proved {
        Ok(())
    } else {
        Err(RuleFault::Refused(refusal(rule, place)))
    }
}

/// A number, where it is one of a term.
pub fn folded(place: Place, number: i128) -> Result<NumberTerm, Refusal>
    ensures value { result ≡ folded place number }
    ensures small { IfOk result IsSmallTerm }
{
    if -MOST <= number && number <= MOST {
        Ok(NumberTerm { number })
    } else {
        Err(refusal(Rule::Range, place))
    }
}

/// The term of an operand.
pub fn operand_value(name: Place, locals: &Locals, operand: Operand) -> Result<NumberTerm, Refusal>
    requires { AreSmall locals.now }
    ensures value { result ≡ operand_value name locals.now operand }
    ensures small { IfOk result IsSmallTerm }
{
    match operand {
        Operand::Number(number) => folded(name, number),
        Operand::Local { local, place } => match locals.get(local as usize) {
            Some(Some(term)) => Ok(*term),
            _ => Err(refusal(Rule::Unset, place)),
        },
    }
}

/// What an operator makes of two numbers.
fn combined(operator: Operator, left: i128, right: i128) -> i128
    requires left { IsSmall left }
    requires right { IsSmall right }
    ensures { result ≡ combined operator left right }
{
    match operator {
        Operator::Add => left + right,
        Operator::Subtract => left - right,
    }
}

/// That a sum is at least the least number of `int`.
fn at_least_least(alloc: Global, term: NumberTerm) -> Literal
    requires { IsSmallTerm term }
    ensures value { shown_literal result ≡ at_most_of (least Int) term.number }
    ensures plain { CanBeAsked (shown_literal result) }
{
    at_most(alloc, -2_147_483_648, term.number)
}

/// That a sum is at most the greatest number of `int`.
fn at_most_greatest(alloc: Global, term: NumberTerm) -> Literal
    requires { IsSmallTerm term }
    ensures value { shown_literal result ≡ at_most_of term.number (greatest Int) }
    ensures plain { CanBeAsked (shown_literal result) }
{
    at_most(alloc, term.number, 2_147_483_647)
}

/// Asks whether a sum fits `int`: at least the least number, then at most the greatest.
#[tactic(auto, using(crate::proofs::Sums::fitting))]
fn require_fit<A: Asker>(
    alloc: Global,
    asker: &mut A,
    at: Node,
    term: NumberTerm,
    place: Place,
) -> Result<(), RuleFault>
    requires begun { 0 < length (A.journal asker.old).units }
    requires there { HasNode (A.journal asker.old) at }
    requires small { IsSmallTerm term }
    ensures says { Says (fits place (path_at (A.journal asker.old) at) term) (λ _. tt) (seen (A.journal asker.old)) (seen (A.journal asker.new)) result }
    ensures grew { Grew (A.journal asker.old) (A.journal asker.new) }
    ensures origin { A.origin asker.new ≡ A.origin asker.old }
{
    let low = at_least_least(alloc, term);
    let high = at_most_greatest(alloc, term);
    require(asker, at, &low, Rule::Range, place)?;
    require(asker, at, &high, Rule::Range, place)?;
    Ok(())
}

/// A sum with one more operand on its right.
fn sum_with(
    name: Place,
    locals: &Locals,
    term: NumberTerm,
    link: Link,
) -> Result<NumberTerm, Refusal>
    requires small { IsSmallTerm term }
    requires locals { AreSmall locals.now }
    ensures value { result ≡ sum_with (operand_value name locals.now link.operand) term link }
    ensures small { IfOk result IsSmallTerm }
{
    match operand_value(name, locals, link.operand) {
        Ok(right) => folded(
            link.place,
            combined(link.operator, term.number, right.number),
        ),
        Err(refusal) => Err(refusal),
    }
}

/// A sum with one more operand on its right, and whether it fits.
#[tactic(auto, using(crate::proofs::Sums::adding_one))]
fn add_link<A: Asker>(
    alloc: Global,
    asker: &mut A,
    at: Node,
    name: Place,
    locals: &Locals,
    term: NumberTerm,
    link: Link,
) -> Result<NumberTerm, RuleFault>
    requires begun { 0 < length (A.journal asker.old).units }
    requires there { HasNode (A.journal asker.old) at }
    requires small { IsSmallTerm term }
    requires locals { AreSmall locals.now }
    ensures says { Says (adds_one name (path_at (A.journal asker.old) at) locals.now term link) (λ z. z) (seen (A.journal asker.old)) (seen (A.journal asker.new)) result }
    ensures small { IfOk result IsSmallTerm }
    ensures grew { Grew (A.journal asker.old) (A.journal asker.new) }
    ensures origin { A.origin asker.new ≡ A.origin asker.old }
{
    let sum = sum_with(name, locals, term, link)?;
    require_fit(alloc, asker, at, sum, link.place)?;
    Ok(sum)
}

/// The term of a sum, its operands from left to right.
#[tactic(auto, using(crate::proofs::Sums::evaluating))]
pub fn evaluate<A: Asker>(
    alloc: Global,
    asker: &mut A,
    at: Node,
    name: Place,
    locals: &Locals,
    expression: &Expression,
) -> Result<NumberTerm, RuleFault>
    requires begun { 0 < length (A.journal asker.old).units }
    requires there { HasNode (A.journal asker.old) at }
    requires locals { AreSmall locals.now }
    ensures says { Says (evaluates name (path_at (A.journal asker.old) at) locals.now expression.now) (λ z. z) (seen (A.journal asker.old)) (seen (A.journal asker.new)) result }
    ensures small { IfOk result IsSmallTerm }
    ensures grew { Grew (A.journal asker.old) (A.journal asker.new) }
    ensures origin { A.origin asker.new ≡ A.origin asker.old }
{
    let first = operand_value(name, locals, expression.first)?;
    let sum = add_links(
        alloc,
        asker,
        at,
        name,
        locals,
        first,
        expression.rest.as_slice(),
    )?;
    Ok(sum)
}

/// A sum with more operands on its right.
fn add_links<A: Asker>(
    alloc: Global,
    asker: &mut A,
    at: Node,
    name: Place,
    locals: &Locals,
    first: NumberTerm,
    links: &[Link],
) -> Result<NumberTerm, RuleFault>
    requires begun { 0 < length (A.journal asker.old).units }
    requires there { HasNode (A.journal asker.old) at }
    requires small { IsSmallTerm first }
    requires locals { AreSmall locals.now }
    ensures says { Says (adds name (path_at (A.journal asker.old) at) locals.now first links.now) (λ z. z) (seen (A.journal asker.old)) (seen (A.journal asker.new)) result }
    ensures small { IfOk result IsSmallTerm }
    ensures grew { Grew (A.journal asker.old) (A.journal asker.new) }
    ensures origin { A.origin asker.new ≡ A.origin asker.old }
{
    let mut sum = first;
    for link in links {
        sum = match add_link(alloc, asker, at, name, locals, sum, *link) {
            Ok(sum) => sum,
            Err(fault) => return Err(fault),
        };
    }
    Ok(sum)
}
