//! What main requires and promises.

ghost use Rattle.std.specs.Prelude.{◌≡◌};
ghost use Rattle.std.specs.Option.{option_copied};
ghost use Rattle.vf_syntax.specs.GhostExprTree.{ghost_link_list};
ghost use Rattle.vf_first.specs.FirstForm.{truth_of, result_of, ghost_int_of, is_equal, equal_of, one_equal_of, promise_of, part_of, only_of, precondition_of, postcondition_of};

use crate::sums::int_of;
use vf_base::Place;
use vf_syntax::assertion::{Assertion, Part, PartNode};
use vf_syntax::ghost_expr::{GhostExpr, GhostExprNode, GhostLink, GhostLinkList};
use vf_syntax::operator::BinaryOperator;
use vf_tree::Pure;

fn truth_of(expression: &GhostExpr) -> Option<Pure>
    ensures { result ≡ truth_of expression.now }
{
    match &expression.node {
        GhostExprNode::True => Some(Pure::True {
            place: expression.place,
        }),
        _ => None,
    }
}

fn result_of(expression: &GhostExpr) -> Option<Place>
    ensures { result ≡ result_of expression.now }
{
    match &expression.node {
        GhostExprNode::Result => Some(expression.place),
        _ => None,
    }
}

fn ghost_int_of(expression: &GhostExpr) -> Option<u64>
    ensures { result ≡ ghost_int_of expression.now }
{
    match &expression.node {
        GhostExprNode::Number(number, of) => int_of(*number, *of),
        _ => None,
    }
}

fn is_equal(operator: BinaryOperator) -> bool
    ensures { result ≡ is_equal operator }
{
    match operator {
        BinaryOperator::Equal => true,
        _ => false,
    }
}

fn equal_of(link: &GhostLink) -> Option<u64>
    ensures { result ≡ equal_of link.now }
{
    if is_equal(link.operator) {
        ghost_int_of(&link.operand)
    } else {
        None
    }
}

fn one_equal_of(links: &GhostLinkList) -> Option<u64>
    ensures { result ≡ one_equal_of (ghost_link_list links.now) }
{
    if links.len() != 1 {
        return None;
    }
    equal_of(links.get(0)?)
}

fn promise_of(expression: &GhostExpr) -> Option<Pure>
    ensures { result ≡ promise_of expression.now }
{
    match &expression.node {
        GhostExprNode::Chain(_, first, links) => {
            let place = result_of(first)?;
            let number = i128::from(one_equal_of(links)?);
            Some(Pure::ResultIs { number, place })
        }
        _ => truth_of(expression),
    }
}

fn part_of(part: &Part) -> Option<&GhostExpr>
    ensures { option_copied result ≡ part_of part.now }
{
    match &part.node {
        PartNode::Pure(expression) => Some(expression),
        _ => None,
    }
}

fn only_of(assertion: &Assertion) -> Option<&GhostExpr>
    ensures { option_copied result ≡ only_of assertion.now }
{
    if assertion.len() != 1 {
        return None;
    }
    part_of(assertion.get(0)?)
}

/// What a precondition of the first form is.
pub fn precondition_of(assertion: &Assertion) -> Option<Pure>
    ensures { result ≡ precondition_of assertion.now }
{
    truth_of(only_of(assertion)?)
}

/// What a postcondition of the first form is.
pub fn postcondition_of(assertion: &Assertion) -> Option<Pure>
    ensures { result ≡ postcondition_of assertion.now }
{
    promise_of(only_of(assertion)?)
}
