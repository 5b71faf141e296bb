//! Expressions.

ghost use Rattle.std.specs.Prelude.{◌≡◌};
ghost use Rattle.vf_syntax.specs.ExprTree.{expr_list, link_list, postfix_list};
ghost use Rattle.vf_order.specs.Order.{orders};
ghost use Rattle.vf_order.specs.Walked.{all_seen, link_seen, links_seen, operands_seen, part_seen, parts_seen, seen_of};

use crate::seen::{Parts, Seen};
use vf_base::Place;
use vf_syntax::expr::{
    Expr, ExprList, ExprNode, Link, LinkList, Postfix, PostfixList, PostfixNode,
};
use vf_syntax::operator::BinaryOperator;

/// Whether an operator evaluates its left operand first.
fn orders(operator: BinaryOperator) -> bool
    ensures { result ≡ orders operator }
{
    match operator {
        BinaryOperator::And | BinaryOperator::Or => true,
        _ => false,
    }
}

/// What is kept of an expression.
#[cycle(expr)]
pub fn look(expr: &Expr) -> Seen
    ensures { result ≡ seen_of expr.now }
{
    match &expr.node {
        ExprNode::Parenthesized(inner) => look(inner),
        ExprNode::Malloc(_) => Seen::nothing().called(expr.place),
        ExprNode::MallocInts(length, _) => look(length).called(expr.place),
        ExprNode::Postfix(start, parts) => {
            let pointer = look(start);
            look_at_parts(expr.place, pointer, parts).whole
        }
        ExprNode::Unary(_, operand) => look(operand),
        ExprNode::Cast(_, operand) => look(operand),
        ExprNode::Chain(_, start, links) => {
            let operand = look(start);
            look_at_links(operand, links)
        }
        ExprNode::Conditional(test, yes, no) => {
            let tested = look(test);
            let taken = look(yes);
            let other = look(no);
            let rest = taken.behind(other);
            tested.behind(rest)
        }
        _ => Seen::nothing(),
    }
}

/// Arguments behind operands.
#[cycle(expr)]
#[tactic(auto, using(crate::proofs::Lists::expr_smaller, crate::proofs::Loops::all_none, crate::proofs::Loops::all_end))]
fn look_at_arguments(operands: Seen, arguments: &ExprList) -> Seen
    ensures { result ≡ all_seen operands (expr_list arguments.now) }
{
    let mut kept = operands;
    for at in 0..arguments.len() {
        let Some(argument) = arguments.get(at) else {
            return kept;
        };
        let held = look(argument);
        kept = kept.beside(held);
    }
    kept
}

/// An operator and its operand behind operands.
#[cycle(expr)]
fn look_at_link(operands: Seen, link: &Link) -> Seen
    ensures { result ≡ link_seen operands link.now }
{
    let operand = look(&link.operand);
    if orders(link.operator) {
        operands.behind(operand)
    } else {
        operands.beside(operand)
    }
}

/// Operators and their operands behind operands.
#[cycle(expr)]
#[tactic(auto, using(crate::proofs::Lists::link_smaller, crate::proofs::Loops::links_none, crate::proofs::Loops::links_end))]
fn look_at_links(operands: Seen, links: &LinkList) -> Seen
    ensures { result ≡ links_seen operands (link_list links.now) }
{
    let mut kept = operands;
    for at in 0..links.len() {
        let Some(link) = links.get(at) else {
            return kept;
        };
        kept = look_at_link(kept, link);
    }
    kept
}

/// The operands of a read or call behind an expression.
#[cycle(expr)]
fn look_at_operands(before: Seen, part: &Postfix) -> Seen
    ensures { result ≡ operands_seen before part.now }
{
    match &part.node {
        PostfixNode::Field(_) => before,
        PostfixNode::Index(index) => before.beside(look(index)),
        PostfixNode::Call(arguments) => look_at_arguments(before, arguments),
    }
}

/// A read or call behind an expression that begins at a place, of which the second are the operands.
fn with_operands(place: Place, before: Seen, operands: Seen, part: &Postfix) -> Parts
    ensures { result ≡ record { operands = operands; whole = part_seen place before operands part.now } }
{
    let whole = match &part.node {
        PostfixNode::Call(_) => operands.called(place),
        _ => before.read_behind(part.place, operands),
    };
    Parts { operands, whole }
}

/// Reads and calls behind an expression that begins at a place.
#[cycle(expr)]
#[tactic(auto, using(crate::proofs::Lists::postfix_smaller, crate::proofs::Loops::parts_none, crate::proofs::Loops::parts_end))]
pub fn look_at_parts(place: Place, before: Seen, parts: &PostfixList) -> Parts
    ensures { result ≡ parts_seen place (record { operands = before; whole = before }) (postfix_list parts.now) }
{
    let mut kept = Parts {
        operands: before,
        whole: before,
    };
    for at in 0..parts.len() {
        let Some(part) = parts.get(at) else {
            return kept;
        };
        let operands = look_at_operands(kept.whole, part);
        kept = with_operands(place, kept.whole, operands, part);
    }
    kept
}
