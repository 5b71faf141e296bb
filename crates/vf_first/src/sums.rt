//! Sums over numbers and locals.

ghost use Rattle.std.specs.Prelude.{◌≡◌, ◌<◌, ◌^◌, length, slice_get};
ghost use Rattle.vf_syntax.specs.ExprTree.{link_list};
ghost use Rattle.vf_first.specs.FirstForm.{Gives, is_int, int_of, operand_of, operator_of, link_of, link_in, links_of, sum_of, given_sum};

use crate::names::local_of;
use crate::stop::Stop;
use std::alloc::Global;
use vf_base::{IntType, Sequence, Text};
use vf_syntax::expr::{Expr, ExprNode, Link as LinkTree, LinkList};
use vf_syntax::operator::BinaryOperator;
use vf_tree::{Expression, Link, Operand, Operator};

/// The greatest number of type `int`.
const MOST_INT: u64 = 2_147_483_647;

fn is_int(of: IntType) -> bool
    ensures { result ≡ is_int of }
{
    match of {
        IntType::Int => true,
        _ => false,
    }
}

/// A number of type `int`, where it is one.
pub fn int_of(number: u64, of: IntType) -> Option<u64>
    ensures { result ≡ int_of number of }
{
    if is_int(of) && number <= MOST_INT {
        Some(number)
    } else {
        None
    }
}

fn operand_of(names: &Sequence<Text>, expression: &Expr) -> Option<Operand>
    requires { length names.now < 2 ^ 32 }
    ensures { result ≡ operand_of names.now expression.now }
{
    match &expression.node {
        ExprNode::Number(number, of) => {
            let number = int_of(*number, *of)?;
            Some(Operand::Number(i128::from(number)))
        }
        ExprNode::Name(name) => {
            let local = local_of(names, name.as_bytes())?;
            Some(Operand::Local {
                local,
                place: expression.place,
            })
        }
        _ => None,
    }
}

fn operator_of(operator: BinaryOperator) -> Option<Operator>
    ensures { result ≡ operator_of operator }
{
    match operator {
        BinaryOperator::Plus => Some(Operator::Add),
        BinaryOperator::Minus => Some(Operator::Subtract),
        _ => None,
    }
}

fn link_of(names: &Sequence<Text>, link: &LinkTree) -> Option<Link>
    requires { length names.now < 2 ^ 32 }
    ensures { result ≡ link_of names.now link.now }
{
    let operator = operator_of(link.operator)?;
    let operand = operand_of(names, &link.operand)?;
    Some(Link {
        operator,
        place: link.place,
        operand,
    })
}

fn link_at(names: &Sequence<Text>, all: &LinkList, at: usize) -> Option<Link>
    requires { length names.now < 2 ^ 32 }
    ensures { result ≡ link_in names.now (slice_get all.now at) }
{
    link_of(names, all.get(at)?)
}

#[tactic(auto, using(crate::proofs::Loops::linking))]
fn links_of(alloc: Global, names: &Sequence<Text>, all: &LinkList) -> Result<Sequence<Link>, Stop>
    requires { length names.now < 2 ^ 32 }
    ensures { Gives (λ x. x) result (links_of names.now (link_list all.now)) }
{
    let mut links = Sequence::new(alloc);
    for at in 0..all.len() {
        match link_at(names, all, at) {
            Some(link) => links.push(link)?,
            None => return Err(Stop::Other),
        }
    }
    Ok(links)
}

/// The sum that an expression is, where it is one.
pub fn sum_of(alloc: Global, names: &Sequence<Text>, expression: &Expr) -> Result<Expression, Stop>
    requires { length names.now < 2 ^ 32 }
    ensures { Gives (λ x. x) result (sum_of names.now expression.now) }
{
    match &expression.node {
        ExprNode::Chain(_, first, links) => {
            let first = operand_of(names, first).ok_or(Stop::Other)?;
            let rest = links_of(alloc, names, links)?;
            Ok(Expression { first, rest })
        }
        _ => {
            let first = operand_of(names, expression).ok_or(Stop::Other)?;
            let rest = Sequence::new(alloc);
            Ok(Expression { first, rest })
        }
    }
}

/// The sum that is there.
pub fn given_sum(
    alloc: Global,
    names: &Sequence<Text>,
    value: &Option<Expr>,
) -> Result<Expression, Stop>
    requires { length names.now < 2 ^ 32 }
    ensures { Gives (λ x. x) result (given_sum names.now value.now) }
{
    match value {
        Some(expression) => sum_of(alloc, names, expression),
        None => Err(Stop::Other),
    }
}
