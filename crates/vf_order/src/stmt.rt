//! Assignments, calls and statements.

ghost use Rattle.std.specs.Prelude.{◌≡◌};
ghost use Rattle.vf_syntax.specs.StmtTree.{stmt_list};
ghost use Rattle.vf_order.specs.Marks.{clash, marks};
ghost use Rattle.vf_order.specs.Order.{unordered};
ghost use Rattle.vf_order.specs.Walked.{seen, seen_of};
ghost use Rattle.vf_order.specs.Statements.{if_there, left_marks, target_marks, unordered_first, unordered_simple, unordered_stmt, unordered_stmts};

use crate::expr::{look, look_at_parts};
use crate::seen::{Parts, Seen};
use vf_base::Place;
use vf_syntax::expr::{Expr, ExprNode};
use vf_syntax::operator::AssignmentOperator;
use vf_syntax::simple::{First, Simple};
use vf_syntax::stmt::{Stmt, StmtList, StmtNode};

/// What is kept of a left side: of what its pointer and its index hold, and of the whole.
fn look_at_target(left: &Expr) -> Parts
    ensures { result ≡ record { operands = seen (target_marks left.now) (unordered left.now); whole = seen_of left.now } }
{
    match &left.node {
        ExprNode::Postfix(start, parts) => {
            let pointer = look(start);
            look_at_parts(left.place, pointer, parts)
        }
        _ => {
            let whole = look(left);
            Parts {
                operands: whole,
                whole,
            }
        }
    }
}

/// What is kept of a left side under an operator.
fn look_at_left(operator: AssignmentOperator, left: &Expr) -> Seen
    ensures { result ≡ seen (left_marks operator left.now) (unordered left.now) }
{
    let target = look_at_target(left);
    match operator {
        AssignmentOperator::Becomes => target.operands,
        _ => target.whole,
    }
}

/// Where an assignment or a call is refused first.
fn unordered_simple(simple: &Simple) -> Option<Place>
    ensures { result ≡ unordered_simple simple.now }
{
    match simple {
        Simple::Assignment(left, operator, _, right) => {
            let target = look_at_left(*operator, left);
            let value = look(right);
            target.beside(value).refusal
        }
        Simple::StepAfter(left, _, _) => look(left).refusal,
        Simple::StepBefore(_, _, left) => look(left).refusal,
        Simple::Call(expr) => look(expr).refusal,
    }
}

/// Where what stands first in a `for` is refused first, if something stands there.
fn unordered_first(first: &Option<First>) -> Option<Place>
    ensures { result ≡ if_there unordered_first first.now }
{
    match first {
        Some(First::Declaration(_, _, value)) => look(value).refusal,
        Some(First::Simple(simple)) => unordered_simple(simple),
        None => None,
    }
}

/// Where the step of a `for` is refused first, if there is one.
fn unordered_step(step: &Option<Simple>) -> Option<Place>
    ensures { result ≡ if_there unordered_simple step.now }
{
    match step {
        Some(simple) => unordered_simple(simple),
        None => None,
    }
}

/// Where an expression is refused first, if there is one.
fn unordered_value(value: &Option<Expr>) -> Option<Place>
    ensures { result ≡ if_there unordered value.now }
{
    match value {
        Some(expr) => look(expr).refusal,
        None => None,
    }
}

/// Where a statement is refused first.
#[cycle(stmt)]
fn unordered_statement(statement: &Stmt) -> Option<Place>
    ensures { result ≡ unordered_stmt statement.now }
{
    match &statement.node {
        StmtNode::Declaration(_, _, value, _) => unordered_value(value),
        StmtNode::Simple(simple, _) => unordered_simple(simple),
        StmtNode::If(test, yes) => look(test).refusal.or(unordered_statement(yes)),
        StmtNode::IfElse(test, yes, no) => look(test)
            .refusal
            .or(unordered_statement(yes).or(unordered_statement(no))),
        StmtNode::While(test, _, body) => look(test).refusal.or(unordered_statement(body)),
        StmtNode::For(start, test, step, _, body) => unordered_first(start).or(unordered_value(
            test,
        ).or(unordered_statement(body).or(unordered_step(step)))),
        StmtNode::Return(value, _) => unordered_value(value),
        StmtNode::Block(statements, _) => unordered_statements(statements),
        StmtNode::Empty => None,
        StmtNode::Ghost(_) => None,
    }
}

/// Where some statements are refused first.
#[cycle(stmt)]
#[tactic(auto, using(crate::proofs::Lists::stmt_smaller, crate::proofs::Loops::stmts_none, crate::proofs::Loops::stmts_end))]
pub fn unordered_statements(statements: &StmtList) -> Option<Place>
    ensures { result ≡ unordered_stmts (stmt_list statements.now) }
{
    let mut refused = None;
    for at in 0..statements.len() {
        let Some(statement) = statements.get(at) else {
            return refused;
        };
        let found = unordered_statement(statement);
        refused = refused.or(found);
    }
    refused
}
