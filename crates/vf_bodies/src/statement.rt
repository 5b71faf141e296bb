//! Statements.

ghost use Rattle.std.specs.Prelude.{◌≡◌, OnOk};
ghost use Rattle.vf_syntax.specs.StmtTree.{stmt_list};
ghost use Rattle.vf_syntax.specs.StmtTree as tree;
ghost use Rattle.vf_lower.specs.Did.{Does};
ghost use Rattle.vf_lower.specs.Lowering.{◌⨾◌, gives};
ghost use Rattle.vf_lower.specs.Statements.{last_of, loop_test, looped, optional_simple, statement, statements};
ghost use Rattle.vf_bodies.specs.Standing.{standing_of};

use crate::branch::{repeat, skip};
use crate::declaration::{
    lower_declaration, lower_first_part, lower_loop_test, lower_optional, lower_return,
};
use crate::last::last_of;
use crate::simple::lower_simple;
use crate::surroundings::Surroundings;
use vf_base::{Memory, Place};
use vf_declared::ctype::CType;
use vf_lower::{Draft, tested};
use vf_steps::Action;
use vf_syntax::contract::Invariant;
use vf_syntax::expr::Expr;
use vf_syntax::simple::{First, Simple};
use vf_syntax::stmt::{Stmt, StmtList, StmtNode};

/// What stands in front of the body of a `for`: its first part, its test, its step and its invariant.
#[derive(Drop)]
struct ForHead<'a> {
    first: &'a Option<First>,
    test: &'a Option<Expr>,
    step: &'a Option<Simple>,
    invariant: &'a Option<Invariant>,
}

/// A statement whose locals are its own.
#[cycle(stmt)]
fn lower_inner<'a>(
    around: &mut Surroundings,
    draft: &mut Draft<'a>,
    given: CType,
    item: &'a Stmt,
) -> Result<(), Memory>
    ensures { Does (λ u. standing_of around.new) (statement (standing_of around.old) given item.now ⨾ λ d. gives (standing_of around.old)) draft.old draft.new result }
{
    let before = around.mark();
    lower_statement(around, draft, given, item)?;
    around.leave(before);
    Ok(())
}

/// An `if` at a place, without `else`.
#[cycle(stmt)]
fn lower_if<'a>(
    around: &mut Surroundings,
    draft: &mut Draft<'a>,
    given: CType,
    place: Place,
    test: &Expr,
    yes: &'a Stmt,
) -> Result<(), Memory>
    ensures { Does (λ u. standing_of around.new) (statement (standing_of around.old) given (tree.if_ place test.now yes.now)) draft.old draft.new result }
{
    let test = tested(&around.setting_at(place), draft, test)?;
    let mut part = draft.aside(around.alloc);
    lower_inner(around, &mut part, given, yes)?;
    skip(draft, place, test, part)?;
    Ok(())
}

/// An `if` at a place, with `else`.
#[cycle(stmt)]
fn lower_if_else<'a>(
    around: &mut Surroundings,
    draft: &mut Draft<'a>,
    given: CType,
    place: Place,
    test: &Expr,
    yes: &'a Stmt,
    no: &'a Stmt,
) -> Result<(), Memory>
    ensures { Does (λ u. standing_of around.new) (statement (standing_of around.old) given (tree.if_else place test.now yes.now no.now)) draft.old draft.new result }
{
    let test = tested(&around.setting_at(place), draft, test)?;
    let mut first = draft.aside(around.alloc);
    lower_inner(around, &mut first, given, yes)?;
    let mut second = first.aside(around.alloc);
    lower_inner(around, &mut second, given, no)?;
    draft.join(place, test, first.nodes, second)?;
    Ok(())
}

/// A `while` at a place.
#[cycle(stmt)]
fn lower_while<'a>(
    around: &mut Surroundings,
    draft: &mut Draft<'a>,
    given: CType,
    place: Place,
    test: &Expr,
    invariant: &'a Option<Invariant>,
    body: &'a Stmt,
) -> Result<(), Memory>
    ensures { Does (λ u. standing_of around.new) (statement (standing_of around.old) given (tree.while_ place test.now invariant.now body.now)) draft.old draft.new result }
{
    let mut head = draft.aside(around.alloc);
    let test = tested(&around.setting_at(place), &mut head, test)?;
    let mut turn = head.aside(around.alloc);
    lower_inner(around, &mut turn, given, body)?;
    repeat(
        draft,
        place,
        invariant,
        last_of(body),
        test,
        head.nodes,
        turn,
    )?;
    Ok(())
}

/// The body of a `for`, and its step.
#[cycle(stmt)]
fn lower_turn<'a>(
    around: &mut Surroundings,
    draft: &mut Draft<'a>,
    given: CType,
    step: &Option<Simple>,
    body: &'a Stmt,
) -> Result<(), Memory>
    ensures kept { OnOk result (standing_of around.new ≡ standing_of around.old) }
    ensures done { Does (λ u. tt) (statement (standing_of around.old) given body.now ⨾ λ d. optional_simple (standing_of around.old) step.now) draft.old draft.new result }
{
    lower_inner(around, draft, given, body)?;
    lower_optional(&around.setting(), draft, step)?;
    Ok(())
}

/// A `for` at a place, behind its first part.
#[cycle(stmt)]
fn lower_for_loop<'a>(
    around: &mut Surroundings,
    draft: &mut Draft<'a>,
    given: CType,
    place: Place,
    head: &ForHead<'a>,
    body: &'a Stmt,
) -> Result<(), Memory>
    ensures kept { OnOk result (standing_of around.new ≡ standing_of around.old) }
    ensures done { Does (λ u. tt) (looped place head.now.invariant.now (last_of body.now) (loop_test (standing_of around.old) head.now.test.now) (statement (standing_of around.old) given body.now ⨾ λ d. optional_simple (standing_of around.old) head.now.step.now)) draft.old draft.new result }
{
    let mut start = draft.aside(around.alloc);
    let test = lower_loop_test(&around.setting(), &mut start, head.test)?;
    let mut turn = start.aside(around.alloc);
    lower_turn(around, &mut turn, given, head.step, body)?;
    repeat(
        draft,
        place,
        head.invariant,
        last_of(body),
        test,
        start.nodes,
        turn,
    )?;
    Ok(())
}

/// A `for` at a place.
#[cycle(stmt)]
fn lower_for<'a>(
    around: &mut Surroundings,
    draft: &mut Draft<'a>,
    given: CType,
    place: Place,
    head: &ForHead<'a>,
    body: &'a Stmt,
) -> Result<(), Memory>
    ensures { Does (λ u. standing_of around.new) (statement (standing_of around.old) given (tree.for_ place head.now.first.now head.now.test.now head.now.step.now head.now.invariant.now body.now)) draft.old draft.new result }
{
    let before = around.mark();
    lower_first_part(around, draft, place, head.first)?;
    lower_for_loop(around, draft, given, place, head, body)?;
    around.leave(before);
    Ok(())
}

/// Adds to a draft what a statement becomes in a function that gives a type. What is declared behind it is declared
/// in the surroundings.
#[cycle(stmt)]
pub fn lower_statement<'a>(
    around: &mut Surroundings,
    draft: &mut Draft<'a>,
    given: CType,
    item: &'a Stmt,
) -> Result<(), Memory>
    ensures { Does (λ u. standing_of around.new) (statement (standing_of around.old) given item.now) draft.old draft.new result }
{
    let place = item.place;
    match &item.node {
        StmtNode::Declaration(written, name, value, _) => {
            lower_declaration(around, draft, place, written, name, value)
        }
        StmtNode::Simple(part, _) => lower_simple(&around.setting_at(place), draft, part),
        StmtNode::If(test, yes) => lower_if(around, draft, given, place, test, yes),
        StmtNode::IfElse(test, yes, no) => {
            lower_if_else(around, draft, given, place, test, yes, no)
        }
        StmtNode::While(test, invariant, body) => {
            lower_while(around, draft, given, place, test, invariant, body)
        }
        StmtNode::For(first, test, step, invariant, body) => {
            let head = ForHead {
                first,
                test,
                step,
                invariant,
            };
            lower_for(around, draft, given, place, &head, body)
        }
        StmtNode::Return(value, _) => {
            lower_return(&around.setting_at(place), draft, given, value)
        }
        StmtNode::Block(statements, _) => lower_block(around, draft, given, statements),
        StmtNode::Empty => Ok(()),
        StmtNode::Ghost(command) => draft.add(place, Action::Ghost(command)),
    }
}

/// Statements whose locals are their own.
#[cycle(stmt)]
pub fn lower_block<'a>(
    around: &mut Surroundings,
    draft: &mut Draft<'a>,
    given: CType,
    items: &'a StmtList,
) -> Result<(), Memory>
    ensures { Does (λ u. standing_of around.new) (statements (standing_of around.old) given (stmt_list items.now) ⨾ λ d. gives (standing_of around.old)) draft.old draft.new result }
{
    let before = around.mark();
    lower_statements(around, draft, given, items)?;
    around.leave(before);
    Ok(())
}

/// Statements in order.
#[cycle(stmt)]
#[tactic(auto, using(crate::proofs::Lists::stmt_smaller))]
fn lower_statements<'a>(
    around: &mut Surroundings,
    draft: &mut Draft<'a>,
    given: CType,
    items: &'a StmtList,
) -> Result<(), Memory>
    ensures { Does (λ u. standing_of around.new) (statements (standing_of around.old) given (stmt_list items.now)) draft.old draft.new result }
{
    for at in 0..items.len() {
        let Some(item) = items.get(at) else {
            return Ok(());
        };
        lower_statement(around, draft, given, item)?;
    }
    Ok(())
}
