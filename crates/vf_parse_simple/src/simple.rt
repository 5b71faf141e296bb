//! Assignments, calls and declarations.

ghost use Rattle.std.specs.Prelude.{◌≡◌};
ghost use Rattle.vf_cursor.specs.Parsing.{Gives};
ghost use Rattle.vf_parse_expression.specs.Parsers.{expr_at, postfix_at};
ghost use Rattle.vf_parse_simple.specs.Simples.{sees_declaration, declared_at, value_at, optional_value_at, assigned_at, step_after_at, step_before_at, called_at, behind_at, simple_at, first_declaration_at, first_at};

use crate::forms::{is_call, is_left_side};
use vf_cursor::cursor::Cursor;
use vf_cursor::fault::Stop;
use vf_lexer::Punctuator;
use vf_parse_expression::expr::{expr, postfix};
use vf_parse_expression::operands::behind;
use vf_syntax::expr::Expr;
use vf_syntax::operator::{AssignmentOperator, StepOperator};
use vf_syntax::side::Side;
use vf_syntax::simple::{First, Simple};
use vf_syntax::written::{CType, Name};

/// Whether a declaration comes next.
#[tactic(auto, unfolding(crate::specs::Simples::sees_declaration))]
pub fn sees_declaration(cursor: &Cursor) -> bool
    ensures { result ≡ sees_declaration cursor.now.left.now }
{
    let second = behind(cursor);
    cursor.sees_type_word(Side::Real)
        || (cursor.sees_name(Side::Real) && second.sees_mark(Side::Real, Punctuator::Star))
}

/// A type and a name.
#[tactic(auto, unfolding(crate::specs::Simples::declared_at))]
pub fn declared(cursor: &mut Cursor) -> Result<(CType, Name), Stop>
    ensures { Gives result cursor.new.left.now (declared_at cursor.old.left.now) }
{
    let written = cursor.ctype(Side::Real)?;
    let name = cursor.name(Side::Real)?;
    Ok((written, name))
}

/// A value behind `=`.
#[tactic(auto, unfolding(crate::specs::Simples::value_at))]
fn value(cursor: &mut Cursor, depth: u32) -> Result<Expr, Stop>
    ensures { Gives result cursor.new.left.now (value_at (expr_at depth) cursor.old.left.now) }
{
    cursor.mark(Side::Real, Punctuator::Becomes)?;
    expr(cursor, depth)
}

/// A value behind `=`, or none.
#[tactic(auto, unfolding(crate::specs::Simples::optional_value_at))]
pub fn optional_value(cursor: &mut Cursor, depth: u32) -> Result<Option<Expr>, Stop>
    ensures { Gives result cursor.new.left.now (optional_value_at (expr_at depth) cursor.old.left.now) }
{
    if cursor.sees_mark(Side::Real, Punctuator::Becomes) {
        let given = value(cursor, depth)?;
        return Ok(Some(given));
    }
    Ok(None)
}

/// An assignment to what was read.
#[tactic(auto, unfolding(crate::specs::Simples::assigned_at))]
fn assigned(
    cursor: &mut Cursor,
    depth: u32,
    left: Expr,
    operator: AssignmentOperator,
) -> Result<Simple, Stop>
    ensures { Gives result cursor.new.left.now (assigned_at (expr_at depth) left operator cursor.old.left.now) }
{
    if !is_left_side(&left) {
        drop(left);
        return Err(cursor.syntax());
    }
    match cursor.mark(Side::Real, operator.mark()) {
        Ok(place) => match expr(cursor, depth) {
            Ok(right) => Ok(Simple::Assignment(left, operator, place, right)),
            Err(stop) => {
                drop(left);
                Err(stop)
            }
        },
        Err(stop) => {
            drop(left);
            Err(stop)
        }
    }
}

/// `++` or `--` behind what was read.
#[tactic(auto, unfolding(crate::specs::Simples::step_after_at))]
fn step_after(cursor: &mut Cursor, left: Expr, operator: StepOperator) -> Result<Simple, Stop>
    ensures { Gives result cursor.new.left.now (step_after_at left operator cursor.old.left.now) }
{
    if !is_left_side(&left) {
        drop(left);
        return Err(cursor.syntax());
    }
    match cursor.mark(Side::Real, operator.mark()) {
        Ok(place) => Ok(Simple::StepAfter(left, operator, place)),
        Err(stop) => {
            drop(left);
            Err(stop)
        }
    }
}

/// `++` or `--`, and what it changes.
#[tactic(auto, unfolding(crate::specs::Simples::step_before_at))]
fn step_before(cursor: &mut Cursor, depth: u32, operator: StepOperator) -> Result<Simple, Stop>
    ensures { Gives result cursor.new.left.now (step_before_at (postfix_at depth) operator cursor.old.left.now) }
{
    let place = cursor.mark(Side::Real, operator.mark())?;
    let changed = postfix(cursor, depth)?;
    if !is_left_side(&changed) {
        drop(changed);
        return Err(cursor.syntax());
    }
    Ok(Simple::StepBefore(place, operator, changed))
}

/// What was read is a call, if no operator stands behind it.
#[tactic(auto, unfolding(crate::specs::Simples::called_at))]
fn called(cursor: &mut Cursor, read: Expr) -> Result<Simple, Stop>
    ensures { Gives result cursor.new.left.now (called_at read cursor.old.left.now) }
{
    if is_call(&read) {
        return Ok(Simple::Call(read));
    }
    drop(read);
    Err(cursor.syntax())
}

/// What stands behind what was read.
#[tactic(auto, unfolding(crate::specs::Simples::behind_at))]
fn behind_operand(cursor: &mut Cursor, depth: u32, read: Expr) -> Result<Simple, Stop>
    ensures { Gives result cursor.new.left.now (behind_at (expr_at depth) read cursor.old.left.now) }
{
    match cursor.next_assignment() {
        Some(operator) => assigned(cursor, depth, read, operator),
        None => match cursor.next_step() {
            Some(operator) => step_after(cursor, read, operator),
            None => called(cursor, read),
        },
    }
}

/// An assignment or a call.
#[tactic(auto, unfolding(crate::specs::Simples::simple_at))]
pub fn simple(cursor: &mut Cursor, depth: u32) -> Result<Simple, Stop>
    ensures { Gives result cursor.new.left.now (simple_at (expr_at depth) (postfix_at depth) cursor.old.left.now) }
{
    match cursor.next_step() {
        Some(operator) => step_before(cursor, depth, operator),
        None => {
            let read = postfix(cursor, depth)?;
            behind_operand(cursor, depth, read)
        }
    }
}

/// A declaration that stands first in a `for`.
#[tactic(auto, unfolding(crate::specs::Simples::first_declaration_at))]
fn first_declaration(cursor: &mut Cursor, depth: u32) -> Result<First, Stop>
    ensures { Gives result cursor.new.left.now (first_declaration_at (expr_at depth) cursor.old.left.now) }
{
    let (written, name) = declared(cursor)?;
    match value(cursor, depth) {
        Ok(given) => Ok(First::Declaration(written, name, given)),
        Err(stop) => {
            drop(written);
            drop(name);
            Err(stop)
        }
    }
}

/// What stands first in a `for`.
#[tactic(auto, unfolding(crate::specs::Simples::first_at))]
pub fn first(cursor: &mut Cursor, depth: u32) -> Result<First, Stop>
    ensures { Gives result cursor.new.left.now (first_at (expr_at depth) (postfix_at depth) cursor.old.left.now) }
{
    if sees_declaration(cursor) {
        return first_declaration(cursor, depth);
    }
    let read = simple(cursor, depth)?;
    Ok(First::Simple(read))
}
