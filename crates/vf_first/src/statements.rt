//! Statements, and the steps that they are.

ghost use Rattle.std.specs.Prelude.{◌≡◌, ◌+◌, ◌<◌, ◌≤◌, ◌^◌, [], length, slice_get, OnOk};
ghost use Rattle.vf_first.specs.FirstForm.{Gives, is_int_width, are_int_words, is_int_form, named_local, is_becomes, declaration_of, assignment_of, return_of, statement_of, statement_in, steps_of, is_return};

use crate::names::local_of;
use crate::stop::Stop;
use crate::sums::{given_sum, sum_of};
use std::alloc::Global;
use vf_base::{Sequence, Text};
use vf_syntax::expr::{Expr, ExprNode};
use vf_syntax::operator::AssignmentOperator;
use vf_syntax::simple::Simple;
use vf_syntax::stmt::{Stmt, StmtList, StmtNode};
use vf_syntax::written::{CType, IntegerWords, Name, TypeForm, Width};
use vf_tree::CoreStep;

/// The steps of a body, and how many locals it has.
#[derive(Debug, Drop)]
pub struct Steps {
    pub steps: Sequence<CoreStep>,
    pub locals: u32,
}

fn is_int_width(width: Width) -> bool
    ensures { result ≡ is_int_width width }
{
    match width {
        Width::Int => true,
        _ => false,
    }
}

fn are_int_words(words: IntegerWords) -> bool
    ensures { result ≡ are_int_words words }
{
    match words {
        IntegerWords::Width(width) => is_int_width(width),
        _ => false,
    }
}

/// Whether a type is written `int`.
pub fn is_int_form(form: &TypeForm) -> bool
    ensures { result ≡ is_int_form form.now }
{
    match form {
        TypeForm::Integer(words) => are_int_words(*words),
        _ => false,
    }
}

fn is_becomes(operator: AssignmentOperator) -> bool
    ensures { result ≡ is_becomes operator }
{
    match operator {
        AssignmentOperator::Becomes => true,
        _ => false,
    }
}

/// The number of the local that an expression names.
fn named_local(names: &Sequence<Text>, expression: &Expr) -> Option<u32>
    requires { length names.now < 2 ^ 32 }
    ensures { result ≡ named_local names.now expression.now }
{
    match &expression.node {
        ExprNode::Name(name) => local_of(names, name.as_bytes()),
        _ => None,
    }
}

fn declaration_of(
    alloc: Global,
    names: &mut Sequence<Text>,
    next: u32,
    written: &CType,
    name: &Name,
    value: &Option<Expr>,
) -> Result<CoreStep, Stop>
    requires { length names.old < 2 ^ 32 }
    ensures gives { Gives (λ s. (s, names.new)) result (declaration_of names.old next written.now name.now value.now) }
    ensures one_more { OnOk result (length names.new ≤ length names.old + 1) }
{
    if !is_int_form(&written.form) {
        return Err(Stop::Other);
    }
    if local_of(names, name.text.as_bytes()).is_some() {
        return Err(Stop::Other);
    }
    let value = given_sum(alloc, names, value)?;
    let local = names.len() as u32;
    names.push(Text::from_bytes(alloc, name.text.as_bytes())?)?;
    Ok(CoreStep::Set { local, value, next })
}

fn assignment_of(
    alloc: Global,
    names: &Sequence<Text>,
    next: u32,
    simple: &Simple,
) -> Result<CoreStep, Stop>
    requires { length names.now < 2 ^ 32 }
    ensures { Gives (λ s. (s, names.now)) result (assignment_of names.now next simple.now) }
{
    match simple {
        Simple::Assignment(left, operator, _, right) => {
            if !is_becomes(*operator) {
                return Err(Stop::Other);
            }
            let local = named_local(names, left).ok_or(Stop::Other)?;
            let value = sum_of(alloc, names, right)?;
            Ok(CoreStep::Set { local, value, next })
        }
        _ => Err(Stop::Other),
    }
}

fn return_of(alloc: Global, names: &Sequence<Text>, value: &Option<Expr>) -> Result<CoreStep, Stop>
    requires { length names.now < 2 ^ 32 }
    ensures { Gives (λ s. (s, names.now)) result (return_of names.now value.now) }
{
    let value = given_sum(alloc, names, value)?;
    Ok(CoreStep::Return { value })
}

/// The step that a statement is; a declaration adds its name.
fn statement_of(
    alloc: Global,
    names: &mut Sequence<Text>,
    next: u32,
    statement: &Stmt,
) -> Result<CoreStep, Stop>
    requires { length names.old < 2 ^ 32 }
    ensures gives { Gives (λ s. (s, names.new)) result (statement_of names.old next statement.now) }
    ensures one_more { OnOk result (length names.new ≤ length names.old + 1) }
{
    match &statement.node {
        StmtNode::Declaration(written, name, value, _) => {
            declaration_of(alloc, names, next, written, name, value)
        }
        StmtNode::Simple(simple, _) => assignment_of(alloc, names, next, simple),
        StmtNode::Return(value, _) => return_of(alloc, names, value),
        _ => Err(Stop::Other),
    }
}

fn is_return(step: &CoreStep) -> bool
    ensures { result ≡ is_return step.now }
{
    match step {
        CoreStep::Set { .. } => false,
        CoreStep::Return { .. } => true,
    }
}

/// What is put behind the steps of a body: the step of the statement at an index; a declaration adds its name.
fn step_at(
    alloc: Global,
    names: &mut Sequence<Text>,
    all: &StmtList,
    at: u32,
) -> Result<CoreStep, Stop>
    requires few { length names.old < 2 ^ 32 }
    requires next { at + 1 < 2 ^ 32 }
    ensures gives { Gives (λ s. (s, names.new)) result (statement_in names.old at (slice_get all.now at)) }
    ensures one_more { OnOk result (length names.new ≤ length names.old + 1) }
{
    match all.get(at as usize) {
        Some(statement) => statement_of(alloc, names, at + 1, statement),
        None => Err(Stop::Other),
    }
}

/// The steps that the statements of a body are.
pub fn steps_of(alloc: Global, all: &StmtList) -> Result<Steps, Stop>
    ensures { Gives (λ s. (s.steps, s.locals)) result (steps_of [] 0 all.now) }
{
    let mut names = Sequence::new(alloc);
    let mut steps = Sequence::new(alloc);
    let count = all.len();
    for at in 0..u32::MAX {
        let step = match step_at(alloc, &mut names, all, at) {
            Ok(step) => step,
            Err(stop) => return Err(stop),
        };
        let is_last = is_return(&step);
        steps.push(step)?;
        if is_last {
            if at as usize + 1 < count {
                return Err(Stop::Other);
            }
            let locals = names.len() as u32;
            return Ok(Steps { steps, locals });
        }
    }
    Err(Stop::Memory)
}
