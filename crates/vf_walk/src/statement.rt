//! Statements.

ghost use Rattle.std.specs.Prelude.{◌≡◌};
ghost use Rattle.vf_syntax.specs.StmtTree.{stmt_list};
ghost use Rattle.vf_walk.specs.Statements.{condition, count, first_part, for_parts, Inner, simple, WalksForBody, WalksForHead, WalksStmt, WalksStmts, without_first};
ghost use Rattle.vf_walk.specs.Walking.{Follows, Gives, Only, optional, Optional, Then};

use crate::annotations::Annotations;
use crate::variable::{walk_condition, walk_declaration, walk_first, walk_return, walk_simple};
use vf_base::{Place, RuleFault};
use vf_declared::ctype::CType;
use vf_declared::scope::Scope;
use vf_syntax::contract::Invariant;
use vf_syntax::expr::Expr;
use vf_syntax::simple::{First, Simple};
use vf_syntax::stmt::{Stmt, StmtList, StmtNode};

/// What stands first in a `for`, if there is anything.
fn walk_optional_first(scope: &mut Scope, part: &Option<First>) -> Result<(), RuleFault>
    ensures { Gives result scope.new (optional first_part part.now scope.old) }
{
    match part {
        Some(part) => walk_first(scope, part),
        None => Ok(()),
    }
}

/// The condition of a `for`, if it has one.
fn walk_optional_condition(scope: &Scope, test: &Option<Expr>) -> Result<(), RuleFault>
    ensures { Gives result scope.now (optional condition test.now scope.now) }
{
    match test {
        Some(test) => walk_condition(scope, test),
        None => Ok(()),
    }
}

/// The step of a `for`, if it has one.
fn walk_optional_simple(scope: &Scope, part: &Option<Simple>) -> Result<(), RuleFault>
    ensures { Gives result scope.now (optional simple part.now scope.now) }
{
    match part {
        Some(part) => walk_simple(scope, part),
        None => Ok(()),
    }
}

/// The invariant of a loop that stands in a file, if it has one.
#[tactic(auto, using(crate::proofs::Steps::absent))]
fn walk_invariant<A: Annotations>(
    scope: &mut Scope,
    annotations: &A,
    file: u32,
    invariant: &Option<Invariant>,
) -> Result<(), RuleFault>
    ensures { Follows (Optional ((A.meanings annotations.now).invariant file) invariant.now scope.old) result scope.new }
{
    match invariant {
        Some(invariant) => annotations.invariant(scope, file, invariant),
        None => Ok(()),
    }
}

/// What stands in front of the body of a `while`: its condition and its invariant.
#[tactic(auto, using(crate::proofs::Steps::end_of))]
fn walk_while_head<A: Annotations>(
    scope: &mut Scope,
    annotations: &A,
    file: u32,
    test: &Expr,
    invariant: &Option<Invariant>,
) -> Result<(), RuleFault>
    ensures { Follows (Then (Only (condition test.now scope.old)) (Optional ((A.meanings annotations.now).invariant file) invariant.now)) result scope.new }
{
    walk_condition(scope, test)?;
    walk_invariant(scope, annotations, file, invariant)
}

/// What stands in front of the body of a `for`: its first part, its condition, its step and its invariant.
#[derive(Drop)]
struct ForHead<'a> {
    start: &'a Option<First>,
    test: &'a Option<Expr>,
    step: &'a Option<Simple>,
    invariant: &'a Option<Invariant>,
}

/// The first part of a `for`, its condition and its step.
#[tactic(auto, using(crate::proofs::Steps::go, crate::proofs::Steps::stop))]
fn walk_for_parts(scope: &mut Scope, head: &ForHead<'_>) -> Result<(), RuleFault>
    ensures { Gives result scope.new (for_parts head.now.start.now head.now.test.now head.now.step.now scope.old) }
{
    walk_optional_first(scope, head.start)?;
    walk_optional_condition(scope, head.test)?;
    walk_optional_simple(scope, head.step)
}

/// What stands in front of the body of a `for` at a place.
#[tactic(auto, using(crate::proofs::Steps::end_of))]
fn walk_for_head<A: Annotations>(
    scope: &mut Scope,
    annotations: &A,
    place: Place,
    head: &ForHead<'_>,
) -> Result<(), RuleFault>
    ensures { Follows (WalksForHead (A.meanings annotations.now) place head.now.start.now head.now.test.now head.now.step.now head.now.invariant.now scope.old) result scope.new }
{
    walk_for_parts(scope, head)?;
    walk_invariant(scope, annotations, place.file, head.invariant)
}

/// Takes the local away that the first part of a `for` declares, where so many stood before it.
fn leave_first(scope: &mut Scope, count: usize, part: &Option<First>) -> Result<(), RuleFault>
    ensures { Gives result scope.new (without_first part.now count scope.old) }
{
    if let Some(First::Declaration(_, _, _)) = part {
        scope.locals.remove(count)?;
    }
    Ok(())
}

/// A statement whose locals are its own.
#[cycle(stmt)]
#[tactic(auto, using(crate::proofs::Steps::end_here))]
fn walk_inner<A: Annotations>(
    scope: &mut Scope,
    annotations: &A,
    given: CType,
    statement: &Stmt,
) -> Result<(), RuleFault>
    ensures { Follows (Inner (WalksStmt (A.meanings annotations.now) given statement.now) scope.old) result scope.new }
{
    let count = scope.locals.names.len();
    walk_statement(scope, annotations, given, statement)?;
    scope.locals.leave(count);
    Ok(())
}

/// Two statements that follow a condition.
#[cycle(stmt)]
fn walk_branches<A: Annotations>(
    scope: &mut Scope,
    annotations: &A,
    given: CType,
    test: &Expr,
    yes: &Stmt,
    no: &Stmt,
) -> Result<(), RuleFault>
    ensures { Follows (Then (Then (Only (condition test.now scope.old)) (Inner (WalksStmt (A.meanings annotations.now) given yes.now))) (Inner (WalksStmt (A.meanings annotations.now) given no.now))) result scope.new }
{
    walk_condition(scope, test)?;
    walk_inner(scope, annotations, given, yes)?;
    walk_inner(scope, annotations, given, no)
}

/// A statement that follows a condition.
#[cycle(stmt)]
#[tactic(auto, using(crate::proofs::Steps::end_of))]
fn walk_if<A: Annotations>(
    scope: &mut Scope,
    annotations: &A,
    given: CType,
    test: &Expr,
    yes: &Stmt,
) -> Result<(), RuleFault>
    ensures { Follows (Then (Only (condition test.now scope.old)) (Inner (WalksStmt (A.meanings annotations.now) given yes.now))) result scope.new }
{
    walk_condition(scope, test)?;
    walk_inner(scope, annotations, given, yes)
}

/// A `while` that stands in a file.
#[cycle(stmt)]
#[tactic(auto, using(crate::proofs::Steps::end_here))]
fn walk_while<A: Annotations>(
    scope: &mut Scope,
    annotations: &A,
    given: CType,
    file: u32,
    test: &Expr,
    invariant: &Option<Invariant>,
    body: &Stmt,
) -> Result<(), RuleFault>
    ensures { Follows (Then (Then (Only (condition test.now scope.old)) (Optional ((A.meanings annotations.now).invariant file) invariant.now)) (Inner (WalksStmt (A.meanings annotations.now) given body.now))) result scope.new }
{
    walk_while_head(scope, annotations, file, test, invariant)?;
    walk_inner(scope, annotations, given, body)
}

/// The body of a `for`, before whose first part so many locals stood.
#[cycle(stmt)]
#[tactic(auto, using(crate::proofs::Steps::last, crate::proofs::Steps::end_here))]
fn walk_for_body<A: Annotations>(
    scope: &mut Scope,
    annotations: &A,
    given: CType,
    count: usize,
    start: &Option<First>,
    body: &Stmt,
) -> Result<(), RuleFault>
    ensures { Follows (WalksForBody start.now count (WalksStmt (A.meanings annotations.now) given body.now) scope.old) result scope.new }
{
    walk_inner(scope, annotations, given, body)?;
    leave_first(scope, count, start)
}

/// A `for` at a place.
#[cycle(stmt)]
fn walk_for<A: Annotations>(
    scope: &mut Scope,
    annotations: &A,
    given: CType,
    place: Place,
    head: &ForHead<'_>,
    body: &Stmt,
) -> Result<(), RuleFault>
    ensures { Follows (Then (WalksForHead (A.meanings annotations.now) place head.now.start.now head.now.test.now head.now.step.now head.now.invariant.now scope.old) (WalksForBody head.now.start.now (count scope.old) (WalksStmt (A.meanings annotations.now) given body.now))) result scope.new }
{
    let count = scope.locals.names.len();
    walk_for_head(scope, annotations, place, head)?;
    walk_for_body(scope, annotations, given, count, head.start, body)
}

/// A statement in a function that gives a type.
#[cycle(stmt)]
#[tactic(auto, using(crate::proofs::Steps::just))]
fn walk_statement<A: Annotations>(
    scope: &mut Scope,
    annotations: &A,
    given: CType,
    statement: &Stmt,
) -> Result<(), RuleFault>
    ensures { Follows (WalksStmt (A.meanings annotations.now) given statement.now scope.old) result scope.new }
{
    match &statement.node {
        StmtNode::Declaration(written, name, value, _) => walk_declaration(
            scope, written, name, value,
        ),
        StmtNode::Simple(part, _) => walk_simple(scope, part),
        StmtNode::If(test, yes) => walk_if(scope, annotations, given, test, yes),
        StmtNode::IfElse(test, yes, no) => walk_branches(scope, annotations, given, test, yes, no),
        StmtNode::While(test, invariant, body) => {
            let file = statement.place.file;
            walk_while(scope, annotations, given, file, test, invariant, body)
        }
        StmtNode::For(start, test, step, invariant, body) => {
            let head = ForHead {
                start,
                test,
                step,
                invariant,
            };
            walk_for(scope, annotations, given, statement.place, &head, body)
        }
        StmtNode::Return(value, _) => walk_return(scope, given, statement.place, value),
        StmtNode::Block(statements, _) => walk_block(scope, annotations, given, statements),
        StmtNode::Empty => Ok(()),
        StmtNode::Ghost(command) => annotations.command(scope, command),
    }
}

/// Statements whose locals are their own.
#[cycle(stmt)]
#[tactic(auto, using(crate::proofs::Steps::end_here))]
fn walk_block<A: Annotations>(
    scope: &mut Scope,
    annotations: &A,
    given: CType,
    statements: &StmtList,
) -> Result<(), RuleFault>
    ensures { Follows (Inner (WalksStmts (A.meanings annotations.now) given (stmt_list statements.now)) scope.old) result scope.new }
{
    let count = scope.locals.names.len();
    walk_statements(scope, annotations, given, statements)?;
    scope.locals.leave(count);
    Ok(())
}

/// Statements in a function that gives a type.
#[cycle(stmt)]
#[tactic(auto, using(crate::proofs::Lists::stmt_smaller, crate::proofs::Loops::leads_here, crate::proofs::Loops::stmts_more, crate::proofs::Loops::stmts_stop, crate::proofs::Loops::stmts_none, crate::proofs::Loops::stmts_end))]
pub fn walk_statements<A: Annotations>(
    scope: &mut Scope,
    annotations: &A,
    given: CType,
    statements: &StmtList,
) -> Result<(), RuleFault>
    ensures { Follows (WalksStmts (A.meanings annotations.now) given (stmt_list statements.now) scope.old) result scope.new }
{
    for at in 0..statements.len() {
        let Some(statement) = statements.get(at) else {
            return Ok(());
        };
        walk_statement(scope, annotations, given, statement)?;
    }
    Ok(())
}
