//! Statements.

ghost use Rattle.std.specs.Prelude.{◌≡◌, OnOk};
ghost use Rattle.vf_syntax.specs.StmtTree.{stmt_list};
ghost use Rattle.vf_lower.specs.Statements.{type_in};
ghost use Rattle.vf_walk.specs.Walking.{Follows, Only, Then};
ghost use Rattle.vf_resolved_bodies.specs.Statements.{count, declared, first_declared, Inner, TellsCommand, TellsInvariant, TellsLoop, TellsStmt, TellsStmts, TellsTurn, without_first};
ghost use Rattle.vf_resolved_bodies.specs.Telling.{leaving, telling_of};

use crate::annotation::Annotation;
use crate::invariants::invariant_told;
use crate::telling::{Telling, leave_from, put_real, take_away};
use std::alloc::Global;
use vf_base::{Memory, Refusal, RuleFault, Text};
use vf_commands::around_statements;
use vf_declared::ctype::CType;
use vf_resolved_texts::command_told;
use vf_syntax::contract::Invariant;
use vf_syntax::ghost_command::GhostCommand;
use vf_syntax::simple::First;
use vf_syntax::stmt::{Stmt, StmtList, StmtNode};
use vf_syntax::written::{CType as WrittenType, Name};
use vf_typing::written_type;

/// The type that a written type is, and `void` where it is none.
fn type_in(found: Result<CType, Refusal>) -> CType
    ensures { result ≡ type_in found }
{
    match found {
        Ok(ctype) => ctype,
        Err(_) => CType::Void,
    }
}

/// A declaration of a local.
fn tell_declaration(
    alloc: Global,
    telling: &mut Telling,
    written: &WrittenType,
    name: &Name,
) -> Result<(), Memory>
    ensures { OnOk result (telling_of telling.new ≡ declared written.now name.now (telling_of telling.old)) }
{
    let ctype = type_in(written_type(&telling.standing.scope, written));
    put_real(alloc, telling, name, ctype)
}

/// What stands first in a `for`.
fn tell_first(alloc: Global, telling: &mut Telling, first: &Option<First>) -> Result<(), Memory>
    ensures { OnOk result (telling_of telling.new ≡ first_declared first.now (telling_of telling.old)) }
{
    match first {
        Some(First::Declaration(written, name, _)) => {
            tell_declaration(alloc, telling, written, name)
        }
        _ => Ok(()),
    }
}

/// Takes the local away that the first part of a `for` declares, where so many stood before it.
fn leave_first(telling: &mut Telling, count: usize, first: &Option<First>) -> Result<(), Memory>
    ensures { OnOk result (telling_of telling.new ≡ without_first first.now count (telling_of telling.old)) }
{
    match first {
        Some(First::Declaration(_, _, _)) => take_away(telling, count),
        _ => Ok(()),
    }
}

/// A ghost command.
#[tactic(auto, using(crate::proofs::Steps::command_memory, crate::proofs::Steps::command_refused, crate::proofs::Steps::command_told))]
fn tell_command(
    alloc: Global,
    paths: &[Text],
    telling: &mut Telling,
    command: &GhostCommand,
) -> Result<(), RuleFault>
    ensures { Follows (TellsCommand paths.now command.now (telling_of telling.old)) result (telling_of telling.new) }
{
    let around = around_statements(alloc);
    let command = command_told(alloc, paths, &around, &mut telling.standing, command)?;
    telling.told.push(Annotation::Command(command))?;
    Ok(())
}

/// The invariant of a loop.
#[tactic(auto, using(crate::proofs::Steps::command_memory, crate::proofs::Steps::invariant_refused, crate::proofs::Steps::loop_told))]
fn tell_invariant(
    alloc: Global,
    paths: &[Text],
    telling: &mut Telling,
    invariant: &Invariant,
) -> Result<(), RuleFault>
    ensures { Follows (TellsInvariant paths.now invariant.now (telling_of telling.old)) result (telling_of telling.new) }
{
    let invariant = invariant_told(alloc, paths, &mut telling.standing, invariant)?;
    telling.told.push(Annotation::Loop(Some(invariant)))?;
    Ok(())
}

/// The head of a loop, which has an invariant or not.
#[tactic(auto, using(crate::proofs::Steps::command_memory, crate::proofs::Steps::bare_told, crate::proofs::Steps::with_invariant))]
fn tell_loop(
    alloc: Global,
    paths: &[Text],
    telling: &mut Telling,
    invariant: &Option<Invariant>,
) -> Result<(), RuleFault>
    ensures { Follows (TellsLoop paths.now invariant.now (telling_of telling.old)) result (telling_of telling.new) }
{
    match invariant {
        Some(invariant) => tell_invariant(alloc, paths, telling, invariant),
        None => {
            telling.told.push(Annotation::Loop(None))?;
            Ok(())
        }
    }
}

/// A statement whose locals are its own.
#[cycle(stmt)]
#[tactic(auto, using(vf_walk::proofs::Steps::end_here))]
fn tell_inner(
    alloc: Global,
    paths: &[Text],
    telling: &mut Telling,
    statement: &Stmt,
) -> Result<(), RuleFault>
    ensures { Follows (Inner (TellsStmt paths.now statement.now) (telling_of telling.old)) result (telling_of telling.new) }
{
    let count = telling.standing.scope.locals.names.len();
    tell_statement(alloc, paths, telling, statement)?;
    leave_from(telling, count);
    Ok(())
}

/// Two branches, one after the other.
#[cycle(stmt)]
#[tactic(auto, using(vf_walk::proofs::Steps::end_here))]
fn tell_branches(
    alloc: Global,
    paths: &[Text],
    telling: &mut Telling,
    yes: &Stmt,
    no: &Stmt,
) -> Result<(), RuleFault>
    ensures { Follows (Then (Inner (TellsStmt paths.now yes.now) (telling_of telling.old)) (Inner (TellsStmt paths.now no.now))) result (telling_of telling.new) }
{
    tell_inner(alloc, paths, telling, yes)?;
    tell_inner(alloc, paths, telling, no)
}

/// The head of a loop and its body.
#[cycle(stmt)]
#[tactic(auto, using(vf_walk::proofs::Steps::end_here))]
fn tell_turn(
    alloc: Global,
    paths: &[Text],
    telling: &mut Telling,
    invariant: &Option<Invariant>,
    body: &Stmt,
) -> Result<(), RuleFault>
    ensures { Follows (TellsTurn paths.now invariant.now (TellsStmt paths.now body.now) (telling_of telling.old)) result (telling_of telling.new) }
{
    tell_loop(alloc, paths, telling, invariant)?;
    tell_inner(alloc, paths, telling, body)
}

/// A `for`, whose first part stands in front of its invariant and its body.
#[cycle(stmt)]
#[tactic(auto, using(vf_walk::proofs::Steps::end_here, crate::proofs::Steps::command_memory))]
fn tell_for(
    alloc: Global,
    paths: &[Text],
    telling: &mut Telling,
    first: &Option<First>,
    invariant: &Option<Invariant>,
    body: &Stmt,
) -> Result<(), RuleFault>
    ensures { Follows (Then (TellsTurn paths.now invariant.now (TellsStmt paths.now body.now) (first_declared first.now (telling_of telling.old))) (λ t. Only (Ok (without_first first.now (count (telling_of telling.old)) t)))) result (telling_of telling.new) }
{
    let count = telling.standing.scope.locals.names.len();
    tell_first(alloc, telling, first)?;
    tell_turn(alloc, paths, telling, invariant, body)?;
    leave_first(telling, count, first)?;
    Ok(())
}

/// A statement.
#[cycle(stmt)]
#[tactic(auto, using(crate::proofs::Steps::stays, crate::proofs::Steps::command_memory))]
fn tell_statement(
    alloc: Global,
    paths: &[Text],
    telling: &mut Telling,
    statement: &Stmt,
) -> Result<(), RuleFault>
    ensures { Follows (TellsStmt paths.now statement.now (telling_of telling.old)) result (telling_of telling.new) }
{
    match &statement.node {
        StmtNode::Declaration(written, name, _, _) => {
            tell_declaration(alloc, telling, written, name)?;
            Ok(())
        }
        StmtNode::If(_, yes) => tell_inner(alloc, paths, telling, yes),
        StmtNode::IfElse(_, yes, no) => tell_branches(alloc, paths, telling, yes, no),
        StmtNode::While(_, invariant, body) => tell_turn(alloc, paths, telling, invariant, body),
        StmtNode::For(first, _, _, invariant, body) => {
            tell_for(alloc, paths, telling, first, invariant, body)
        }
        StmtNode::Block(statements, _) => tell_block(alloc, paths, telling, statements),
        StmtNode::Simple(_, _) => Ok(()),
        StmtNode::Return(_, _) => Ok(()),
        StmtNode::Empty => Ok(()),
        StmtNode::Ghost(command) => tell_command(alloc, paths, telling, command),
    }
}

/// Statements whose locals are their own.
#[cycle(stmt)]
#[tactic(auto, using(vf_walk::proofs::Steps::end_here))]
fn tell_block(
    alloc: Global,
    paths: &[Text],
    telling: &mut Telling,
    statements: &StmtList,
) -> Result<(), RuleFault>
    ensures { Follows (Inner (TellsStmts paths.now (stmt_list statements.now)) (telling_of telling.old)) result (telling_of telling.new) }
{
    let count = telling.standing.scope.locals.names.len();
    statements_told(alloc, paths, telling, statements)?;
    leave_from(telling, count);
    Ok(())
}

/// Statements in order: their annotations are told behind those that were told before, and what they declare is declared
/// behind what was.
///
/// # Errors
///
/// Refused at the first annotation whose sorting is refused; what was told is of no use then.
#[cycle(stmt)]
#[tactic(auto, using(vf_walk::proofs::Lists::stmt_smaller, crate::proofs::Loops::leads_here, crate::proofs::Loops::stmts_more, crate::proofs::Loops::stmts_stop, crate::proofs::Loops::stmts_none, crate::proofs::Loops::stmts_end))]
pub fn statements_told(
    alloc: Global,
    paths: &[Text],
    telling: &mut Telling,
    statements: &StmtList,
) -> Result<(), RuleFault>
    ensures { Follows (TellsStmts paths.now (stmt_list statements.now) (telling_of telling.old)) result (telling_of telling.new) }
{
    for at in 0..statements.len() {
        let Some(statement) = statements.get(at) else {
            return Ok(());
        };
        tell_statement(alloc, paths, telling, statement)?;
    }
    Ok(())
}
