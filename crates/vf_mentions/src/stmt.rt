//! Statements.

ghost use Rattle.std.specs.Prelude.{◌≡◌, ◌++◌, OnOk};
ghost use Rattle.vf_syntax.specs.StmtTree.{stmt_list};
ghost use Rattle.vf_mentions.specs.Mentioned.{if_there};
ghost use Rattle.vf_mentions.specs.RealText.{mentioned_in_expr, mentioned_in_simple};
ghost use Rattle.vf_mentions.specs.Bodies.{mentioned_in_first, mentioned_in_for_head, mentioned_in_invariant, mentioned_in_stmt, mentioned_in_stmts, visible_behind, visible_behind_first, with_local};

use crate::assertion::find_in_assertion;
use crate::command::find_in_command;
use crate::expr::{find_in_expr, find_in_optional_expr, find_in_simple};
use crate::mention::Mention;
use vf_base::{Memory, Sequence};
use vf_names::Names;
use vf_syntax::contract::Invariant;
use vf_syntax::expr::Expr;
use vf_syntax::simple::{First, Simple};
use vf_syntax::stmt::{Stmt, StmtList, StmtNode};
use vf_syntax::written::Name;

/// Declares a local, and puts what its initializer mentions behind what was found.
fn find_in_declaration(
    locals: &mut Names,
    found: &mut Sequence<Mention>,
    name: &Name,
    value: &Option<Expr>,
) -> Result<(), Memory>
    ensures found { OnOk result (found.new ≡ found.old ++ if_there (mentioned_in_expr (with_local locals.old name.now.text)) value.now) }
    ensures locals { OnOk result (locals.new ≡ with_local locals.old name.now.text) }
{
    locals.push(name.text.as_bytes())?;
    find_in_optional_expr(locals, found, value)
}

/// Declares what the first part of a `for` declares, and puts what it mentions behind what was found.
fn find_in_first(
    locals: &mut Names,
    found: &mut Sequence<Mention>,
    first: &Option<First>,
) -> Result<(), Memory>
    ensures found { OnOk result (found.new ≡ found.old ++ if_there (mentioned_in_first locals.old) first.now) }
    ensures locals { OnOk result (locals.new ≡ visible_behind_first locals.old first.now) }
{
    match first {
        Some(First::Declaration(_, name, value)) => {
            locals.push(name.text.as_bytes())?;
            find_in_expr(locals, found, value)
        }
        Some(First::Simple(simple)) => find_in_simple(locals, found, simple),
        None => Ok(()),
    }
}

/// Puts what the step of a `for` mentions behind what was found, if there is one.
fn find_in_step(
    locals: &Names,
    found: &mut Sequence<Mention>,
    step: &Option<Simple>,
) -> Result<(), Memory>
    ensures { OnOk result (found.new ≡ found.old ++ if_there (mentioned_in_simple locals.now) step.now) }
{
    match step {
        Some(simple) => find_in_simple(locals, found, simple),
        None => Ok(()),
    }
}

/// The same of the invariant of a loop, if it has one.
fn find_in_invariant(
    locals: &Names,
    found: &mut Sequence<Mention>,
    invariant: &Option<Invariant>,
) -> Result<(), Memory>
    ensures { OnOk result (found.new ≡ found.old ++ if_there (mentioned_in_invariant locals.now) invariant.now) }
{
    match invariant {
        Some(invariant) => find_in_assertion(locals, found, &invariant.assertion),
        None => Ok(()),
    }
}

/// What stands in front of the body of a `for`.
#[derive(Drop)]
struct ForHead<'a> {
    first: &'a Option<First>,
    test: &'a Option<Expr>,
    step: &'a Option<Simple>,
    invariant: &'a Option<Invariant>,
}

/// Declares what stands in front of the body of a `for`, and puts what it mentions behind what was found.
fn find_in_for_head(
    locals: &mut Names,
    found: &mut Sequence<Mention>,
    head: &ForHead<'_>,
) -> Result<(), Memory>
    ensures found { OnOk result (found.new ≡ found.old ++ mentioned_in_for_head locals.old head.now.first.now head.now.test.now head.now.step.now head.now.invariant.now) }
    ensures locals { OnOk result (locals.new ≡ visible_behind_first locals.old head.now.first.now) }
{
    find_in_first(locals, found, head.first)?;
    find_in_optional_expr(locals, found, head.test)?;
    find_in_step(locals, found, head.step)?;
    find_in_invariant(locals, found, head.invariant)
}

/// Puts what a `for` mentions behind what was found; the locals stay as they are.
#[cycle(stmt)]
fn find_in_for(
    locals: &mut Names,
    found: &mut Sequence<Mention>,
    head: &ForHead<'_>,
    body: &Stmt,
) -> Result<(), Memory>
    ensures found { OnOk result (found.new ≡ found.old ++ (mentioned_in_for_head locals.old head.now.first.now head.now.test.now head.now.step.now head.now.invariant.now ++ mentioned_in_stmt (visible_behind_first locals.old head.now.first.now) body.now)) }
    ensures locals { OnOk result (locals.new ≡ locals.old) }
{
    let count = locals.len();
    find_in_for_head(locals, found, head)?;
    find_in_inner(locals, found, body)?;
    locals.truncate(count);
    Ok(())
}

/// The same of a statement whose locals are its own.
#[cycle(stmt)]
fn find_in_inner(
    locals: &mut Names,
    found: &mut Sequence<Mention>,
    statement: &Stmt,
) -> Result<(), Memory>
    ensures found { OnOk result (found.new ≡ found.old ++ mentioned_in_stmt locals.old statement.now) }
    ensures locals { OnOk result (locals.new ≡ locals.old) }
{
    let count = locals.len();
    find_in_statement(locals, found, statement)?;
    locals.truncate(count);
    Ok(())
}

/// The same of a condition and a statement behind it.
#[cycle(stmt)]
fn find_in_if(
    locals: &mut Names,
    found: &mut Sequence<Mention>,
    test: &Expr,
    yes: &Stmt,
) -> Result<(), Memory>
    ensures found { OnOk result (found.new ≡ found.old ++ (mentioned_in_expr locals.old test.now ++ mentioned_in_stmt locals.old yes.now)) }
    ensures locals { OnOk result (locals.new ≡ locals.old) }
{
    find_in_expr(locals, found, test)?;
    find_in_inner(locals, found, yes)
}

/// The same of a condition and two statements behind it.
#[cycle(stmt)]
fn find_in_branches(
    locals: &mut Names,
    found: &mut Sequence<Mention>,
    test: &Expr,
    yes: &Stmt,
    no: &Stmt,
) -> Result<(), Memory>
    ensures found { OnOk result (found.new ≡ found.old ++ (mentioned_in_expr locals.old test.now ++ (mentioned_in_stmt locals.old yes.now ++ mentioned_in_stmt locals.old no.now))) }
    ensures locals { OnOk result (locals.new ≡ locals.old) }
{
    find_in_expr(locals, found, test)?;
    find_in_inner(locals, found, yes)?;
    find_in_inner(locals, found, no)
}

/// The same of a condition, an invariant and a statement behind them.
#[cycle(stmt)]
fn find_in_while(
    locals: &mut Names,
    found: &mut Sequence<Mention>,
    test: &Expr,
    invariant: &Option<Invariant>,
    body: &Stmt,
) -> Result<(), Memory>
    ensures found { OnOk result (found.new ≡ found.old ++ (mentioned_in_expr locals.old test.now ++ (if_there (mentioned_in_invariant locals.old) invariant.now ++ mentioned_in_stmt locals.old body.now))) }
    ensures locals { OnOk result (locals.new ≡ locals.old) }
{
    find_in_expr(locals, found, test)?;
    find_in_invariant(locals, found, invariant)?;
    find_in_inner(locals, found, body)
}

/// The same of a statement, behind which the local is visible that it declares.
#[cycle(stmt)]
fn find_in_statement(
    locals: &mut Names,
    found: &mut Sequence<Mention>,
    statement: &Stmt,
) -> Result<(), Memory>
    ensures found { OnOk result (found.new ≡ found.old ++ mentioned_in_stmt locals.old statement.now) }
    ensures locals { OnOk result (locals.new ≡ visible_behind locals.old statement.now) }
{
    match &statement.node {
        StmtNode::Declaration(_, name, value, _) => find_in_declaration(locals, found, name, value),
        StmtNode::Simple(simple, _) => find_in_simple(locals, found, simple),
        StmtNode::If(test, yes) => find_in_if(locals, found, test, yes),
        StmtNode::IfElse(test, yes, no) => find_in_branches(locals, found, test, yes, no),
        StmtNode::While(test, invariant, body) => {
            find_in_while(locals, found, test, invariant, body)
        }
        StmtNode::For(first, test, step, invariant, body) => {
            let head = ForHead {
                first,
                test,
                step,
                invariant,
            };
            find_in_for(locals, found, &head, body)
        }
        StmtNode::Return(value, _) => find_in_optional_expr(locals, found, value),
        StmtNode::Block(statements, _) => find_in_block(locals, found, statements),
        StmtNode::Empty => Ok(()),
        StmtNode::Ghost(command) => find_in_command(locals, found, command),
    }
}

/// The same of the statements of a block; the locals stay as they are.
#[cycle(stmt)]
#[tactic(auto, using(crate::proofs::Lists::stmt_smaller))]
pub fn find_in_block(
    locals: &mut Names,
    found: &mut Sequence<Mention>,
    statements: &StmtList,
) -> Result<(), Memory>
    ensures found { OnOk result (found.new ≡ found.old ++ mentioned_in_stmts locals.old (stmt_list statements.now)) }
    ensures locals { OnOk result (locals.new ≡ locals.old) }
{
    let count = locals.len();
    for at in 0..statements.len() {
        let Some(statement) = statements.get(at) else {
            locals.truncate(count);
            return Ok(());
        };
        find_in_statement(locals, found, statement)?;
    }
    locals.truncate(count);
    Ok(())
}
