//! Statements, lists of statements, and bodies.

ghost use Rattle.std.specs.Prelude.{◌≡◌, []};
ghost use Rattle.vf_cursor.specs.Parsing.{Gives};
ghost use Rattle.vf_parse_expression.specs.Parsers.{expr_at, postfix_at};
ghost use Rattle.vf_parse_statement.specs.Parsers.{other_branch_at, branches_at, if_at, while_at, for_at, block_by, real_by, real_at, stmt_at, stmts_at, body_at};

use crate::annotations::GhostText;
use crate::flat::{
    command_statement, condition, flat, for_head, for_of, if_else_of, if_of, sees_annotation,
    sees_else, sees_inside, sees_statement, while_head, while_of,
};
use vf_base::Place;
use vf_cursor::cursor::Cursor;
use vf_cursor::fault::Stop;
use vf_lexer::Punctuator;
use vf_syntax::expr::Expr;
use vf_syntax::item::Body;
use vf_syntax::keyword::Keyword;
use vf_syntax::side::{Grammar, Side};
use vf_syntax::stmt::{Stmt, StmtList, StmtNode};

/// A statement or a ghost command that nests so deep at most, itself counted.
#[cycle(statement)]
#[tactic(auto, unfolding(crate::specs::Parsers::stmt_by))]
pub fn statement<G: GhostText>(
    cursor: &mut Cursor,
    annotations: &G,
    grammar: Grammar,
    depth: u32,
) -> Result<Stmt, Stop>
    ensures { Gives result cursor.new.left.now (stmt_at grammar G.command_at G.invariant_at depth cursor.old.left.now) }
{
    if sees_annotation(cursor, grammar) {
        return command_statement(cursor, annotations, depth);
    }
    real_statement(cursor, annotations, grammar, depth)
}

/// A statement of real text that nests so deep at most, itself counted.
#[cycle(statement)]
#[tactic(auto, unfolding(crate::specs::Parsers::real_at))]
fn real_statement<G: GhostText>(
    cursor: &mut Cursor,
    annotations: &G,
    grammar: Grammar,
    depth: u32,
) -> Result<Stmt, Stop>
    ensures { Gives result cursor.new.left.now (real_at grammar G.command_at G.invariant_at depth cursor.old.left.now) }
{
    if depth == 0 {
        if sees_statement(cursor) {
            return Err(cursor.depth());
        }
        return Err(cursor.syntax());
    }
    form(cursor, annotations, grammar, depth - 1)
}

/// A statement of real text, in which so many levels of nesting may stand.
#[cycle(statement)]
#[tactic(auto, unfolding(crate::specs::Parsers::real_by))]
fn form<G: GhostText>(
    cursor: &mut Cursor,
    annotations: &G,
    grammar: Grammar,
    depth: u32,
) -> Result<Stmt, Stop>
    ensures { Gives result cursor.new.left.now (real_by grammar (expr_at depth) (postfix_at depth) (G.invariant_at depth) (real_at grammar G.command_at G.invariant_at depth) (stmt_at grammar G.command_at G.invariant_at depth) cursor.old.left.now) }
{
    if cursor.sees_word(Side::Real, Keyword::If) {
        return if_statement(cursor, annotations, grammar, depth);
    }
    if cursor.sees_word(Side::Real, Keyword::While) {
        return while_statement(cursor, annotations, grammar, depth);
    }
    if cursor.sees_word(Side::Real, Keyword::For) {
        return for_statement(cursor, annotations, grammar, depth);
    }
    if cursor.sees_mark(Side::Real, Punctuator::OpenBrace) {
        return block(cursor, annotations, grammar, depth);
    }
    flat(cursor, depth)
}

#[cycle(statement)]
#[tactic(auto, unfolding(crate::specs::Parsers::if_at))]
fn if_statement<G: GhostText>(
    cursor: &mut Cursor,
    annotations: &G,
    grammar: Grammar,
    depth: u32,
) -> Result<Stmt, Stop>
    ensures { Gives result cursor.new.left.now (if_at (expr_at depth) (real_at grammar G.command_at G.invariant_at depth) cursor.old.left.now) }
{
    let place = cursor.word(Side::Real, Keyword::If)?;
    let tested = condition(cursor, depth)?;
    match real_statement(cursor, annotations, grammar, depth) {
        Ok(branch) => branches(cursor, annotations, grammar, depth, place, tested, branch),
        Err(stop) => {
            drop(tested);
            Err(stop)
        }
    }
}

/// What stands behind the branch of an `if`: an `else`, which belongs to it, or nothing of it.
#[cycle(statement)]
#[tactic(auto, unfolding(crate::specs::Parsers::branches_at, crate::specs::Parsers::other_branch_at))]
fn branches<G: GhostText>(
    cursor: &mut Cursor,
    annotations: &G,
    grammar: Grammar,
    depth: u32,
    place: Place,
    tested: Expr,
    branch: Stmt,
) -> Result<Stmt, Stop>
    ensures { Gives result cursor.new.left.now (branches_at (real_at grammar G.command_at G.invariant_at depth) place tested branch cursor.old.left.now) }
{
    if !sees_else(cursor) {
        return Ok(if_of(cursor.alloc, place, tested, branch)?);
    }
    match Box::new(cursor.alloc, branch) {
        Ok(branch) => other_branch(cursor, annotations, grammar, depth, place, tested, branch),
        Err(failed) => {
            drop(tested);
            Err(Stop::from(failed))
        }
    }
}

/// An `else` and the statement behind it.
#[cycle(statement)]
#[tactic(auto, unfolding(crate::specs::Parsers::other_branch_at))]
fn other_branch<G: GhostText>(
    cursor: &mut Cursor,
    annotations: &G,
    grammar: Grammar,
    depth: u32,
    place: Place,
    tested: Expr,
    branch: Box<Stmt>,
) -> Result<Stmt, Stop>
    ensures { Gives result cursor.new.left.now (other_branch_at (real_at grammar G.command_at G.invariant_at depth) place tested branch.value cursor.old.left.now) }
{
    match cursor.word(Side::Real, Keyword::Else) {
        Ok(_) => match real_statement(cursor, annotations, grammar, depth) {
            Ok(other) => Ok(if_else_of(cursor.alloc, place, tested, branch, other)?),
            Err(stop) => {
                drop(tested);
                Err(stop)
            }
        },
        Err(stop) => {
            drop(tested);
            Err(stop)
        }
    }
}

#[cycle(statement)]
#[tactic(auto, unfolding(crate::specs::Parsers::while_at))]
fn while_statement<G: GhostText>(
    cursor: &mut Cursor,
    annotations: &G,
    grammar: Grammar,
    depth: u32,
) -> Result<Stmt, Stop>
    ensures { Gives result cursor.new.left.now (while_at grammar (expr_at depth) (G.invariant_at depth) (real_at grammar G.command_at G.invariant_at depth) cursor.old.left.now) }
{
    let head = while_head(cursor, annotations, grammar, depth)?;
    match real_statement(cursor, annotations, grammar, depth) {
        Ok(body) => Ok(while_of(cursor.alloc, head, body)?),
        Err(stop) => {
            let (_, tested, invariant) = head;
            drop(tested);
            drop(invariant);
            Err(stop)
        }
    }
}

#[cycle(statement)]
#[tactic(auto, unfolding(crate::specs::Parsers::for_at))]
fn for_statement<G: GhostText>(
    cursor: &mut Cursor,
    annotations: &G,
    grammar: Grammar,
    depth: u32,
) -> Result<Stmt, Stop>
    ensures { Gives result cursor.new.left.now (for_at grammar (expr_at depth) (postfix_at depth) (G.invariant_at depth) (real_at grammar G.command_at G.invariant_at depth) cursor.old.left.now) }
{
    let head = for_head(cursor, annotations, grammar, depth)?;
    match real_statement(cursor, annotations, grammar, depth) {
        Ok(body) => Ok(for_of(cursor.alloc, head, body)?),
        Err(stop) => {
            let (_, parts, invariant) = head;
            drop(parts);
            drop(invariant);
            Err(stop)
        }
    }
}

#[cycle(statement)]
#[tactic(auto, unfolding(crate::specs::Parsers::block_by))]
fn block<G: GhostText>(
    cursor: &mut Cursor,
    annotations: &G,
    grammar: Grammar,
    depth: u32,
) -> Result<Stmt, Stop>
    ensures { Gives result cursor.new.left.now (block_by (stmt_at grammar G.command_at G.invariant_at depth) cursor.old.left.now) }
{
    let read = body(cursor, annotations, grammar, depth)?;
    let place = read.place;
    let node = StmtNode::Block(read.statements, read.last);
    Ok(Stmt { place, node })
}

/// Statements between braces, each of which nests so deep at most, itself counted.
#[cycle(statement)]
#[tactic(auto, unfolding(crate::specs::Parsers::body_by))]
pub fn body<G: GhostText>(
    cursor: &mut Cursor,
    annotations: &G,
    grammar: Grammar,
    depth: u32,
) -> Result<Body, Stop>
    ensures { Gives result cursor.new.left.now (body_at grammar G.command_at G.invariant_at depth cursor.old.left.now) }
{
    let place = cursor.mark(Side::Real, Punctuator::OpenBrace)?;
    let statements = statements(cursor, annotations, grammar, depth)?;
    let last = cursor.mark(Side::Real, Punctuator::CloseBrace)?;
    Ok(Body {
        place,
        statements,
        last,
    })
}

/// Statements up to a `}`, each of which nests so deep at most, itself counted.
#[cycle(statement)]
#[tactic(auto, unfolding(crate::specs::Parsers::stmts_by), using(vf_cursor::proofs::Loop::many_stops, vf_parse_expression::proofs::Items::items_go, vf_parse_expression::proofs::Items::items_fail))]
pub fn statements<G: GhostText>(
    cursor: &mut Cursor,
    annotations: &G,
    grammar: Grammar,
    depth: u32,
) -> Result<StmtList, Stop>
    ensures { Gives result cursor.new.left.now (stmts_at grammar G.command_at G.invariant_at depth cursor.old.left.now) }
{
    let mut read = StmtList::new(cursor.alloc);
    let most = cursor.left.len();
    for i in 0..most {
        if !sees_inside(cursor) {
            return Ok(read);
        }
        let next = statement(cursor, annotations, grammar, depth)?;
        read.push(next)?;
    }
    Ok(read)
}
