//! Statements in which no other stands, and what stands in front of the statement in a loop or an `if`.

ghost use Rattle.std.specs.Prelude.{◌≡◌, IfOk};
ghost use Rattle.vf_syntax.specs.declared.keyword.Keyword.TheVariants as keywords;
ghost use Rattle.vf_syntax.specs.declared.side.Side.TheVariants.{Real};
ghost use Rattle.vf_syntax.specs.StmtTree as tree;
ghost use Rattle.vf_syntax.specs.Walks.{head_has, is_word};
ghost use Rattle.vf_cursor.specs.Parsing.{Gives};
ghost use Rattle.vf_parse_expression.specs.Parsers.{expr_at, postfix_at};
ghost use Rattle.vf_parse_statement.specs.Parsers.{is_whole, owed_at, is_inside, sees_statement_word, sees_statement, declaration_at, simple_statement_at, optional_expr_at, return_at, empty_at, flat_at, command_statement_at, condition_at, optional_first_at, optional_step_at, behind_condition_at, behind_first_at, head_at, while_head_at, for_head_at, sees_annotation, while_of, for_of};

use crate::annotations::GhostText;
use std::alloc::Global;
use vf_base::{Memory, Place};
use vf_cursor::cursor::{Cursor, is_on};
use vf_cursor::fault::Stop;
use vf_lexer::Punctuator;
use vf_parse_expression::expr::expr;
use vf_parse_expression::operands::sees_primary;
use vf_parse_simple::simple::{declared, first, optional_value, sees_declaration, simple};
use vf_syntax::contract::Invariant;
use vf_syntax::expr::Expr;
use vf_syntax::keyword::Keyword;
use vf_syntax::side::{Grammar, Side};
use vf_syntax::simple::{First, Simple};
use vf_syntax::stmt::{Stmt, StmtNode};

/// Whether a grammar has annotations.
pub fn is_whole(grammar: Grammar) -> bool
    ensures { result ≡ is_whole grammar }
{
    match grammar {
        Grammar::Whole => true,
        Grammar::Plain => false,
    }
}

/// Whether an annotation comes next, which the grammar has.
#[tactic(auto, unfolding(crate::specs::Parsers::sees_annotation))]
pub fn sees_annotation(cursor: &Cursor, grammar: Grammar) -> bool
    ensures { result ≡ sees_annotation grammar cursor.now.left.now }
{
    match cursor.left {
        [] => false,
        [first, ..] => is_whole(grammar) && is_on(Side::Ghost, first),
    }
}

/// Whether the next token stands inside of a block.
#[tactic(auto, unfolding(crate::specs::Parsers::is_inside))]
pub fn sees_inside(cursor: &Cursor) -> bool
    ensures { result ≡ head_has is_inside cursor.now.left.now }
{
    match cursor.left {
        [] => false,
        [_, ..] => !cursor.sees_mark(Side::Real, Punctuator::CloseBrace),
    }
}

/// Whether an `else` comes next, which belongs to the nearest `if` in front of it.
pub fn sees_else(cursor: &Cursor) -> bool
    ensures { result ≡ head_has (is_word Real keywords.Else) cursor.now.left.now }
{
    cursor.sees_word(Side::Real, Keyword::Else)
}

#[tactic(auto, unfolding(crate::specs::Parsers::sees_statement_word))]
fn sees_statement_word(cursor: &Cursor) -> bool
    ensures { result ≡ sees_statement_word cursor.now.left.now }
{
    cursor.sees_word(Side::Real, Keyword::If)
        || (cursor.sees_word(Side::Real, Keyword::While)
            || (cursor.sees_word(Side::Real, Keyword::For)
                || cursor.sees_word(Side::Real, Keyword::Return)))
}

/// Whether what can begin a statement of real text comes next.
#[tactic(auto, unfolding(crate::specs::Parsers::sees_statement))]
pub fn sees_statement(cursor: &Cursor) -> bool
    ensures { result ≡ sees_statement cursor.now.left.now }
{
    sees_statement_word(cursor)
        || (cursor.sees_mark(Side::Real, Punctuator::OpenBrace)
            || (cursor.sees_mark(Side::Real, Punctuator::Semicolon)
                || (cursor.sees_type_word(Side::Real)
                    || (cursor.next_step().is_some() || sees_primary(cursor)))))
}

#[tactic(auto, unfolding(crate::specs::Parsers::declaration_at))]
fn declaration(cursor: &mut Cursor, depth: u32) -> Result<Stmt, Stop>
    ensures { Gives result cursor.new.left.now (declaration_at (expr_at depth) cursor.old.left.now) }
{
    let place = cursor.here()?;
    let (written, name) = declared(cursor)?;
    match optional_value(cursor, depth) {
        Ok(value) => match cursor.mark(Side::Real, Punctuator::Semicolon) {
            Ok(last) => {
                let node = StmtNode::Declaration(written, name, value, last);
                Ok(Stmt { place, node })
            }
            Err(stop) => {
                drop(written);
                drop(name);
                drop(value);
                Err(stop)
            }
        },
        Err(stop) => {
            drop(written);
            drop(name);
            Err(stop)
        }
    }
}

/// An assignment or a call, and its `;`.
#[tactic(auto, unfolding(crate::specs::Parsers::simple_statement_at))]
fn simple_statement(cursor: &mut Cursor, depth: u32) -> Result<Stmt, Stop>
    ensures { Gives result cursor.new.left.now (simple_statement_at (expr_at depth) (postfix_at depth) cursor.old.left.now) }
{
    let place = cursor.here()?;
    let read = simple(cursor, depth)?;
    match cursor.mark(Side::Real, Punctuator::Semicolon) {
        Ok(last) => {
            let node = StmtNode::Simple(read, last);
            Ok(Stmt { place, node })
        }
        Err(stop) => {
            drop(read);
            Err(stop)
        }
    }
}

/// An expression, or none where `;` comes next.
#[tactic(auto, unfolding(crate::specs::Parsers::optional_expr_at))]
fn optional_expr(cursor: &mut Cursor, depth: u32) -> Result<Option<Expr>, Stop>
    ensures { Gives result cursor.new.left.now (optional_expr_at (expr_at depth) cursor.old.left.now) }
{
    if cursor.sees_mark(Side::Real, Punctuator::Semicolon) {
        return Ok(None);
    }
    let read = expr(cursor, depth)?;
    Ok(Some(read))
}

#[tactic(auto, unfolding(crate::specs::Parsers::return_at))]
fn return_statement(cursor: &mut Cursor, depth: u32) -> Result<Stmt, Stop>
    ensures { Gives result cursor.new.left.now (return_at (expr_at depth) cursor.old.left.now) }
{
    let place = cursor.word(Side::Real, Keyword::Return)?;
    let value = optional_expr(cursor, depth)?;
    match cursor.mark(Side::Real, Punctuator::Semicolon) {
        Ok(last) => {
            let node = StmtNode::Return(value, last);
            Ok(Stmt { place, node })
        }
        Err(stop) => {
            drop(value);
            Err(stop)
        }
    }
}

#[tactic(auto, unfolding(crate::specs::Parsers::empty_at))]
fn empty(cursor: &mut Cursor) -> Result<Stmt, Stop>
    ensures { Gives result cursor.new.left.now (empty_at cursor.old.left.now) }
{
    let place = cursor.mark(Side::Real, Punctuator::Semicolon)?;
    let node = StmtNode::Empty;
    Ok(Stmt { place, node })
}

/// A statement in which no other stands.
#[tactic(auto, unfolding(crate::specs::Parsers::flat_at))]
pub fn flat(cursor: &mut Cursor, depth: u32) -> Result<Stmt, Stop>
    ensures { Gives result cursor.new.left.now (flat_at (expr_at depth) (postfix_at depth) cursor.old.left.now) }
{
    if cursor.sees_word(Side::Real, Keyword::Return) {
        return return_statement(cursor, depth);
    }
    if cursor.sees_mark(Side::Real, Punctuator::Semicolon) {
        return empty(cursor);
    }
    if sees_declaration(cursor) {
        return declaration(cursor, depth);
    }
    simple_statement(cursor, depth)
}

/// A ghost command, as a statement.
#[tactic(auto, unfolding(crate::specs::Parsers::command_statement_at))]
pub fn command_statement<G: GhostText>(
    cursor: &mut Cursor,
    annotations: &G,
    depth: u32,
) -> Result<Stmt, Stop>
    ensures { Gives result cursor.new.left.now (command_statement_at (G.command_at depth) cursor.old.left.now) }
{
    let place = cursor.here()?;
    let read = annotations.command(cursor, depth)?;
    let node = StmtNode::Ghost(read);
    Ok(Stmt { place, node })
}

/// An invariant, which the whole grammar owes.
fn owed_invariant<G: GhostText>(
    cursor: &mut Cursor,
    annotations: &G,
    grammar: Grammar,
    depth: u32,
) -> Result<Option<Invariant>, Stop>
    ensures { Gives result cursor.new.left.now (owed_at grammar (G.invariant_at depth) cursor.old.left.now) }
{
    if is_whole(grammar) {
        let read = annotations.invariant(cursor, depth)?;
        return Ok(Some(read));
    }
    Ok(None)
}

/// An expression between parentheses.
#[tactic(auto, unfolding(crate::specs::Parsers::condition_at))]
pub fn condition(cursor: &mut Cursor, depth: u32) -> Result<Expr, Stop>
    ensures { Gives result cursor.new.left.now (condition_at (expr_at depth) cursor.old.left.now) }
{
    cursor.mark(Side::Real, Punctuator::OpenParenthesis)?;
    let read = expr(cursor, depth)?;
    match cursor.mark(Side::Real, Punctuator::CloseParenthesis) {
        Ok(_) => Ok(read),
        Err(stop) => {
            drop(read);
            Err(stop)
        }
    }
}

#[tactic(auto, unfolding(crate::specs::Parsers::optional_first_at))]
fn optional_first(cursor: &mut Cursor, depth: u32) -> Result<Option<First>, Stop>
    ensures { Gives result cursor.new.left.now (optional_first_at (expr_at depth) (postfix_at depth) cursor.old.left.now) }
{
    if cursor.sees_mark(Side::Real, Punctuator::Semicolon) {
        return Ok(None);
    }
    let read = first(cursor, depth)?;
    Ok(Some(read))
}

#[tactic(auto, unfolding(crate::specs::Parsers::optional_step_at))]
fn optional_step(cursor: &mut Cursor, depth: u32) -> Result<Option<Simple>, Stop>
    ensures { Gives result cursor.new.left.now (optional_step_at (expr_at depth) (postfix_at depth) cursor.old.left.now) }
{
    if cursor.sees_mark(Side::Real, Punctuator::CloseParenthesis) {
        return Ok(None);
    }
    let read = simple(cursor, depth)?;
    Ok(Some(read))
}

/// What stands between the parentheses of a `for`.
#[derive(Drop)]
pub struct Parts {
    pub first: Option<First>,
    pub condition: Option<Expr>,
    pub step: Option<Simple>,
}

/// A `while` up to its body: its place, its condition and its invariant.
pub type WhileHead = (Place, Expr, Option<Invariant>);

/// A `for` up to its body: its place, what stands between its parentheses, and its invariant.
pub type ForHead = (Place, Parts, Option<Invariant>);

/// What stands behind the condition of a `for` and its `;`.
#[tactic(auto, unfolding(crate::specs::Parsers::behind_condition_at))]
fn behind_condition(
    cursor: &mut Cursor,
    depth: u32,
    first: Option<First>,
    condition: Option<Expr>,
) -> Result<Parts, Stop>
    ensures { Gives result cursor.new.left.now (behind_condition_at (expr_at depth) (postfix_at depth) first condition cursor.old.left.now) }
{
    match optional_step(cursor, depth) {
        Ok(step) => match cursor.mark(Side::Real, Punctuator::CloseParenthesis) {
            Ok(_) => Ok(Parts {
                first,
                condition,
                step,
            }),
            Err(stop) => {
                drop(first);
                drop(condition);
                drop(step);
                Err(stop)
            }
        },
        Err(stop) => {
            drop(first);
            drop(condition);
            Err(stop)
        }
    }
}

/// What stands behind the first part of a `for` and its `;`.
#[tactic(auto, unfolding(crate::specs::Parsers::behind_first_at))]
fn behind_first(cursor: &mut Cursor, depth: u32, first: Option<First>) -> Result<Parts, Stop>
    ensures { Gives result cursor.new.left.now (behind_first_at (expr_at depth) (postfix_at depth) first cursor.old.left.now) }
{
    match optional_expr(cursor, depth) {
        Ok(condition) => match cursor.mark(Side::Real, Punctuator::Semicolon) {
            Ok(_) => behind_condition(cursor, depth, first, condition),
            Err(stop) => {
                drop(first);
                drop(condition);
                Err(stop)
            }
        },
        Err(stop) => {
            drop(first);
            Err(stop)
        }
    }
}

/// What stands between the parentheses of a `for`.
#[tactic(auto, unfolding(crate::specs::Parsers::head_at, crate::specs::Parsers::behind_first_at, crate::specs::Parsers::behind_condition_at))]
fn for_parts(cursor: &mut Cursor, depth: u32) -> Result<Parts, Stop>
    ensures { Gives result cursor.new.left.now (head_at (expr_at depth) (postfix_at depth) cursor.old.left.now) }
{
    cursor.mark(Side::Real, Punctuator::OpenParenthesis)?;
    let first = optional_first(cursor, depth)?;
    match cursor.mark(Side::Real, Punctuator::Semicolon) {
        Ok(_) => behind_first(cursor, depth, first),
        Err(stop) => {
            drop(first);
            Err(stop)
        }
    }
}

/// A `while` up to its body.
#[tactic(auto, unfolding(crate::specs::Parsers::while_head_at))]
pub fn while_head<G: GhostText>(
    cursor: &mut Cursor,
    annotations: &G,
    grammar: Grammar,
    depth: u32,
) -> Result<WhileHead, Stop>
    ensures { Gives result cursor.new.left.now (while_head_at grammar (expr_at depth) (G.invariant_at depth) cursor.old.left.now) }
{
    let place = cursor.word(Side::Real, Keyword::While)?;
    let tested = condition(cursor, depth)?;
    match owed_invariant(cursor, annotations, grammar, depth) {
        Ok(invariant) => Ok((place, tested, invariant)),
        Err(stop) => {
            drop(tested);
            Err(stop)
        }
    }
}

/// A `for` up to its body.
#[tactic(auto, unfolding(crate::specs::Parsers::for_head_at))]
pub fn for_head<G: GhostText>(
    cursor: &mut Cursor,
    annotations: &G,
    grammar: Grammar,
    depth: u32,
) -> Result<ForHead, Stop>
    ensures { Gives result cursor.new.left.now (for_head_at grammar (expr_at depth) (postfix_at depth) (G.invariant_at depth) cursor.old.left.now) }
{
    let place = cursor.word(Side::Real, Keyword::For)?;
    let parts = for_parts(cursor, depth)?;
    match owed_invariant(cursor, annotations, grammar, depth) {
        Ok(invariant) => Ok((place, parts, invariant)),
        Err(stop) => {
            drop(parts);
            Err(stop)
        }
    }
}

/// An `if` and its branch.
pub fn if_of(alloc: Global, place: Place, tested: Expr, branch: Stmt) -> Result<Stmt, Memory>
    ensures { IfOk result (λ x. x ≡ tree.if_ place tested branch) }
{
    match Box::new(alloc, branch) {
        Ok(branch) => {
            let node = StmtNode::If(tested, branch);
            Ok(Stmt { place, node })
        }
        Err(failed) => {
            drop(tested);
            Err(Memory::from(failed))
        }
    }
}

/// An `if` and both of its branches.
pub fn if_else_of(
    alloc: Global,
    place: Place,
    tested: Expr,
    branch: Box<Stmt>,
    other: Stmt,
) -> Result<Stmt, Memory>
    ensures { IfOk result (λ x. x ≡ tree.if_else place tested branch.value other) }
{
    match Box::new(alloc, other) {
        Ok(other) => {
            let node = StmtNode::IfElse(tested, branch, other);
            Ok(Stmt { place, node })
        }
        Err(failed) => {
            drop(tested);
            Err(Memory::from(failed))
        }
    }
}

/// A `while` and its body.
pub fn while_of(alloc: Global, head: WhileHead, body: Stmt) -> Result<Stmt, Memory>
    ensures { IfOk result (λ x. x ≡ while_of head body) }
{
    let (place, tested, invariant) = head;
    match Box::new(alloc, body) {
        Ok(body) => {
            let node = StmtNode::While(tested, invariant, body);
            Ok(Stmt { place, node })
        }
        Err(failed) => {
            drop(tested);
            drop(invariant);
            Err(Memory::from(failed))
        }
    }
}

/// A `for` and its body.
pub fn for_of(alloc: Global, head: ForHead, body: Stmt) -> Result<Stmt, Memory>
    ensures { IfOk result (λ x. x ≡ for_of head body) }
{
    let (place, parts, invariant) = head;
    match Box::new(alloc, body) {
        Ok(body) => {
            let Parts {
                first,
                condition,
                step,
            } = parts;
            let node = StmtNode::For(first, condition, step, invariant, body);
            Ok(Stmt { place, node })
        }
        Err(failed) => {
            drop(parts);
            drop(invariant);
            Err(Memory::from(failed))
        }
    }
}
