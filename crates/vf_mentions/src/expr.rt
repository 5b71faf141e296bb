//! Expressions, assignments and calls of C text.

ghost use Rattle.std.specs.Prelude.{◌≡◌, ◌++◌, OnOk};
ghost use Rattle.vf_syntax.specs.ExprTree.{expr_list, link_list, postfix_list};
ghost use Rattle.vf_mentions.specs.Mentioned.{if_there};
ghost use Rattle.vf_mentions.specs.RealText.{mentioned_in_arguments, mentioned_in_expr, mentioned_in_link, mentioned_in_links, mentioned_in_postfix, mentioned_in_postfixes, mentioned_in_simple};

use crate::mention::{Mention, find_in_name};
use vf_base::{Memory, Sequence};
use vf_names::Names;
use vf_syntax::expr::{
    Expr, ExprList, ExprNode, Link, LinkList, Postfix, PostfixList, PostfixNode,
};
use vf_syntax::simple::Simple;

/// Puts what an expression mentions behind what was found.
#[cycle(expr)]
pub fn find_in_expr(
    locals: &Names,
    found: &mut Sequence<Mention>,
    expr: &Expr,
) -> Result<(), Memory>
    ensures { OnOk result (found.new ≡ found.old ++ mentioned_in_expr locals.now expr.now) }
{
    match &expr.node {
        ExprNode::Name(name) => find_in_name(locals, found, name),
        ExprNode::Parenthesized(inner) => find_in_expr(locals, found, inner),
        ExprNode::MallocInts(length, _) => find_in_expr(locals, found, length),
        ExprNode::Postfix(start, parts) => {
            find_in_expr(locals, found, start)?;
            find_in_postfixes(locals, found, parts)
        }
        ExprNode::Unary(_, operand) => find_in_expr(locals, found, operand),
        ExprNode::Cast(_, operand) => find_in_expr(locals, found, operand),
        ExprNode::Chain(_, start, links) => {
            find_in_expr(locals, found, start)?;
            find_in_links(locals, found, links)
        }
        ExprNode::Conditional(test, yes, no) => {
            find_in_expr(locals, found, test)?;
            find_in_expr(locals, found, yes)?;
            find_in_expr(locals, found, no)
        }
        _ => Ok(()),
    }
}

/// The same of arguments.
#[cycle(expr)]
#[tactic(auto, using(crate::proofs::Lists::expr_smaller))]
fn find_in_arguments(
    locals: &Names,
    found: &mut Sequence<Mention>,
    arguments: &ExprList,
) -> Result<(), Memory>
    ensures { OnOk result (found.new ≡ found.old ++ mentioned_in_arguments locals.now (expr_list arguments.now)) }
{
    for at in 0..arguments.len() {
        let Some(argument) = arguments.get(at) else {
            return Ok(());
        };
        find_in_expr(locals, found, argument)?;
    }
    Ok(())
}

/// The same of the operand behind an operator.
#[cycle(expr)]
fn find_in_link(locals: &Names, found: &mut Sequence<Mention>, link: &Link) -> Result<(), Memory>
    ensures { OnOk result (found.new ≡ found.old ++ mentioned_in_link locals.now link.now) }
{
    find_in_expr(locals, found, &link.operand)
}

/// The same of the operands behind some operators.
#[cycle(expr)]
#[tactic(auto, using(crate::proofs::Lists::link_smaller))]
fn find_in_links(
    locals: &Names,
    found: &mut Sequence<Mention>,
    links: &LinkList,
) -> Result<(), Memory>
    ensures { OnOk result (found.new ≡ found.old ++ mentioned_in_links locals.now (link_list links.now)) }
{
    for at in 0..links.len() {
        let Some(link) = links.get(at) else {
            return Ok(());
        };
        find_in_link(locals, found, link)?;
    }
    Ok(())
}

/// The same of what stands behind an operand.
#[cycle(expr)]
fn find_in_postfix(
    locals: &Names,
    found: &mut Sequence<Mention>,
    part: &Postfix,
) -> Result<(), Memory>
    ensures { OnOk result (found.new ≡ found.old ++ mentioned_in_postfix locals.now part.now) }
{
    match &part.node {
        PostfixNode::Field(_) => Ok(()),
        PostfixNode::Index(index) => find_in_expr(locals, found, index),
        PostfixNode::Call(arguments) => find_in_arguments(locals, found, arguments),
    }
}

/// The same of all that stands behind an operand.
#[cycle(expr)]
#[tactic(auto, using(crate::proofs::Lists::postfix_smaller))]
fn find_in_postfixes(
    locals: &Names,
    found: &mut Sequence<Mention>,
    parts: &PostfixList,
) -> Result<(), Memory>
    ensures { OnOk result (found.new ≡ found.old ++ mentioned_in_postfixes locals.now (postfix_list parts.now)) }
{
    for at in 0..parts.len() {
        let Some(part) = parts.get(at) else {
            return Ok(());
        };
        find_in_postfix(locals, found, part)?;
    }
    Ok(())
}

/// The same of an expression, if there is one.
pub fn find_in_optional_expr(
    locals: &Names,
    found: &mut Sequence<Mention>,
    expr: &Option<Expr>,
) -> Result<(), Memory>
    ensures { OnOk result (found.new ≡ found.old ++ if_there (mentioned_in_expr locals.now) expr.now) }
{
    match expr {
        Some(expr) => find_in_expr(locals, found, expr),
        None => Ok(()),
    }
}

/// The same of an assignment or a call.
pub fn find_in_simple(
    locals: &Names,
    found: &mut Sequence<Mention>,
    simple: &Simple,
) -> Result<(), Memory>
    ensures { OnOk result (found.new ≡ found.old ++ mentioned_in_simple locals.now simple.now) }
{
    match simple {
        Simple::Assignment(left, _, _, right) => {
            find_in_expr(locals, found, left)?;
            find_in_expr(locals, found, right)
        }
        Simple::StepAfter(left, _, _) => find_in_expr(locals, found, left),
        Simple::StepBefore(_, _, left) => find_in_expr(locals, found, left),
        Simple::Call(call) => find_in_expr(locals, found, call),
    }
}
