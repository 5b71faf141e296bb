//! Expressions and patterns of annotations.

ghost use Rattle.std.specs.Prelude.{◌≡◌, ◌++◌, OnOk};
ghost use Rattle.vf_syntax.specs.GhostExprTree.{ghost_expr_list, ghost_link_list};
ghost use Rattle.vf_mentions.specs.GhostText.{mentioned_in_chunk, mentioned_in_ghost_arguments, mentioned_in_ghost_expr, mentioned_in_ghost_link, mentioned_in_ghost_links, mentioned_in_pattern, mentioned_in_patterns};

use crate::mention::{Mention, find_in_name};
use vf_base::{Memory, Sequence};
use vf_names::Names;
use vf_syntax::ghost_expr::{GhostExpr, GhostExprList, GhostExprNode, GhostLink, GhostLinkList};
use vf_syntax::pattern::Pattern;

/// Puts what an expression mentions behind what was found.
#[cycle(ghost_expr)]
pub fn find_in_ghost_expr(
    locals: &Names,
    found: &mut Sequence<Mention>,
    expr: &GhostExpr,
) -> Result<(), Memory>
    ensures { OnOk result (found.new ≡ found.old ++ mentioned_in_ghost_expr locals.now expr.now) }
{
    match &expr.node {
        GhostExprNode::Name(name) => find_in_name(locals, found, name),
        GhostExprNode::Application(_, arguments) => {
            find_in_ghost_arguments(locals, found, arguments)
        }
        GhostExprNode::Parenthesized(inner) => find_in_ghost_expr(locals, found, inner),
        GhostExprNode::Conditional(test, yes, no) => {
            find_in_ghost_expr(locals, found, test)?;
            find_in_ghost_expr(locals, found, yes)?;
            find_in_ghost_expr(locals, found, no)
        }
        GhostExprNode::Unary(_, operand) => find_in_ghost_expr(locals, found, operand),
        GhostExprNode::Chain(_, start, links) => {
            find_in_ghost_expr(locals, found, start)?;
            find_in_ghost_links(locals, found, links)
        }
        _ => Ok(()),
    }
}

/// The same of arguments.
#[cycle(ghost_expr)]
#[tactic(auto, using(crate::proofs::Lists::ghost_expr_smaller))]
pub fn find_in_ghost_arguments(
    locals: &Names,
    found: &mut Sequence<Mention>,
    arguments: &GhostExprList,
) -> Result<(), Memory>
    ensures { OnOk result (found.new ≡ found.old ++ mentioned_in_ghost_arguments locals.now (ghost_expr_list arguments.now)) }
{
    for at in 0..arguments.len() {
        let Some(argument) = arguments.get(at) else {
            return Ok(());
        };
        find_in_ghost_expr(locals, found, argument)?;
    }
    Ok(())
}

/// The same of the operand behind an operator.
#[cycle(ghost_expr)]
fn find_in_ghost_link(
    locals: &Names,
    found: &mut Sequence<Mention>,
    link: &GhostLink,
) -> Result<(), Memory>
    ensures { OnOk result (found.new ≡ found.old ++ mentioned_in_ghost_link locals.now link.now) }
{
    find_in_ghost_expr(locals, found, &link.operand)
}

/// The same of the operands behind some operators.
#[cycle(ghost_expr)]
#[tactic(auto, using(crate::proofs::Lists::ghost_link_smaller))]
fn find_in_ghost_links(
    locals: &Names,
    found: &mut Sequence<Mention>,
    links: &GhostLinkList,
) -> Result<(), Memory>
    ensures { OnOk result (found.new ≡ found.old ++ mentioned_in_ghost_links locals.now (ghost_link_list links.now)) }
{
    for at in 0..links.len() {
        let Some(link) = links.get(at) else {
            return Ok(());
        };
        find_in_ghost_link(locals, found, link)?;
    }
    Ok(())
}

/// The same of a pattern.
pub fn find_in_pattern(
    locals: &Names,
    found: &mut Sequence<Mention>,
    pattern: &Pattern,
) -> Result<(), Memory>
    ensures { OnOk result (found.new ≡ found.old ++ mentioned_in_pattern locals.now pattern.now) }
{
    match pattern {
        Pattern::Is(expr) => find_in_ghost_expr(locals, found, expr),
        Pattern::Binds(_, _) => Ok(()),
        Pattern::Wild(_) => Ok(()),
    }
}

/// The same of some patterns.
fn find_in_patterns(
    locals: &Names,
    found: &mut Sequence<Mention>,
    patterns: &Sequence<Pattern>,
) -> Result<(), Memory>
    ensures { OnOk result (found.new ≡ found.old ++ mentioned_in_patterns locals.now patterns.now) }
{
    for at in 0..patterns.len() {
        let Some(pattern) = patterns.get(at) else {
            return Ok(());
        };
        find_in_pattern(locals, found, pattern)?;
    }
    Ok(())
}

/// The same of a chunk's arguments in the first parentheses, and in the second where there are two.
pub fn find_in_chunk(
    locals: &Names,
    found: &mut Sequence<Mention>,
    first: &Sequence<Pattern>,
    second: &Option<Sequence<Pattern>>,
) -> Result<(), Memory>
    ensures { OnOk result (found.new ≡ found.old ++ mentioned_in_chunk locals.now first.now second.now) }
{
    find_in_patterns(locals, found, first)?;
    match second {
        Some(patterns) => find_in_patterns(locals, found, patterns),
        None => Ok(()),
    }
}
