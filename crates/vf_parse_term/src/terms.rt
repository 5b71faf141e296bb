//! Expressions of ghost text.

ghost use Rattle.std.specs.Prelude.{◌≡◌, IfOk};
ghost use Rattle.vf_lexer.specs.declared.punctuator.Punctuator.TheVariants.{Comma, CloseParenthesis};
ghost use Rattle.vf_syntax.specs.declared.side.Side.TheVariants.{Ghost};
ghost use Rattle.vf_syntax.specs.GhostExprTree as tree;
ghost use Rattle.vf_syntax.specs.Walks.{head_has, is_mark};
ghost use Rattle.vf_cursor.specs.Parsing.{Gives, many};
ghost use Rattle.vf_parse_term.specs.Pieces.{too_deep_at, behind_comma, comma_step, some_at, any_at};
ghost use Rattle.vf_parse_term.specs.Terms.{is_constant_word, begins_term, literal_at, constant_at, arguments_at, named_at, second_branch_at, branches_at, parenthesized_at, primary_form_at, primary_at, signed_at, level_above, joins, link_at, link_step, chained, chain_at, joined_by, rest_at, joined_at, term_at, branch_at, unary_at, operand_at};

use std::alloc::Global;
use vf_base::{Memory, Place, Text};
use vf_cursor::cursor::{Cursor, is_word};
use vf_cursor::fault::Stop;
use vf_lexer::{Punctuator, Token};
use vf_syntax::ghost_expr::{GhostExpr, GhostExprList, GhostExprNode, GhostLink, GhostLinkList};
use vf_syntax::keyword::Keyword;
use vf_syntax::operator::Level;
use vf_syntax::side::Side;

#[tactic(auto, unfolding(crate::specs::Terms::is_constant_word))]
fn is_constant_word(token: &Token) -> bool
    ensures { result ≡ is_constant_word token.now }
{
    is_word(Side::Ghost, Keyword::True, token)
        || is_word(Side::Ghost, Keyword::False, token)
        || is_word(Side::Ghost, Keyword::Result, token)
        || is_word(Side::Ghost, Keyword::This, token)
        || is_word(Side::Ghost, Keyword::CurrentThread, token)
}

fn sees_constant_word(cursor: &Cursor) -> bool
    ensures { result ≡ head_has is_constant_word cursor.now.left.now }
{
    match cursor.left {
        [] => false,
        [first, ..] => is_constant_word(first),
    }
}

/// Whether an expression can begin with what comes next.
#[tactic(auto, using(crate::proofs::Heads::begins_term_is), unfolding(crate::specs::Terms::begins_term))]
pub fn sees_term(cursor: &Cursor) -> bool
    ensures { result ≡ head_has begins_term cursor.now.left.now }
{
    cursor.sees_mark(Side::Ghost, Punctuator::OpenParenthesis)
        || cursor.sees_name(Side::Ghost)
        || sees_constant_word(cursor)
        || cursor.sees_number(Side::Ghost)
        || cursor.next_unary(Side::Ghost).is_some()
}

/// An expression may not stand there, since it stands too deep.
#[tactic(auto, unfolding(crate::specs::Pieces::too_deep_at))]
fn too_deep(cursor: &Cursor) -> Result<GhostExpr, Stop>
    ensures { Gives result cursor.now.left.now (too_deep_at begins_term cursor.now.left.now) }
{
    if sees_term(cursor) {
        Err(cursor.depth())
    } else {
        Err(cursor.syntax())
    }
}

/// A truth value, or a number.
#[tactic(auto, unfolding(crate::specs::Terms::literal_at))]
fn literal(cursor: &mut Cursor, place: Place) -> Result<GhostExpr, Stop>
    ensures { Gives result cursor.new.left.now (literal_at place cursor.old.left.now) }
{
    if cursor.sees_word(Side::Ghost, Keyword::True) {
        cursor.word(Side::Ghost, Keyword::True)?;
        return Ok(GhostExpr {
            place,
            node: GhostExprNode::True,
        });
    }
    if cursor.sees_word(Side::Ghost, Keyword::False) {
        cursor.word(Side::Ghost, Keyword::False)?;
        return Ok(GhostExpr {
            place,
            node: GhostExprNode::False,
        });
    }
    let (value, int_type) = cursor.number(Side::Ghost)?;
    let node = GhostExprNode::Number(value, int_type);
    Ok(GhostExpr { place, node })
}

/// A word that is an expression, or a number.
#[tactic(auto, unfolding(crate::specs::Terms::constant_at))]
fn constant(cursor: &mut Cursor, place: Place) -> Result<GhostExpr, Stop>
    ensures { Gives result cursor.new.left.now (constant_at place cursor.old.left.now) }
{
    if cursor.sees_word(Side::Ghost, Keyword::Result) {
        cursor.word(Side::Ghost, Keyword::Result)?;
        return Ok(GhostExpr {
            place,
            node: GhostExprNode::Result,
        });
    }
    if cursor.sees_word(Side::Ghost, Keyword::This) {
        cursor.word(Side::Ghost, Keyword::This)?;
        return Ok(GhostExpr {
            place,
            node: GhostExprNode::This,
        });
    }
    if cursor.sees_word(Side::Ghost, Keyword::CurrentThread) {
        cursor.word(Side::Ghost, Keyword::CurrentThread)?;
        let node = GhostExprNode::CurrentThread;
        return Ok(GhostExpr { place, node });
    }
    literal(cursor, place)
}

/// An expression in which fewer than `depth` expressions and operators in front of their operand stand in one another.
#[cycle(term)]
#[tactic(auto, unfolding(crate::specs::Terms::term_at))]
pub fn term(cursor: &mut Cursor, depth: u32) -> Result<GhostExpr, Stop>
    ensures { Gives result cursor.new.left.now (term_at depth cursor.old.left.now) }
{
    if depth == 0 {
        return too_deep(cursor);
    }
    joined(cursor, depth - 1, 6)
}

/// An expression that stands one deeper than it seems.
#[cycle(term)]
#[tactic(auto, unfolding(crate::specs::Terms::branch_at))]
fn branch(cursor: &mut Cursor, depth: u32) -> Result<GhostExpr, Stop>
    ensures { Gives result cursor.new.left.now (branch_at depth cursor.old.left.now) }
{
    if depth == 0 {
        return too_deep(cursor);
    }
    term(cursor, depth - 1)
}

/// An operand behind an operator.
#[cycle(term)]
#[tactic(auto, unfolding(crate::specs::Terms::unary_at))]
fn unary(cursor: &mut Cursor, depth: u32) -> Result<GhostExpr, Stop>
    ensures { Gives result cursor.new.left.now (unary_at depth cursor.old.left.now) }
{
    if depth == 0 {
        return too_deep(cursor);
    }
    operand(cursor, depth - 1)
}

/// An operand.
#[cycle(term)]
#[tactic(auto, unfolding(crate::specs::Terms::signed_at))]
pub fn operand(cursor: &mut Cursor, depth: u32) -> Result<GhostExpr, Stop>
    ensures { Gives result cursor.new.left.now (operand_at depth cursor.old.left.now) }
{
    match cursor.next_unary(Side::Ghost) {
        None => primary(cursor, depth),
        Some(operator) => {
            let place = cursor.mark(Side::Ghost, operator.mark())?;
            let inner = unary(cursor, depth)?;
            let node = GhostExprNode::Unary(operator, Box::new(cursor.alloc, inner)?);
            Ok(GhostExpr { place, node })
        }
    }
}

#[cycle(term)]
#[tactic(auto, unfolding(crate::specs::Terms::primary_at))]
fn primary(cursor: &mut Cursor, depth: u32) -> Result<GhostExpr, Stop>
    ensures { Gives result cursor.new.left.now (primary_at (term_at depth) (branch_at depth) cursor.old.left.now) }
{
    let place = cursor.here()?;
    primary_form(cursor, depth, place)
}

#[cycle(term)]
#[tactic(auto, unfolding(crate::specs::Terms::primary_form_at))]
fn primary_form(cursor: &mut Cursor, depth: u32, place: Place) -> Result<GhostExpr, Stop>
    ensures { Gives result cursor.new.left.now (primary_form_at (term_at depth) (branch_at depth) place cursor.old.left.now) }
{
    if cursor.sees_mark(Side::Ghost, Punctuator::OpenParenthesis) {
        return parenthesized(cursor, depth, place);
    }
    if cursor.sees_name(Side::Ghost) {
        let name = cursor.name(Side::Ghost)?;
        return named(cursor, depth, place, name.text);
    }
    constant(cursor, place)
}

/// An expression in parentheses, or a conditional in them.
#[cycle(term)]
#[tactic(auto, unfolding(crate::specs::Terms::parenthesized_at))]
fn parenthesized(cursor: &mut Cursor, depth: u32, place: Place) -> Result<GhostExpr, Stop>
    ensures { Gives result cursor.new.left.now (parenthesized_at (term_at depth) (branch_at depth) place cursor.old.left.now) }
{
    cursor.mark(Side::Ghost, Punctuator::OpenParenthesis)?;
    let inner = term(cursor, depth)?;
    if cursor.sees_mark(Side::Ghost, Punctuator::Question) {
        return branches(cursor, depth, place, inner);
    }
    cursor.mark(Side::Ghost, Punctuator::CloseParenthesis)?;
    let node = GhostExprNode::Parenthesized(Box::new(cursor.alloc, inner)?);
    Ok(GhostExpr { place, node })
}

/// What stands behind the test of a conditional, up to its `)`.
#[cycle(term)]
#[tactic(auto, unfolding(crate::specs::Terms::branches_at))]
fn branches(
    cursor: &mut Cursor,
    depth: u32,
    place: Place,
    test: GhostExpr,
) -> Result<GhostExpr, Stop>
    ensures { Gives result cursor.new.left.now (branches_at (branch_at depth) place test cursor.old.left.now) }
{
    cursor.mark(Side::Ghost, Punctuator::Question)?;
    let first = branch(cursor, depth)?;
    second_branch(cursor, depth, place, test, first)
}

/// What stands behind the first branch of a conditional, up to its `)`.
#[cycle(term)]
#[tactic(auto, unfolding(crate::specs::Terms::second_branch_at))]
fn second_branch(
    cursor: &mut Cursor,
    depth: u32,
    place: Place,
    test: GhostExpr,
    first: GhostExpr,
) -> Result<GhostExpr, Stop>
    ensures { Gives result cursor.new.left.now (second_branch_at (branch_at depth) place test first cursor.old.left.now) }
{
    cursor.mark(Side::Ghost, Punctuator::Colon)?;
    let second = branch(cursor, depth)?;
    cursor.mark(Side::Ghost, Punctuator::CloseParenthesis)?;
    Ok(conditional(cursor.alloc, place, test, first, second)?)
}

fn conditional(
    alloc: Global,
    place: Place,
    test: GhostExpr,
    first: GhostExpr,
    second: GhostExpr,
) -> Result<GhostExpr, Memory>
    ensures { IfOk result (λ t. t ≡ tree.conditional place test first second) }
{
    let test = Box::new(alloc, test)?;
    let first = Box::new(alloc, first)?;
    let second = Box::new(alloc, second)?;
    let node = GhostExprNode::Conditional(test, first, second);
    Ok(GhostExpr { place, node })
}

/// A name, or an application of it, behind the name.
#[cycle(term)]
#[tactic(auto, unfolding(crate::specs::Terms::named_at))]
fn named(cursor: &mut Cursor, depth: u32, place: Place, name: Text) -> Result<GhostExpr, Stop>
    ensures { Gives result cursor.new.left.now (named_at (term_at depth) place name cursor.old.left.now) }
{
    if cursor.sees_mark(Side::Ghost, Punctuator::OpenParenthesis) {
        let inside = arguments(cursor, depth)?;
        let node = GhostExprNode::Application(name, inside);
        return Ok(GhostExpr { place, node });
    }
    Ok(GhostExpr {
        place,
        node: GhostExprNode::Name(name),
    })
}

/// Arguments between parentheses.
#[cycle(term)]
#[tactic(auto, unfolding(crate::specs::Terms::arguments_at))]
pub fn arguments(cursor: &mut Cursor, depth: u32) -> Result<GhostExprList, Stop>
    ensures { Gives result cursor.new.left.now (arguments_at (term_at depth) cursor.old.left.now) }
{
    cursor.mark(Side::Ghost, Punctuator::OpenParenthesis)?;
    let inside = any_terms(cursor, depth)?;
    cursor.mark(Side::Ghost, Punctuator::CloseParenthesis)?;
    Ok(inside)
}

#[cycle(term)]
#[tactic(auto, unfolding(crate::specs::Pieces::any_at))]
fn any_terms(cursor: &mut Cursor, depth: u32) -> Result<GhostExprList, Stop>
    ensures { Gives result cursor.new.left.now (any_at (is_mark Ghost CloseParenthesis) (term_at depth) cursor.old.left.now) }
{
    if cursor.sees_mark(Side::Ghost, Punctuator::CloseParenthesis) {
        return Ok(GhostExprList::new(cursor.alloc));
    }
    some_terms(cursor, depth)
}

#[cycle(term)]
#[tactic(auto, unfolding(crate::specs::Pieces::some_at))]
fn some_terms(cursor: &mut Cursor, depth: u32) -> Result<GhostExprList, Stop>
    ensures { Gives result cursor.new.left.now (some_at (term_at depth) cursor.old.left.now) }
{
    let first = term(cursor, depth)?;
    let mut terms = GhostExprList::new(cursor.alloc);
    terms.push(first)?;
    more_terms(cursor, depth, terms)
}

#[cycle(term)]
#[tactic(auto, using(vf_cursor::proofs::Loop::many_stops, vf_cursor::proofs::Loop::many_goes, vf_cursor::proofs::Loop::many_fails))]
fn more_terms(cursor: &mut Cursor, depth: u32, first: GhostExprList) -> Result<GhostExprList, Stop>
    ensures { Gives result cursor.new.left.now (many (is_mark Ghost Comma) (comma_step (term_at depth)) first cursor.old.left.now) }
{
    let mut terms = first;
    let most = cursor.left.len();
    for i in 0..most {
        if !cursor.sees_mark(Side::Ghost, Punctuator::Comma) {
            return Ok(terms);
        }
        terms = one_more_term(cursor, depth, terms)?;
    }
    Ok(terms)
}

/// One more expression, behind a comma.
#[cycle(term)]
#[tactic(auto, unfolding(crate::specs::Pieces::comma_step, crate::specs::Pieces::behind_comma))]
fn one_more_term(
    cursor: &mut Cursor,
    depth: u32,
    before: GhostExprList,
) -> Result<GhostExprList, Stop>
    ensures { Gives result cursor.new.left.now (comma_step (term_at depth) before cursor.old.left.now) }
{
    let mut terms = before;
    cursor.mark(Side::Ghost, Punctuator::Comma)?;
    let next = term(cursor, depth)?;
    terms.push(next)?;
    Ok(terms)
}

/// The level above the lowest `below`.
#[tactic(auto, using(crate::proofs::Heads::last_level))]
fn level_above(below: u32) -> Level
    ensures { result ≡ level_above below }
{
    match below {
        0 => Level::Multiplicative,
        1 => Level::Additive,
        2 => Level::Relational,
        3 => Level::Equality,
        4 => Level::And,
        _ => Level::Or,
    }
}

/// Whether an operator of a level comes next.
#[tactic(auto, using(crate::proofs::Heads::joins_next))]
pub fn sees_level(cursor: &Cursor, level: Level) -> bool
    ensures { result ≡ head_has (joins level) cursor.now.left.now }
{
    cursor.next_on(Side::Ghost, level).is_some()
}

/// Operands joined on the lowest `levels` levels.
#[cycle(term)]
#[tactic(auto, unfolding(crate::specs::Terms::joined_by))]
pub fn joined(cursor: &mut Cursor, depth: u32, levels: u32) -> Result<GhostExpr, Stop>
    ensures { Gives result cursor.new.left.now (joined_at (operand_at depth) levels cursor.old.left.now) }
{
    let place = cursor.here()?;
    let first = operand(cursor, depth)?;
    rest(cursor, depth, levels, place, first)
}

/// What goes on with a first operand on the lowest `levels` levels.
#[cycle(term)]
#[tactic(auto, unfolding(crate::specs::Terms::rest_at))]
pub fn rest(
    cursor: &mut Cursor,
    depth: u32,
    levels: u32,
    place: Place,
    first: GhostExpr,
) -> Result<GhostExpr, Stop>
    ensures { Gives result cursor.new.left.now (rest_at (operand_at depth) levels place first cursor.old.left.now) }
{
    if levels == 0 {
        return Ok(first);
    }
    let operand = rest(cursor, depth, levels - 1, place, first)?;
    let level = level_above(levels - 1);
    chain(cursor, depth, levels - 1, level, place, operand)
}

/// What joins a first operand on a level to others, which are joined on the lowest `below` levels.
#[cycle(term)]
#[tactic(auto, unfolding(crate::specs::Terms::chain_at))]
fn chain(
    cursor: &mut Cursor,
    depth: u32,
    below: u32,
    level: Level,
    place: Place,
    first: GhostExpr,
) -> Result<GhostExpr, Stop>
    ensures { Gives result cursor.new.left.now (chain_at level (joined_at (operand_at depth) below) place first cursor.old.left.now) }
{
    let links = GhostLinkList::new(cursor.alloc);
    let links = more_links(cursor, depth, below, level, links)?;
    Ok(chained(cursor.alloc, place, level, first, links)?)
}

fn chained(
    alloc: Global,
    place: Place,
    level: Level,
    first: GhostExpr,
    links: GhostLinkList,
) -> Result<GhostExpr, Memory>
    ensures { IfOk result (λ t. t ≡ chained place level first links) }
{
    if links.len() == 0 {
        return Ok(first);
    }
    let first = Box::new(alloc, first)?;
    let node = GhostExprNode::Chain(level, first, links);
    Ok(GhostExpr { place, node })
}

#[cycle(term)]
#[tactic(auto, using(vf_cursor::proofs::Loop::many_stops, vf_cursor::proofs::Loop::many_goes, vf_cursor::proofs::Loop::many_fails))]
fn more_links(
    cursor: &mut Cursor,
    depth: u32,
    below: u32,
    level: Level,
    first: GhostLinkList,
) -> Result<GhostLinkList, Stop>
    ensures { Gives result cursor.new.left.now (many (joins level) (link_step level (joined_at (operand_at depth) below)) first cursor.old.left.now) }
{
    let mut links = first;
    let most = cursor.left.len();
    for i in 0..most {
        if !sees_level(cursor, level) {
            return Ok(links);
        }
        links = one_more_link(cursor, depth, below, level, links)?;
    }
    Ok(links)
}

/// One more operator of a level, and the operand behind it.
#[cycle(term)]
#[tactic(auto, unfolding(crate::specs::Terms::link_step))]
fn one_more_link(
    cursor: &mut Cursor,
    depth: u32,
    below: u32,
    level: Level,
    before: GhostLinkList,
) -> Result<GhostLinkList, Stop>
    ensures { Gives result cursor.new.left.now (link_step level (joined_at (operand_at depth) below) before cursor.old.left.now) }
{
    let mut links = before;
    let next = link(cursor, depth, below, level)?;
    links.push(next)?;
    Ok(links)
}

/// An operator of a level, and the operand behind it.
#[cycle(term)]
#[tactic(auto, unfolding(crate::specs::Terms::link_at))]
fn link(cursor: &mut Cursor, depth: u32, below: u32, level: Level) -> Result<GhostLink, Stop>
    ensures { Gives result cursor.new.left.now (link_at level (joined_at (operand_at depth) below) cursor.old.left.now) }
{
    match cursor.next_on(Side::Ghost, level) {
        None => Err(cursor.syntax()),
        Some(operator) => {
            let place = cursor.mark(Side::Ghost, operator.mark())?;
            let operand = joined(cursor, depth, below)?;
            Ok(GhostLink {
                place,
                operator,
                operand,
            })
        }
    }
}
