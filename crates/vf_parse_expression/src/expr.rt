//! Expressions.

ghost use Rattle.std.specs.Prelude.{◌≡◌, ◌≤◌, []};
ghost use Rattle.vf_cursor.specs.Parsing.{Gives};
ghost use Rattle.vf_parse_expression.specs.Operands.{nth_level};
ghost use Rattle.vf_parse_expression.specs.Parsers.{next_argument_at, more_arguments_at, arguments_at, index_at, call_at, part_at, parts_at, malloc_ints_at, malloc_inside_at, malloc_at, parenthesized_at, word_primary_at, primary_at, cast_at, signed_at, unsigned_at, link_at, links_at, chain_at, tier_at, choice_at, conditional_at, expr_at, unary_at, factor_at, operand_at, postfix_at};

use crate::operands::{
    chained, character_primary, field, malloc_struct, nth_level, number_primary, operator, posted,
    sees_cast, sees_joining, sees_operand, sees_part, sees_primary,
};
use vf_base::Place;
use vf_cursor::cursor::Cursor;
use vf_cursor::fault::Stop;
use vf_lexer::Punctuator;
use vf_syntax::expr::{
    Expr, ExprList, ExprNode, Link, LinkList, Postfix, PostfixList, PostfixNode,
};
use vf_syntax::keyword::Keyword;
use vf_syntax::operator::UnaryOperator;
use vf_syntax::side::Side;

/// An expression that nests so deep at most, itself counted.
#[cycle(expr)]
#[tactic(auto, unfolding(crate::specs::Parsers::expr_at))]
pub fn expr(cursor: &mut Cursor, depth: u32) -> Result<Expr, Stop>
    ensures { Gives result cursor.new.left.now (expr_at depth cursor.old.left.now) }
{
    if depth == 0 {
        if sees_operand(cursor) {
            return Err(cursor.depth());
        }
        return Err(cursor.syntax());
    }
    conditional(cursor, depth - 1)
}

#[cycle(expr)]
#[tactic(auto, unfolding(crate::specs::Parsers::conditional_at))]
fn conditional(cursor: &mut Cursor, depth: u32) -> Result<Expr, Stop>
    ensures { Gives result cursor.new.left.now (conditional_at (expr_at depth) (operand_at depth) cursor.old.left.now) }
{
    let place = cursor.here()?;
    let condition = tier(cursor, depth, 6)?;
    choice(cursor, depth, place, condition)
}

/// What stands behind the condition of a conditional, if it is one.
#[cycle(expr)]
#[tactic(auto, unfolding(crate::specs::Parsers::choice_at))]
fn choice(cursor: &mut Cursor, depth: u32, place: Place, condition: Expr) -> Result<Expr, Stop>
    ensures { Gives result cursor.new.left.now (choice_at (expr_at depth) place condition cursor.old.left.now) }
{
    if !cursor.sees_mark(Side::Real, Punctuator::Question) {
        return Ok(condition);
    }
    let alloc = cursor.alloc;
    let condition = Box::new(alloc, condition)?;
    cursor.mark(Side::Real, Punctuator::Question)?;
    let first = Box::new(alloc, expr(cursor, depth)?)?;
    cursor.mark(Side::Real, Punctuator::Colon)?;
    let second = Box::new(alloc, expr(cursor, depth)?)?;
    let node = ExprNode::Conditional(condition, first, second);
    Ok(Expr { place, node })
}

/// Operands joined by operators of the closest so many levels.
#[cycle(expr)]
#[tactic(auto, unfolding(crate::specs::Parsers::tier_at))]
fn tier(cursor: &mut Cursor, depth: u32, levels: u32) -> Result<Expr, Stop>
    requires { levels ≤ 6 }
    ensures { Gives result cursor.new.left.now (tier_at (operand_at depth) levels cursor.old.left.now) }
{
    if levels == 0 {
        return operand(cursor, depth);
    }
    chain(cursor, depth, levels - 1)
}

/// Operands joined by operators of a level.
#[cycle(expr)]
#[tactic(auto, unfolding(crate::specs::Parsers::chain_at))]
fn chain(cursor: &mut Cursor, depth: u32, below: u32) -> Result<Expr, Stop>
    requires { below ≤ 5 }
    ensures { Gives result cursor.new.left.now (chain_at (nth_level below) (tier_at (operand_at depth) below) cursor.old.left.now) }
{
    let place = cursor.here()?;
    let first = tier(cursor, depth, below)?;
    match links(cursor, depth, below) {
        Ok(links) => Ok(chained(cursor.alloc, place, nth_level(below), first, links)?),
        Err(stop) => {
            drop(first);
            Err(stop)
        }
    }
}

/// Operators of a level with their operands.
#[cycle(expr)]
#[tactic(auto, unfolding(crate::specs::Parsers::links_at), using(vf_cursor::proofs::Loop::many_stops, crate::proofs::Items::items_go, crate::proofs::Items::items_fail))]
fn links(cursor: &mut Cursor, depth: u32, below: u32) -> Result<LinkList, Stop>
    requires { below ≤ 5 }
    ensures { Gives result cursor.new.left.now (links_at (nth_level below) (tier_at (operand_at depth) below) cursor.old.left.now) }
{
    let mut links = LinkList::new(cursor.alloc);
    let most = cursor.left.len();
    for i in 0..most {
        if !sees_joining(cursor, nth_level(below)) {
            return Ok(links);
        }
        let next = link(cursor, depth, below)?;
        links.push(next)?;
    }
    Ok(links)
}

/// An operator of a level and the operand behind it.
#[cycle(expr)]
#[tactic(auto, unfolding(crate::specs::Parsers::link_at))]
fn link(cursor: &mut Cursor, depth: u32, below: u32) -> Result<Link, Stop>
    requires { below ≤ 5 }
    ensures { Gives result cursor.new.left.now (link_at (nth_level below) (tier_at (operand_at depth) below) cursor.old.left.now) }
{
    let (place, operator) = operator(cursor, nth_level(below))?;
    let operand = tier(cursor, depth, below)?;
    Ok(Link {
        place,
        operator,
        operand,
    })
}

/// An operand behind an operator, one level of nesting further down.
#[cycle(expr)]
#[tactic(auto, unfolding(crate::specs::Parsers::unary_at))]
fn unary(cursor: &mut Cursor, depth: u32) -> Result<Expr, Stop>
    ensures { Gives result cursor.new.left.now (unary_at depth cursor.old.left.now) }
{
    if depth == 0 {
        if sees_operand(cursor) {
            return Err(cursor.depth());
        }
        return Err(cursor.syntax());
    }
    operand(cursor, depth - 1)
}

/// An operand.
#[cycle(expr)]
#[tactic(auto, unfolding(crate::specs::Parsers::whole_operand_at, crate::specs::Parsers::unsigned_at))]
fn operand(cursor: &mut Cursor, depth: u32) -> Result<Expr, Stop>
    ensures { Gives result cursor.new.left.now (operand_at depth cursor.old.left.now) }
{
    match cursor.next_unary(Side::Real) {
        Some(operator) => signed(cursor, depth, operator),
        None => {
            if sees_cast(cursor) {
                cast(cursor, depth)
            } else {
                postfix(cursor, depth)
            }
        }
    }
}

/// An operator and the operand behind it.
#[cycle(expr)]
#[tactic(auto, unfolding(crate::specs::Parsers::signed_at))]
fn signed(cursor: &mut Cursor, depth: u32, operator: UnaryOperator) -> Result<Expr, Stop>
    ensures { Gives result cursor.new.left.now (signed_at (unary_at depth) operator cursor.old.left.now) }
{
    let place = cursor.mark(Side::Real, operator.mark())?;
    let operand = unary(cursor, depth)?;
    let node = ExprNode::Unary(operator, Box::new(cursor.alloc, operand)?);
    Ok(Expr { place, node })
}

/// A cast and its operand.
#[cycle(expr)]
#[tactic(auto, unfolding(crate::specs::Parsers::cast_at))]
fn cast(cursor: &mut Cursor, depth: u32) -> Result<Expr, Stop>
    ensures { Gives result cursor.new.left.now (cast_at (unary_at depth) cursor.old.left.now) }
{
    let place = cursor.mark(Side::Real, Punctuator::OpenParenthesis)?;
    let written = cursor.ctype(Side::Real)?;
    cursor.mark(Side::Real, Punctuator::CloseParenthesis)?;
    let operand = unary(cursor, depth)?;
    let node = ExprNode::Cast(written, Box::new(cursor.alloc, operand)?);
    Ok(Expr { place, node })
}

/// A primary expression with what stands behind it, in which so many levels of nesting may stand.
#[cycle(expr)]
#[tactic(auto, unfolding(crate::specs::Parsers::post_at))]
pub fn postfix(cursor: &mut Cursor, depth: u32) -> Result<Expr, Stop>
    ensures { Gives result cursor.new.left.now (postfix_at depth cursor.old.left.now) }
{
    let place = cursor.here()?;
    let first = primary(cursor, depth)?;
    match parts(cursor, depth) {
        Ok(parts) => Ok(posted(cursor.alloc, place, first, parts)?),
        Err(stop) => {
            drop(first);
            Err(stop)
        }
    }
}

/// The parts behind an operand.
#[cycle(expr)]
#[tactic(auto, unfolding(crate::specs::Parsers::parts_at), using(vf_cursor::proofs::Loop::many_stops, crate::proofs::Items::items_go, crate::proofs::Items::items_fail))]
fn parts(cursor: &mut Cursor, depth: u32) -> Result<PostfixList, Stop>
    ensures { Gives result cursor.new.left.now (parts_at (expr_at depth) cursor.old.left.now) }
{
    let mut parts = PostfixList::new(cursor.alloc);
    let most = cursor.left.len();
    for i in 0..most {
        if !sees_part(cursor) {
            return Ok(parts);
        }
        let next = part(cursor, depth)?;
        parts.push(next)?;
    }
    Ok(parts)
}

/// A part behind an operand.
#[cycle(expr)]
#[tactic(auto, unfolding(crate::specs::Parsers::part_at))]
fn part(cursor: &mut Cursor, depth: u32) -> Result<Postfix, Stop>
    ensures { Gives result cursor.new.left.now (part_at (expr_at depth) cursor.old.left.now) }
{
    if cursor.sees_mark(Side::Real, Punctuator::Arrow) {
        return field(cursor);
    }
    if cursor.sees_mark(Side::Real, Punctuator::OpenBracket) {
        return index(cursor, depth);
    }
    call(cursor, depth)
}

/// An array read.
#[cycle(expr)]
#[tactic(auto, unfolding(crate::specs::Parsers::index_at))]
fn index(cursor: &mut Cursor, depth: u32) -> Result<Postfix, Stop>
    ensures { Gives result cursor.new.left.now (index_at (expr_at depth) cursor.old.left.now) }
{
    let place = cursor.mark(Side::Real, Punctuator::OpenBracket)?;
    let at = expr(cursor, depth)?;
    match cursor.mark(Side::Real, Punctuator::CloseBracket) {
        Ok(_) => {
            let node = PostfixNode::Index(at);
            Ok(Postfix { place, node })
        }
        Err(stop) => {
            drop(at);
            Err(stop)
        }
    }
}

/// The arguments of a call between their parentheses.
#[cycle(expr)]
#[tactic(auto, unfolding(crate::specs::Parsers::call_at))]
fn call(cursor: &mut Cursor, depth: u32) -> Result<Postfix, Stop>
    ensures { Gives result cursor.new.left.now (call_at (expr_at depth) cursor.old.left.now) }
{
    let place = cursor.mark(Side::Real, Punctuator::OpenParenthesis)?;
    let given = arguments(cursor, depth)?;
    cursor.mark(Side::Real, Punctuator::CloseParenthesis)?;
    let node = PostfixNode::Call(given);
    Ok(Postfix { place, node })
}

/// The arguments of a call.
#[cycle(expr)]
#[tactic(auto, unfolding(crate::specs::Parsers::arguments_at))]
fn arguments(cursor: &mut Cursor, depth: u32) -> Result<ExprList, Stop>
    ensures { Gives result cursor.new.left.now (arguments_at (expr_at depth) cursor.old.left.now) }
{
    let mut given = ExprList::new(cursor.alloc);
    if cursor.sees_mark(Side::Real, Punctuator::CloseParenthesis) {
        return Ok(given);
    }
    let first = expr(cursor, depth)?;
    given.push(first)?;
    more_arguments(cursor, depth, given)
}

/// The arguments of a call behind the first.
#[cycle(expr)]
#[tactic(auto, unfolding(crate::specs::Parsers::more_arguments_at), using(vf_cursor::proofs::Loop::many_stops, crate::proofs::Items::items_go, crate::proofs::Items::items_fail))]
fn more_arguments(cursor: &mut Cursor, depth: u32, first: ExprList) -> Result<ExprList, Stop>
    ensures { Gives result cursor.new.left.now (more_arguments_at (expr_at depth) first cursor.old.left.now) }
{
    let mut given = first;
    let most = cursor.left.len();
    for i in 0..most {
        if !cursor.sees_mark(Side::Real, Punctuator::Comma) {
            return Ok(given);
        }
        let next = next_argument(cursor, depth)?;
        given.push(next)?;
    }
    Ok(given)
}

/// A comma and the argument behind it.
#[cycle(expr)]
#[tactic(auto, unfolding(crate::specs::Parsers::next_argument_at))]
fn next_argument(cursor: &mut Cursor, depth: u32) -> Result<Expr, Stop>
    ensures { Gives result cursor.new.left.now (next_argument_at (expr_at depth) cursor.old.left.now) }
{
    cursor.mark(Side::Real, Punctuator::Comma)?;
    expr(cursor, depth)
}

/// A primary expression.
#[cycle(expr)]
#[tactic(auto, unfolding(crate::specs::Parsers::primary_at))]
fn primary(cursor: &mut Cursor, depth: u32) -> Result<Expr, Stop>
    ensures { Gives result cursor.new.left.now (primary_at (expr_at depth) (factor_at depth) cursor.old.left.now) }
{
    if cursor.sees_number(Side::Real) {
        return number_primary(cursor);
    }
    if cursor.sees_character() {
        return character_primary(cursor);
    }
    word_primary(cursor, depth)
}

/// A primary expression that begins with a word, or one between parentheses.
#[cycle(expr)]
#[tactic(auto, unfolding(crate::specs::Parsers::word_primary_at))]
fn word_primary(cursor: &mut Cursor, depth: u32) -> Result<Expr, Stop>
    ensures { Gives result cursor.new.left.now (word_primary_at (expr_at depth) (factor_at depth) cursor.old.left.now) }
{
    if cursor.sees_word(Side::Real, Keyword::True) {
        let place = cursor.word(Side::Real, Keyword::True)?;
        let node = ExprNode::True;
        return Ok(Expr { place, node });
    }
    if cursor.sees_word(Side::Real, Keyword::False) {
        let place = cursor.word(Side::Real, Keyword::False)?;
        let node = ExprNode::False;
        return Ok(Expr { place, node });
    }
    if cursor.sees_word(Side::Real, Keyword::Malloc) {
        return malloc(cursor, depth);
    }
    if cursor.sees_name(Side::Real) {
        let name = cursor.name(Side::Real)?;
        let place = name.place;
        let node = ExprNode::Name(name.text);
        return Ok(Expr { place, node });
    }
    parenthesized(cursor, depth)
}

/// An expression between parentheses.
#[cycle(expr)]
#[tactic(auto, unfolding(crate::specs::Parsers::parenthesized_at))]
fn parenthesized(cursor: &mut Cursor, depth: u32) -> Result<Expr, Stop>
    ensures { Gives result cursor.new.left.now (parenthesized_at (expr_at depth) cursor.old.left.now) }
{
    let place = cursor.mark(Side::Real, Punctuator::OpenParenthesis)?;
    let inner = Box::new(cursor.alloc, expr(cursor, depth)?)?;
    cursor.mark(Side::Real, Punctuator::CloseParenthesis)?;
    let node = ExprNode::Parenthesized(inner);
    Ok(Expr { place, node })
}

/// A call of `malloc`.
#[cycle(expr)]
#[tactic(auto, unfolding(crate::specs::Parsers::malloc_at, crate::specs::Parsers::malloc_inside_at))]
fn malloc(cursor: &mut Cursor, depth: u32) -> Result<Expr, Stop>
    ensures { Gives result cursor.new.left.now (malloc_at (factor_at depth) cursor.old.left.now) }
{
    let place = cursor.word(Side::Real, Keyword::Malloc)?;
    cursor.mark(Side::Real, Punctuator::OpenParenthesis)?;
    if cursor.sees_word(Side::Real, Keyword::Sizeof) {
        return malloc_struct(cursor, place);
    }
    malloc_ints(cursor, depth, place)
}

/// `n * sizeof(int))`, behind the `malloc(` at a place.
#[cycle(expr)]
#[tactic(auto, unfolding(crate::specs::Parsers::malloc_ints_at))]
fn malloc_ints(cursor: &mut Cursor, depth: u32, place: Place) -> Result<Expr, Stop>
    ensures { Gives result cursor.new.left.now (malloc_ints_at (factor_at depth) place cursor.old.left.now) }
{
    let number = Box::new(cursor.alloc, factor(cursor, depth)?)?;
    let star = cursor.mark(Side::Real, Punctuator::Star)?;
    cursor.word(Side::Real, Keyword::Sizeof)?;
    cursor.mark(Side::Real, Punctuator::OpenParenthesis)?;
    cursor.word(Side::Real, Keyword::Int)?;
    cursor.mark(Side::Real, Punctuator::CloseParenthesis)?;
    cursor.mark(Side::Real, Punctuator::CloseParenthesis)?;
    let node = ExprNode::MallocInts(number, star);
    Ok(Expr { place, node })
}

/// An operand of `malloc`, one level of nesting further down.
#[cycle(expr)]
#[tactic(auto, unfolding(crate::specs::Parsers::factor_at))]
fn factor(cursor: &mut Cursor, depth: u32) -> Result<Expr, Stop>
    ensures { Gives result cursor.new.left.now (factor_at depth cursor.old.left.now) }
{
    if depth == 0 {
        if sees_primary(cursor) {
            return Err(cursor.depth());
        }
        return Err(cursor.syntax());
    }
    postfix(cursor, depth - 1)
}
