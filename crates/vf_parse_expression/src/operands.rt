//! What reads no expression in it: what comes next, and the smallest parts.

ghost use Rattle.std.specs.Prelude.{◌≡◌, IfOk};
ghost use Rattle.vf_syntax.specs.Walks.{head_has};
ghost use Rattle.vf_cursor.specs.Parsing.{Gives};
ghost use Rattle.vf_parse_expression.specs.Operands.{after, sees_cast_type, sees_cast, sees_primary, sees_operand, joins, is_part, nth_level, operator_at, chained, posted, number_primary_at, character_primary_at, field_at, malloc_struct_at};

use std::alloc::Global;
use vf_base::{Memory, Place};
use vf_cursor::cursor::Cursor;
use vf_cursor::fault::Stop;
use vf_lexer::{Punctuator, Token};
use vf_syntax::expr::{Expr, ExprNode, LinkList, Postfix, PostfixList, PostfixNode};
use vf_syntax::keyword::Keyword;
use vf_syntax::operator::{BinaryOperator, Level};
use vf_syntax::side::Side;

/// The tokens behind the next one.
pub fn after<'a>(tokens: &'a [Token]) -> &'a [Token]
    ensures { result.now ≡ after tokens.now }
{
    match tokens {
        [] => tokens,
        [_, rest @ ..] => rest,
    }
}

/// The same tokens without the next one.
pub fn behind<'a>(cursor: &Cursor<'a>) -> Cursor<'a>
    ensures { result.left.now ≡ after cursor.now.left.now }
{
    Cursor {
        alloc: cursor.alloc,
        left: after(cursor.left),
    }
}

#[tactic(auto, unfolding(crate::specs::Operands::sees_cast_type))]
fn sees_cast_type(cursor: &Cursor) -> bool
    ensures { result ≡ sees_cast_type cursor.now.left.now }
{
    let second = behind(cursor);
    let third = behind(&second);
    cursor.sees_type_word(Side::Real)
        || (cursor.sees_name(Side::Real)
            && (second.sees_mark(Side::Real, Punctuator::Star)
                && third.sees_mark(Side::Real, Punctuator::CloseParenthesis)))
}

#[tactic(auto, unfolding(crate::specs::Operands::sees_cast))]
pub fn sees_cast(cursor: &Cursor) -> bool
    ensures { result ≡ sees_cast cursor.now.left.now }
{
    let second = behind(cursor);
    cursor.sees_mark(Side::Real, Punctuator::OpenParenthesis) && sees_cast_type(&second)
}

#[tactic(auto, unfolding(crate::specs::Operands::sees_primary))]
pub fn sees_primary(cursor: &Cursor) -> bool
    ensures { result ≡ sees_primary cursor.now.left.now }
{
    cursor.sees_number(Side::Real)
        || (cursor.sees_character()
            || (cursor.sees_word(Side::Real, Keyword::True)
                || (cursor.sees_word(Side::Real, Keyword::False)
                    || (cursor.sees_word(Side::Real, Keyword::Malloc)
                        || (cursor.sees_name(Side::Real)
                            || cursor.sees_mark(Side::Real, Punctuator::OpenParenthesis))))))
}

#[tactic(auto, unfolding(crate::specs::Operands::sees_operand))]
pub fn sees_operand(cursor: &Cursor) -> bool
    ensures { result ≡ sees_operand cursor.now.left.now }
{
    cursor.next_unary(Side::Real).is_some() || sees_primary(cursor)
}

/// Whether an operator of a level comes next.
#[tactic(auto, unfolding(crate::specs::Operands::joins, vf_cursor::specs::Types::next_on))]
pub fn sees_joining(cursor: &Cursor, level: Level) -> bool
    ensures { result ≡ head_has (joins level) cursor.now.left.now }
{
    match cursor.left {
        [] => false,
        [_, ..] => cursor.next_on(Side::Real, level).is_some(),
    }
}

/// Whether a part behind an operand comes next.
#[tactic(auto, unfolding(crate::specs::Operands::is_part))]
pub fn sees_part(cursor: &Cursor) -> bool
    ensures { result ≡ head_has is_part cursor.now.left.now }
{
    match cursor.left {
        [] => false,
        [_, ..] => {
            cursor.sees_mark(Side::Real, Punctuator::Arrow)
                || (cursor.sees_mark(Side::Real, Punctuator::OpenBracket)
                    || cursor.sees_mark(Side::Real, Punctuator::OpenParenthesis))
        }
    }
}

/// The levels from the closest, counted from 0.
pub fn nth_level(at: u32) -> Level
    ensures { result ≡ nth_level at }
{
    match at {
        0 => Level::Multiplicative,
        1 => Level::Additive,
        2 => Level::Relational,
        3 => Level::Equality,
        4 => Level::And,
        _ => Level::Or,
    }
}

/// An operator of a level, with its place.
#[tactic(auto, unfolding(crate::specs::Operands::operator_at))]
pub fn operator(cursor: &mut Cursor, level: Level) -> Result<(Place, BinaryOperator), Stop>
    ensures { Gives result cursor.new.left.now (operator_at level cursor.old.left.now) }
{
    match cursor.next_on(Side::Real, level) {
        None => Err(cursor.syntax()),
        Some(operator) => {
            let place = cursor.mark(Side::Real, operator.mark())?;
            Ok((place, operator))
        }
    }
}

/// An operand with the links behind it, or the operand alone.
pub fn chained(
    alloc: Global,
    place: Place,
    level: Level,
    first: Expr,
    links: LinkList,
) -> Result<Expr, Memory>
    ensures { IfOk result (λ x. x ≡ chained place level first links) }
{
    if links.len() == 0 {
        return Ok(first);
    }
    let node = ExprNode::Chain(level, Box::new(alloc, first)?, links);
    Ok(Expr { place, node })
}

/// An operand with the parts behind it, or the operand alone.
pub fn posted(alloc: Global, place: Place, first: Expr, parts: PostfixList) -> Result<Expr, Memory>
    ensures { IfOk result (λ x. x ≡ posted place first parts) }
{
    if parts.len() == 0 {
        return Ok(first);
    }
    let node = ExprNode::Postfix(Box::new(alloc, first)?, parts);
    Ok(Expr { place, node })
}

#[tactic(auto, unfolding(crate::specs::Operands::number_primary_at))]
pub fn number_primary(cursor: &mut Cursor) -> Result<Expr, Stop>
    ensures { Gives result cursor.new.left.now (number_primary_at cursor.old.left.now) }
{
    let place = cursor.here()?;
    let (value, int_type) = cursor.number(Side::Real)?;
    let node = ExprNode::Number(value, int_type);
    Ok(Expr { place, node })
}

#[tactic(auto, unfolding(crate::specs::Operands::character_primary_at))]
pub fn character_primary(cursor: &mut Cursor) -> Result<Expr, Stop>
    ensures { Gives result cursor.new.left.now (character_primary_at cursor.old.left.now) }
{
    let place = cursor.here()?;
    let value = cursor.character()?;
    let node = ExprNode::Character(value);
    Ok(Expr { place, node })
}

/// A field read.
#[tactic(auto, unfolding(crate::specs::Operands::field_at))]
pub fn field(cursor: &mut Cursor) -> Result<Postfix, Stop>
    ensures { Gives result cursor.new.left.now (field_at cursor.old.left.now) }
{
    let place = cursor.mark(Side::Real, Punctuator::Arrow)?;
    let name = cursor.name(Side::Real)?;
    let node = PostfixNode::Field(name);
    Ok(Postfix { place, node })
}

/// `sizeof(struct S))`, behind the `malloc(` at a place.
#[tactic(auto, unfolding(crate::specs::Operands::malloc_struct_at))]
pub fn malloc_struct(cursor: &mut Cursor, place: Place) -> Result<Expr, Stop>
    ensures { Gives result cursor.new.left.now (malloc_struct_at place cursor.old.left.now) }
{
    cursor.word(Side::Real, Keyword::Sizeof)?;
    cursor.mark(Side::Real, Punctuator::OpenParenthesis)?;
    cursor.word(Side::Real, Keyword::Struct)?;
    let tag = cursor.name(Side::Real)?;
    cursor.mark(Side::Real, Punctuator::CloseParenthesis)?;
    cursor.mark(Side::Real, Punctuator::CloseParenthesis)?;
    let node = ExprNode::Malloc(tag);
    Ok(Expr { place, node })
}
