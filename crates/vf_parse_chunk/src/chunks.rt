//! Chunks, cells, `emp` and expressions that are parts.

ghost use Rattle.std.specs.Prelude.{◌≡◌, IfOk};
ghost use Rattle.vf_syntax.specs.GhostExpressions.{is_application};
ghost use Rattle.vf_cursor.specs.Parsing.{Gives};
ghost use Rattle.vf_parse_chunk.specs.Pieces.{alone, unshared, begun_of};
ghost use Rattle.vf_parse_chunk.specs.Chunks.{sees_operator, goes_further, applied_at, named_at, front_at, cell_at, shared_by, shared_at, begun_at, ended_at};

use crate::pieces::{Begun, Front, Piece, Value};
use vf_base::{Memory, Place, Sequence};
use vf_cursor::cursor::Cursor;
use vf_cursor::fault::Stop;
use vf_lexer::Punctuator;
use vf_parse_pattern::patterns::{Patterns, pattern, pattern_list};
use vf_parse_pattern::shares::share;
use vf_parse_term::terms::{operand, rest, sees_level};
use vf_syntax::assertion::{Part, PartNode};
use vf_syntax::ghost_expr::{GhostExpr, GhostExprNode};
use vf_syntax::keyword::Keyword;
use vf_syntax::operator::Level;
use vf_syntax::pattern::{Pattern, Share};
use vf_syntax::side::Side;
use vf_syntax::written::Name;

#[tactic(auto, unfolding(crate::specs::Chunks::sees_operator))]
fn sees_operator(cursor: &Cursor) -> bool
    ensures { result ≡ sees_operator cursor.now.left.now }
{
    sees_level(cursor, Level::Multiplicative)
        || sees_level(cursor, Level::Additive)
        || sees_level(cursor, Level::Relational)
        || sees_level(cursor, Level::Equality)
        || sees_level(cursor, Level::And)
        || sees_level(cursor, Level::Or)
}

/// Whether what was read goes on as an expression.
#[tactic(auto, unfolding(crate::specs::Chunks::goes_further))]
fn goes_further(cursor: &Cursor) -> bool
    ensures { result ≡ goes_further cursor.now.left.now }
{
    sees_operator(cursor)
        || cursor.sees_mark(Side::Ghost, Punctuator::Arrow)
        || cursor.sees_mark(Side::Ghost, Punctuator::Question)
}

fn is_application(term: &GhostExpr) -> bool
    ensures { result ≡ is_application term.now }
{
    match &term.node {
        GhostExprNode::Application(_, _) => true,
        _ => false,
    }
}

/// What a name with patterns is, behind them.
#[tactic(auto, unfolding(crate::specs::Chunks::applied_at))]
fn applied(cursor: &mut Cursor, depth: u32, name: Name, patterns: Patterns) -> Result<Front, Stop>
    ensures { Gives result cursor.new.left.now (applied_at depth name patterns cursor.old.left.now) }
{
    if cursor.sees_mark(Side::Ghost, Punctuator::OpenParenthesis) {
        let second = pattern_list(cursor, depth)?;
        return Ok(Front::Chunk(name, patterns, Some(second.into_sequence()?)));
    }
    if patterns.are_values() && goes_further(cursor) {
        let value = Value::Application(name, patterns);
        return Ok(Front::Operand(value.into_term()?));
    }
    Ok(Front::Chunk(name, patterns, None))
}

#[tactic(auto, unfolding(crate::specs::Chunks::named_at))]
fn named(cursor: &mut Cursor, depth: u32) -> Result<Front, Stop>
    ensures { Gives result cursor.new.left.now (named_at depth cursor.old.left.now) }
{
    let name = cursor.name(Side::Ghost)?;
    if cursor.sees_mark(Side::Ghost, Punctuator::OpenParenthesis) {
        let patterns = pattern_list(cursor, depth)?;
        return applied(cursor, depth, name, patterns);
    }
    let place = name.place;
    let node = GhostExprNode::Name(name.text);
    Ok(Front::Operand(GhostExpr { place, node }))
}

/// What stands at the front of a part, behind its share.
#[tactic(auto, unfolding(crate::specs::Chunks::front_at))]
fn front(cursor: &mut Cursor, depth: u32) -> Result<Front, Stop>
    ensures { Gives result cursor.new.left.now (front_at depth cursor.old.left.now) }
{
    if cursor.sees_name(Side::Ghost) {
        return named(cursor, depth);
    }
    let first = operand(cursor, depth)?;
    Ok(Front::Operand(first))
}

/// A cell, behind its pointer.
#[tactic(auto, unfolding(crate::specs::Chunks::cell_at))]
fn cell(
    cursor: &mut Cursor,
    depth: u32,
    place: Place,
    share: Option<Share>,
    pointer: GhostExpr,
) -> Result<Piece, Stop>
    ensures { Gives result cursor.new.left.now (cell_at depth place share pointer cursor.old.left.now) }
{
    cursor.mark(Side::Ghost, Punctuator::Arrow)?;
    let field = cursor.name(Side::Ghost)?;
    cursor.mark(Side::Ghost, Punctuator::PointsTo)?;
    let value = pattern(cursor, depth)?;
    let node = PartNode::Cell(share, pointer, field, value);
    Ok(Piece::Other(Part { place, node }))
}

/// A part with a share, behind its front.
fn shared_by(
    cursor: &mut Cursor,
    depth: u32,
    place: Place,
    share: Share,
    inner: Place,
    front: Front,
) -> Result<Piece, Stop>
    ensures { Gives result cursor.new.left.now (shared_by depth place share inner front cursor.old.left.now) }
{
    match front {
        Front::Chunk(name, patterns, second) => {
            let first = patterns.into_sequence()?;
            let node = PartNode::Chunk(Some(share), name, first, second);
            Ok(Piece::Other(Part { place, node }))
        }
        Front::Operand(operand) => {
            let pointer = rest(cursor, depth, 6, inner, operand)?;
            cell(cursor, depth, place, Some(share), pointer)
        }
    }
}

#[tactic(auto, unfolding(crate::specs::Chunks::shared_at))]
fn shared(cursor: &mut Cursor, depth: u32, place: Place) -> Result<Piece, Stop>
    ensures { Gives result cursor.new.left.now (shared_at depth place cursor.old.left.now) }
{
    let share = share(cursor)?;
    let inner = cursor.here()?;
    let front = front(cursor, depth)?;
    shared_by(cursor, depth, place, share, inner, front)
}

/// A name with one list of patterns.
fn alone(place: Place, name: Name, patterns: Patterns) -> Result<Piece, Memory>
    ensures { IfOk result (λ x. x ≡ alone place name patterns) }
{
    if patterns.are_values() {
        return Ok(Piece::Value(Value::Application(name, patterns)));
    }
    let node = PartNode::Chunk(None, name, patterns.into_sequence()?, None);
    Ok(Piece::Other(Part { place, node }))
}

/// A chunk without a share.
fn unshared(
    place: Place,
    name: Name,
    patterns: Patterns,
    second: Option<Sequence<Pattern>>,
) -> Result<Piece, Memory>
    ensures { IfOk result (λ x. x ≡ unshared place name patterns second) }
{
    match second {
        None => alone(place, name, patterns),
        Some(second) => {
            let first = patterns.into_sequence()?;
            let node = PartNode::Chunk(None, name, first, Some(second));
            Ok(Piece::Other(Part { place, node }))
        }
    }
}

/// What a front makes of a part without a share.
fn begun_of(place: Place, front: Front) -> Result<Begun, Memory>
    ensures { IfOk result (λ x. x ≡ begun_of place front) }
{
    match front {
        Front::Chunk(name, patterns, second) => {
            let piece = unshared(place, name, patterns, second)?;
            Ok(Begun::Whole(piece))
        }
        Front::Operand(operand) => Ok(Begun::Operand(operand)),
    }
}

/// What begins a part that begins with no parenthesis and no `switch`, and at what place it stands.
#[tactic(auto, unfolding(crate::specs::Chunks::begun_at))]
pub fn begun(cursor: &mut Cursor, depth: u32, place: Place) -> Result<Begun, Stop>
    ensures { Gives result cursor.new.left.now (begun_at depth place cursor.old.left.now) }
{
    if cursor.sees_mark(Side::Ghost, Punctuator::OpenBracket) {
        let piece = shared(cursor, depth, place)?;
        return Ok(Begun::Whole(piece));
    }
    if cursor.sees_word(Side::Ghost, Keyword::Emp) {
        cursor.word(Side::Ghost, Keyword::Emp)?;
        let node = PartNode::Empty;
        return Ok(Begun::Whole(Piece::Other(Part { place, node })));
    }
    let front = front(cursor, depth)?;
    Ok(begun_of(place, front)?)
}

/// The part that an expression begins, where no conditional follows.
#[tactic(auto, unfolding(crate::specs::Chunks::ended_at))]
pub fn ended(cursor: &mut Cursor, depth: u32, place: Place, term: GhostExpr) -> Result<Piece, Stop>
    ensures { Gives result cursor.new.left.now (ended_at depth place term cursor.old.left.now) }
{
    if cursor.sees_mark(Side::Ghost, Punctuator::Arrow) {
        return cell(cursor, depth, place, None, term);
    }
    if is_application(&term) {
        return Err(cursor.syntax());
    }
    Ok(Piece::Value(Value::Term(place, term)))
}
