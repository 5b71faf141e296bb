//! Constructors of datatypes.

ghost use Rattle.std.specs.Prelude.{◌≡◌, [], ◌∷◌, IfOk};
ghost use Rattle.vf_lexer.specs.declared.punctuator.Punctuator.TheVariants.{Comma, CloseParenthesis};
ghost use Rattle.vf_syntax.specs.declared.side.Side.TheVariants.{Ghost};
ghost use Rattle.vf_syntax.specs.Walks.{is_mark};
ghost use Rattle.vf_cursor.specs.Parsing.{Gives, many};
ghost use Rattle.vf_parse_term.specs.Pieces.{comma_step, some_at, any_at};
ghost use Rattle.vf_parse_ghost.specs.Constructors.{any_name_at, argument_at, arguments_at, any_arguments_at, constructor_at, constructor_step, more_constructors_at, constructors_at, bar_at};

use std::alloc::Global;
use vf_base::{Memory, Sequence};
use vf_cursor::cursor::Cursor;
use vf_cursor::fault::Stop;
use vf_lexer::Punctuator;
use vf_parse_term::sorts::sort;
use vf_syntax::item::{Constructor, ConstructorArgument};
use vf_syntax::side::Side;
use vf_syntax::written::Name;

#[tactic(auto, unfolding(crate::specs::Constructors::any_name_at))]
fn any_name(cursor: &mut Cursor) -> Result<Option<Name>, Stop>
    ensures { Gives result cursor.new.left.now (any_name_at cursor.old.left.now) }
{
    if cursor.sees_name(Side::Ghost) {
        let name = cursor.name(Side::Ghost)?;
        return Ok(Some(name));
    }
    Ok(None)
}

/// The sort of an argument, and its name where it has one.
#[tactic(auto, unfolding(crate::specs::Constructors::argument_at))]
fn argument(cursor: &mut Cursor, depth: u32) -> Result<ConstructorArgument, Stop>
    ensures { Gives result cursor.new.left.now (argument_at depth cursor.old.left.now) }
{
    let sort = sort(cursor, depth)?;
    let name = any_name(cursor)?;
    Ok(ConstructorArgument { sort, name })
}

/// One more argument, behind a comma.
#[tactic(auto, unfolding(vf_parse_term::specs::Pieces::comma_step, vf_parse_term::specs::Pieces::behind_comma))]
fn one_more_argument(
    cursor: &mut Cursor,
    depth: u32,
    before: Sequence<ConstructorArgument>,
) -> Result<Sequence<ConstructorArgument>, Stop>
    ensures { Gives result cursor.new.left.now (comma_step (argument_at depth) before cursor.old.left.now) }
{
    let mut arguments = before;
    cursor.mark(Side::Ghost, Punctuator::Comma)?;
    let next = argument(cursor, depth)?;
    arguments.push(next)?;
    Ok(arguments)
}

#[tactic(auto, using(vf_cursor::proofs::Loop::many_stops, vf_cursor::proofs::Loop::many_goes, vf_cursor::proofs::Loop::many_fails))]
fn more_arguments(
    cursor: &mut Cursor,
    depth: u32,
    first: Sequence<ConstructorArgument>,
) -> Result<Sequence<ConstructorArgument>, Stop>
    ensures { Gives result cursor.new.left.now (many (is_mark Ghost Comma) (comma_step (argument_at depth)) first cursor.old.left.now) }
{
    let mut arguments = first;
    let most = cursor.left.len();
    for i in 0..most {
        if !cursor.sees_mark(Side::Ghost, Punctuator::Comma) {
            return Ok(arguments);
        }
        arguments = one_more_argument(cursor, depth, arguments)?;
    }
    Ok(arguments)
}

#[tactic(auto, unfolding(vf_parse_term::specs::Pieces::some_at))]
fn some_arguments(cursor: &mut Cursor, depth: u32) -> Result<Sequence<ConstructorArgument>, Stop>
    ensures { Gives result cursor.new.left.now (some_at (argument_at depth) cursor.old.left.now) }
{
    let first = argument(cursor, depth)?;
    let mut arguments = Sequence::new(cursor.alloc);
    arguments.push(first)?;
    more_arguments(cursor, depth, arguments)
}

#[tactic(auto, unfolding(vf_parse_term::specs::Pieces::any_at))]
fn arguments_inside(cursor: &mut Cursor, depth: u32) -> Result<Sequence<ConstructorArgument>, Stop>
    ensures { Gives result cursor.new.left.now (any_at (is_mark Ghost CloseParenthesis) (argument_at depth) cursor.old.left.now) }
{
    if cursor.sees_mark(Side::Ghost, Punctuator::CloseParenthesis) {
        return Ok(Sequence::new(cursor.alloc));
    }
    some_arguments(cursor, depth)
}

#[tactic(auto, unfolding(crate::specs::Constructors::arguments_at))]
fn arguments(cursor: &mut Cursor, depth: u32) -> Result<Sequence<ConstructorArgument>, Stop>
    ensures { Gives result cursor.new.left.now (arguments_at depth cursor.old.left.now) }
{
    cursor.mark(Side::Ghost, Punctuator::OpenParenthesis)?;
    let inside = arguments_inside(cursor, depth)?;
    cursor.mark(Side::Ghost, Punctuator::CloseParenthesis)?;
    Ok(inside)
}

#[tactic(auto, unfolding(crate::specs::Constructors::any_arguments_at))]
fn any_arguments(
    cursor: &mut Cursor,
    depth: u32,
) -> Result<Option<Sequence<ConstructorArgument>>, Stop>
    ensures { Gives result cursor.new.left.now (any_arguments_at depth cursor.old.left.now) }
{
    if cursor.sees_mark(Side::Ghost, Punctuator::OpenParenthesis) {
        let arguments = arguments(cursor, depth)?;
        return Ok(Some(arguments));
    }
    Ok(None)
}

#[tactic(auto, unfolding(crate::specs::Constructors::constructor_at))]
fn constructor(cursor: &mut Cursor, depth: u32) -> Result<Constructor, Stop>
    ensures { Gives result cursor.new.left.now (constructor_at depth cursor.old.left.now) }
{
    let name = cursor.name(Side::Ghost)?;
    let arguments = any_arguments(cursor, depth)?;
    Ok(Constructor { name, arguments })
}

/// One more constructor, behind `|`.
#[tactic(auto, unfolding(crate::specs::Constructors::constructor_step, crate::specs::Constructors::other_constructor_at))]
fn one_more_constructor(
    cursor: &mut Cursor,
    depth: u32,
    before: Sequence<Constructor>,
) -> Result<Sequence<Constructor>, Stop>
    ensures { Gives result cursor.new.left.now (constructor_step depth before cursor.old.left.now) }
{
    let mut constructors = before;
    cursor.mark(Side::Ghost, Punctuator::Bar)?;
    let next = constructor(cursor, depth)?;
    constructors.push(next)?;
    Ok(constructors)
}

#[tactic(auto, using(vf_cursor::proofs::Loop::many_stops, vf_cursor::proofs::Loop::many_goes, vf_cursor::proofs::Loop::many_fails))]
fn more_constructors(
    cursor: &mut Cursor,
    depth: u32,
    first: Sequence<Constructor>,
) -> Result<Sequence<Constructor>, Stop>
    ensures { Gives result cursor.new.left.now (more_constructors_at depth first cursor.old.left.now) }
{
    let mut constructors = first;
    let most = cursor.left.len();
    for i in 0..most {
        if !cursor.sees_mark(Side::Ghost, Punctuator::Bar) {
            return Ok(constructors);
        }
        constructors = one_more_constructor(cursor, depth, constructors)?;
    }
    Ok(constructors)
}

fn one_constructor(alloc: Global, constructor: Constructor) -> Result<Sequence<Constructor>, Memory>
    ensures { IfOk result (λ s. s ≡ constructor ∷ []) }
{
    let mut constructors = Sequence::new(alloc);
    constructors.push(constructor)?;
    Ok(constructors)
}

/// Constructors with `|` between them, one at least.
#[tactic(auto, unfolding(crate::specs::Constructors::constructors_at))]
pub fn constructors(cursor: &mut Cursor, depth: u32) -> Result<Sequence<Constructor>, Stop>
    ensures { Gives result cursor.new.left.now (constructors_at depth cursor.old.left.now) }
{
    let first = constructor(cursor, depth)?;
    let constructors = one_constructor(cursor.alloc, first)?;
    more_constructors(cursor, depth, constructors)
}

/// Whether a `|` stands in front of the first constructor, which is taken.
#[tactic(auto, unfolding(crate::specs::Constructors::bar_at))]
pub fn bar(cursor: &mut Cursor) -> Result<bool, Stop>
    ensures { Gives result cursor.new.left.now (bar_at cursor.old.left.now) }
{
    if cursor.sees_mark(Side::Ghost, Punctuator::Bar) {
        cursor.mark(Side::Ghost, Punctuator::Bar)?;
        return Ok(true);
    }
    Ok(false)
}
