//! Names between parentheses, and what cases are for.

ghost use Rattle.std.specs.Prelude.{◌≡◌};
ghost use Rattle.vf_lexer.specs.declared.punctuator.Punctuator.TheVariants.{Comma, CloseParenthesis};
ghost use Rattle.vf_syntax.specs.declared.side.Side.TheVariants.{Ghost};
ghost use Rattle.vf_syntax.specs.Walks.{is_mark};
ghost use Rattle.vf_cursor.specs.Parsing.{Gives, many, name_at};
ghost use Rattle.vf_parse_term.specs.Pieces.{comma_step, some_at, any_at};
ghost use Rattle.vf_parse_pattern.specs.Patterns.{names_at, any_names_at, case_pattern_at};

use vf_base::Sequence;
use vf_cursor::cursor::Cursor;
use vf_cursor::fault::Stop;
use vf_lexer::Punctuator;
use vf_syntax::pattern::CasePattern;
use vf_syntax::side::Side;
use vf_syntax::written::Name;

/// One more name, behind a comma.
#[tactic(auto, unfolding(vf_parse_term::specs::Pieces::comma_step, vf_parse_term::specs::Pieces::behind_comma))]
fn one_more_name(cursor: &mut Cursor, before: Sequence<Name>) -> Result<Sequence<Name>, Stop>
    ensures { Gives result cursor.new.left.now (comma_step (name_at Ghost) before cursor.old.left.now) }
{
    let mut names = before;
    cursor.mark(Side::Ghost, Punctuator::Comma)?;
    let next = cursor.name(Side::Ghost)?;
    names.push(next)?;
    Ok(names)
}

#[tactic(auto, using(vf_cursor::proofs::Loop::many_stops, vf_cursor::proofs::Loop::many_goes, vf_cursor::proofs::Loop::many_fails))]
fn more_names(cursor: &mut Cursor, first: Sequence<Name>) -> Result<Sequence<Name>, Stop>
    ensures { Gives result cursor.new.left.now (many (is_mark Ghost Comma) (comma_step (name_at Ghost)) first cursor.old.left.now) }
{
    let mut names = first;
    let most = cursor.left.len();
    for i in 0..most {
        if !cursor.sees_mark(Side::Ghost, Punctuator::Comma) {
            return Ok(names);
        }
        names = one_more_name(cursor, names)?;
    }
    Ok(names)
}

/// One name at least, with commas between them.
#[tactic(auto, unfolding(vf_parse_term::specs::Pieces::some_at))]
pub fn some_names(cursor: &mut Cursor) -> Result<Sequence<Name>, Stop>
    ensures { Gives result cursor.new.left.now (some_at (name_at Ghost) cursor.old.left.now) }
{
    let first = cursor.name(Side::Ghost)?;
    let mut names = Sequence::new(cursor.alloc);
    names.push(first)?;
    more_names(cursor, names)
}

#[tactic(auto, unfolding(vf_parse_term::specs::Pieces::any_at))]
fn names_inside(cursor: &mut Cursor) -> Result<Sequence<Name>, Stop>
    ensures { Gives result cursor.new.left.now (any_at (is_mark Ghost CloseParenthesis) (name_at Ghost) cursor.old.left.now) }
{
    if cursor.sees_mark(Side::Ghost, Punctuator::CloseParenthesis) {
        return Ok(Sequence::new(cursor.alloc));
    }
    some_names(cursor)
}

#[tactic(auto, unfolding(crate::specs::Patterns::names_at))]
fn names(cursor: &mut Cursor) -> Result<Sequence<Name>, Stop>
    ensures { Gives result cursor.new.left.now (names_at cursor.old.left.now) }
{
    cursor.mark(Side::Ghost, Punctuator::OpenParenthesis)?;
    let inside = names_inside(cursor)?;
    cursor.mark(Side::Ghost, Punctuator::CloseParenthesis)?;
    Ok(inside)
}

#[tactic(auto, unfolding(crate::specs::Patterns::any_names_at))]
fn any_names(cursor: &mut Cursor) -> Result<Option<Sequence<Name>>, Stop>
    ensures { Gives result cursor.new.left.now (any_names_at cursor.old.left.now) }
{
    if cursor.sees_mark(Side::Ghost, Punctuator::OpenParenthesis) {
        let names = names(cursor)?;
        return Ok(Some(names));
    }
    Ok(None)
}

/// What a case is for: a constructor, and names where there are parentheses.
#[tactic(auto, unfolding(crate::specs::Patterns::case_pattern_at))]
pub fn case_pattern(cursor: &mut Cursor) -> Result<CasePattern, Stop>
    ensures { Gives result cursor.new.left.now (case_pattern_at cursor.old.left.now) }
{
    let constructor = cursor.name(Side::Ghost)?;
    let names = any_names(cursor)?;
    Ok(CasePattern { constructor, names })
}
