//! What stands between the braces of a fixpoint.

ghost use Rattle.std.specs.Prelude.{◌≡◌};
ghost use Rattle.vf_cursor.specs.Parsing.{Gives};
ghost use Rattle.vf_parse_ghost.specs.Fixpoints.{case_step, cases_at, value_at, switch_head_at, switch_at, fixpoint_body_at};

use vf_base::Sequence;
use vf_cursor::cursor::Cursor;
use vf_cursor::fault::Stop;
use vf_lexer::Punctuator;
use vf_parse_assertion::assertions::return_head;
use vf_parse_term::terms::term;
use vf_syntax::item::{FixpointBody, FixpointCase};
use vf_syntax::keyword::Keyword;
use vf_syntax::side::Side;
use vf_syntax::written::Name;

/// One more case.
#[tactic(auto, unfolding(crate::specs::Fixpoints::case_step, crate::specs::Fixpoints::case_at))]
fn one_more_case(
    cursor: &mut Cursor,
    depth: u32,
    before: Sequence<FixpointCase>,
) -> Result<Sequence<FixpointCase>, Stop>
    ensures { Gives result cursor.new.left.now (case_step depth before cursor.old.left.now) }
{
    let mut cases = before;
    let (place, pattern) = return_head(cursor)?;
    match term(cursor, depth) {
        Ok(value) => match cursor.mark(Side::Ghost, Punctuator::Semicolon) {
            Ok(_) => {
                cases.push(FixpointCase {
                    place,
                    pattern,
                    value,
                })?;
                Ok(cases)
            }
            Err(stop) => {
                drop(pattern);
                drop(value);
                Err(stop)
            }
        },
        Err(stop) => {
            drop(pattern);
            Err(stop)
        }
    }
}

#[tactic(auto, using(vf_cursor::proofs::Loop::many_stops, vf_cursor::proofs::Loop::many_goes, vf_cursor::proofs::Loop::many_fails))]
fn cases(cursor: &mut Cursor, depth: u32) -> Result<Sequence<FixpointCase>, Stop>
    ensures { Gives result cursor.new.left.now (cases_at depth cursor.old.left.now) }
{
    let mut cases = Sequence::new(cursor.alloc);
    let most = cursor.left.len();
    for i in 0..most {
        if !cursor.sees_word(Side::Ghost, Keyword::Case) {
            return Ok(cases);
        }
        cases = one_more_case(cursor, depth, cases)?;
    }
    Ok(cases)
}

/// `return e;`
#[tactic(auto, unfolding(crate::specs::Fixpoints::value_at))]
fn value(cursor: &mut Cursor, depth: u32) -> Result<FixpointBody, Stop>
    ensures { Gives result cursor.new.left.now (value_at depth cursor.old.left.now) }
{
    cursor.word(Side::Ghost, Keyword::Return)?;
    let value = term(cursor, depth)?;
    match cursor.mark(Side::Ghost, Punctuator::Semicolon) {
        Ok(_) => Ok(FixpointBody::Value(value)),
        Err(stop) => {
            drop(value);
            Err(stop)
        }
    }
}

/// The head of a `switch`, up to its `{`: the name that it looks at.
#[tactic(auto, unfolding(crate::specs::Fixpoints::switch_head_at))]
fn switch_head(cursor: &mut Cursor) -> Result<Name, Stop>
    ensures { Gives result cursor.new.left.now (switch_head_at cursor.old.left.now) }
{
    cursor.word(Side::Ghost, Keyword::Switch)?;
    cursor.mark(Side::Ghost, Punctuator::OpenParenthesis)?;
    let name = cursor.name(Side::Ghost)?;
    cursor.mark(Side::Ghost, Punctuator::CloseParenthesis)?;
    cursor.mark(Side::Ghost, Punctuator::OpenBrace)?;
    Ok(name)
}

#[tactic(auto, unfolding(crate::specs::Fixpoints::switch_at))]
fn switch(cursor: &mut Cursor, depth: u32) -> Result<FixpointBody, Stop>
    ensures { Gives result cursor.new.left.now (switch_at depth cursor.old.left.now) }
{
    let name = switch_head(cursor)?;
    let cases = cases(cursor, depth)?;
    cursor.mark(Side::Ghost, Punctuator::CloseBrace)?;
    Ok(FixpointBody::Switch(name, cases))
}

/// What stands between the braces of a fixpoint.
#[tactic(auto, unfolding(crate::specs::Fixpoints::fixpoint_body_at))]
pub fn fixpoint_body(cursor: &mut Cursor, depth: u32) -> Result<FixpointBody, Stop>
    ensures { Gives result cursor.new.left.now (fixpoint_body_at depth cursor.old.left.now) }
{
    if cursor.sees_word(Side::Ghost, Keyword::Switch) {
        return switch(cursor, depth);
    }
    value(cursor, depth)
}
