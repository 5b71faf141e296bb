//! Assertions.

ghost use Rattle.std.specs.Prelude.{◌≡◌, ◌++◌, ◌∷◌, [], IfOk};
ghost use Rattle.vf_lexer.specs.declared.punctuator.Punctuator.TheVariants.{SeparatingAnd};
ghost use Rattle.vf_syntax.specs.declared.keyword.Keyword.TheVariants.{Case};
ghost use Rattle.vf_syntax.specs.declared.side.Side.TheVariants.{Ghost};
ghost use Rattle.vf_syntax.specs.AssertionTree.{assertion_case, part_list};
ghost use Rattle.vf_syntax.specs.Walks.{head_has, is_mark, is_word};
ghost use Rattle.vf_cursor.specs.Parsing.{Gives, many};
ghost use Rattle.vf_parse_term.specs.Pieces.{too_deep_at};
ghost use Rattle.vf_parse_assertion.specs.Contents.{parts_of};
ghost use Rattle.vf_parse_assertion.specs.Parsers.{begins_part, switch_head_at, case_head_at, return_head_at, case_step, cases_at, switch_at, opening_at, second_branch_at, conditional_at, further_at, piece_at, part_step, more_parts_at, several_at, content_at, assertion_at};

use crate::contents::{Content, chosen, enclosed};
use std::alloc::Global;
use vf_base::{Memory, Place};
use vf_cursor::cursor::Cursor;
use vf_cursor::fault::Stop;
use vf_lexer::Punctuator;
use vf_parse_chunk::chunks::{begun, ended};
use vf_parse_chunk::pieces::{Begun, Piece, one_part};
use vf_parse_pattern::names::case_pattern;
use vf_parse_term::terms::{rest, sees_term, term};
use vf_syntax::assertion::{Assertion, AssertionCase, AssertionCaseList, Part, PartNode};
use vf_syntax::ghost_expr::GhostExpr;
use vf_syntax::keyword::Keyword;
use vf_syntax::pattern::CasePattern;
use vf_syntax::side::Side;

/// Whether an assertion can begin with what comes next.
#[tactic(auto, using(crate::proofs::Heads::begins_part_is), unfolding(crate::specs::Parsers::begins_part))]
fn sees_part(cursor: &Cursor) -> bool
    ensures { result ≡ head_has begins_part cursor.now.left.now }
{
    sees_term(cursor)
        || cursor.sees_mark(Side::Ghost, Punctuator::OpenBracket)
        || cursor.sees_word(Side::Ghost, Keyword::Emp)
        || cursor.sees_word(Side::Ghost, Keyword::Switch)
}

/// An assertion may not stand there, since it stands too deep.
#[tactic(auto, unfolding(vf_parse_term::specs::Pieces::too_deep_at))]
fn too_deep(cursor: &Cursor) -> Result<Content, Stop>
    ensures { Gives result cursor.now.left.now (too_deep_at begins_part cursor.now.left.now) }
{
    if sees_part(cursor) {
        Err(cursor.depth())
    } else {
        Err(cursor.syntax())
    }
}

/// The head of a `switch`, up to its `{`: the expression that it looks at.
#[tactic(auto, unfolding(crate::specs::Parsers::switch_head_at))]
pub fn switch_head(cursor: &mut Cursor, depth: u32) -> Result<GhostExpr, Stop>
    ensures { Gives result cursor.new.left.now (switch_head_at depth cursor.old.left.now) }
{
    cursor.word(Side::Ghost, Keyword::Switch)?;
    cursor.mark(Side::Ghost, Punctuator::OpenParenthesis)?;
    let looked_at = term(cursor, depth)?;
    match cursor.mark(Side::Ghost, Punctuator::CloseParenthesis) {
        Ok(_) => match cursor.mark(Side::Ghost, Punctuator::OpenBrace) {
            Ok(_) => Ok(looked_at),
            Err(stop) => {
                drop(looked_at);
                Err(stop)
            }
        },
        Err(stop) => {
            drop(looked_at);
            Err(stop)
        }
    }
}

/// The head of a case, up to its `:`: its place, and what it is for.
#[tactic(auto, unfolding(crate::specs::Parsers::case_head_at))]
pub fn case_head(cursor: &mut Cursor) -> Result<(Place, CasePattern), Stop>
    ensures { Gives result cursor.new.left.now (case_head_at cursor.old.left.now) }
{
    let place = cursor.word(Side::Ghost, Keyword::Case)?;
    let pattern = case_pattern(cursor)?;
    match cursor.mark(Side::Ghost, Punctuator::Colon) {
        Ok(_) => Ok((place, pattern)),
        Err(stop) => {
            drop(pattern);
            Err(stop)
        }
    }
}

/// The head of a case, and the `return` behind it.
#[tactic(auto, unfolding(crate::specs::Parsers::return_head_at))]
pub fn return_head(cursor: &mut Cursor) -> Result<(Place, CasePattern), Stop>
    ensures { Gives result cursor.new.left.now (return_head_at cursor.old.left.now) }
{
    let (place, pattern) = case_head(cursor)?;
    match cursor.word(Side::Ghost, Keyword::Return) {
        Ok(_) => Ok((place, pattern)),
        Err(stop) => {
            drop(pattern);
            Err(stop)
        }
    }
}

/// Some cases and one more behind them.
fn with_case(
    alloc: Global,
    before: AssertionCaseList,
    place: Place,
    pattern: CasePattern,
    inside: Content,
) -> Result<AssertionCaseList, Memory>
    ensures { IfOk result (λ xs. xs ≡ before ++ assertion_case place pattern (part_list (parts_of inside)) ∷ []) }
{
    let mut cases = before;
    match inside.into_assertion(alloc) {
        Ok(body) => {
            cases.push(AssertionCase {
                place,
                pattern,
                body,
            })?;
            Ok(cases)
        }
        Err(failed) => {
            drop(pattern);
            Err(failed)
        }
    }
}

/// An assertion in which fewer than `depth` assertions, expressions and operators in front of their operand stand
/// in one another, as it was read.
#[cycle(content)]
#[tactic(auto, unfolding(crate::specs::Parsers::content_at, crate::specs::Parsers::joined_at))]
fn content(cursor: &mut Cursor, depth: u32) -> Result<Content, Stop>
    ensures { Gives result cursor.new.left.now (content_at depth cursor.old.left.now) }
{
    if depth == 0 {
        return too_deep(cursor);
    }
    let first = piece(cursor, depth - 1)?;
    if cursor.sees_mark(Side::Ghost, Punctuator::SeparatingAnd) {
        let part = first.into_part(cursor.alloc)?;
        return several(cursor, depth - 1, part);
    }
    Ok(Content::Lone(first))
}

/// An assertion of two parts or more, behind the first.
#[cycle(content)]
#[tactic(auto, unfolding(crate::specs::Parsers::several_at))]
fn several(cursor: &mut Cursor, depth: u32, first: Part) -> Result<Content, Stop>
    ensures { Gives result cursor.new.left.now (several_at depth (content_at depth) first cursor.old.left.now) }
{
    let before = one_part(cursor.alloc, first)?;
    let two = one_more_part(cursor, depth, before)?;
    let parts = more_parts(cursor, depth, two)?;
    Ok(Content::Several(parts))
}

#[cycle(content)]
#[tactic(auto, using(vf_cursor::proofs::Loop::many_stops, vf_cursor::proofs::Loop::many_goes, vf_cursor::proofs::Loop::many_fails))]
fn more_parts(cursor: &mut Cursor, depth: u32, first: Assertion) -> Result<Assertion, Stop>
    ensures { Gives result cursor.new.left.now (more_parts_at depth (content_at depth) first cursor.old.left.now) }
{
    let mut parts = first;
    let most = cursor.left.len();
    for i in 0..most {
        if !cursor.sees_mark(Side::Ghost, Punctuator::SeparatingAnd) {
            return Ok(parts);
        }
        parts = one_more_part(cursor, depth, parts)?;
    }
    Ok(parts)
}

/// One more part, behind `&*&`.
#[cycle(content)]
#[tactic(auto, unfolding(crate::specs::Parsers::part_step, crate::specs::Parsers::other_part_at))]
fn one_more_part(cursor: &mut Cursor, depth: u32, before: Assertion) -> Result<Assertion, Stop>
    ensures { Gives result cursor.new.left.now (part_step depth (content_at depth) before cursor.old.left.now) }
{
    let mut parts = before;
    cursor.mark(Side::Ghost, Punctuator::SeparatingAnd)?;
    let next = piece(cursor, depth)?;
    let part = next.into_part(cursor.alloc)?;
    parts.push(part)?;
    Ok(parts)
}

/// A part.
#[cycle(content)]
#[tactic(auto, unfolding(crate::specs::Parsers::piece_at))]
fn piece(cursor: &mut Cursor, depth: u32) -> Result<Piece, Stop>
    ensures { Gives result cursor.new.left.now (piece_at depth (content_at depth) cursor.old.left.now) }
{
    let place = cursor.here()?;
    match opening(cursor, depth, place)? {
        Begun::Whole(piece) => Ok(piece),
        Begun::Operand(operand) => further(cursor, depth, place, operand),
    }
}

/// What begins a part.
#[cycle(content)]
#[tactic(auto, unfolding(crate::specs::Parsers::opening_at, crate::specs::Parsers::enclosed_at))]
fn opening(cursor: &mut Cursor, depth: u32, place: Place) -> Result<Begun, Stop>
    ensures { Gives result cursor.new.left.now (opening_at depth (content_at depth) place cursor.old.left.now) }
{
    if cursor.sees_mark(Side::Ghost, Punctuator::OpenParenthesis) {
        cursor.mark(Side::Ghost, Punctuator::OpenParenthesis)?;
        let inside = content(cursor, depth)?;
        return match cursor.mark(Side::Ghost, Punctuator::CloseParenthesis) {
            Ok(_) => Ok(enclosed(cursor.alloc, place, inside)?),
            Err(stop) => {
                drop(inside);
                Err(stop)
            }
        };
    }
    if cursor.sees_word(Side::Ghost, Keyword::Switch) {
        return switch(cursor, depth, place);
    }
    begun(cursor, depth, place)
}

/// A part behind the first operand of its expression.
#[cycle(content)]
#[tactic(auto, unfolding(crate::specs::Parsers::further_at))]
fn further(cursor: &mut Cursor, depth: u32, place: Place, operand: GhostExpr) -> Result<Piece, Stop>
    ensures { Gives result cursor.new.left.now (further_at depth (content_at depth) place operand cursor.old.left.now) }
{
    let term = rest(cursor, depth, 6, place, operand)?;
    if cursor.sees_mark(Side::Ghost, Punctuator::Question) {
        return conditional(cursor, depth, place, term);
    }
    ended(cursor, depth, place, term)
}

/// A conditional behind its test.
#[cycle(content)]
#[tactic(auto, unfolding(crate::specs::Parsers::conditional_at))]
fn conditional(
    cursor: &mut Cursor,
    depth: u32,
    place: Place,
    test: GhostExpr,
) -> Result<Piece, Stop>
    ensures { Gives result cursor.new.left.now (conditional_at (content_at depth) place test cursor.old.left.now) }
{
    match cursor.mark(Side::Ghost, Punctuator::Question) {
        Ok(_) => match content(cursor, depth) {
            Ok(first) => second_branch(cursor, depth, place, test, first),
            Err(stop) => {
                drop(test);
                Err(stop)
            }
        },
        Err(stop) => {
            drop(test);
            Err(stop)
        }
    }
}

/// A conditional behind its first branch. All parts to the right belong to the second.
#[cycle(content)]
#[tactic(auto, unfolding(crate::specs::Parsers::second_branch_at))]
fn second_branch(
    cursor: &mut Cursor,
    depth: u32,
    place: Place,
    test: GhostExpr,
    first: Content,
) -> Result<Piece, Stop>
    ensures { Gives result cursor.new.left.now (second_branch_at (content_at depth) place test first cursor.old.left.now) }
{
    match cursor.mark(Side::Ghost, Punctuator::Colon) {
        Ok(_) => match content(cursor, depth) {
            Ok(second) => {
                if cursor.sees_mark(Side::Ghost, Punctuator::SeparatingAnd) {
                    drop(test);
                    drop(first);
                    drop(second);
                    return Err(cursor.syntax());
                }
                Ok(chosen(cursor.alloc, place, test, first, second)?)
            }
            Err(stop) => {
                drop(test);
                drop(first);
                Err(stop)
            }
        },
        Err(stop) => {
            drop(test);
            drop(first);
            Err(stop)
        }
    }
}

/// A part that is a `switch`.
#[cycle(content)]
#[tactic(auto, unfolding(crate::specs::Parsers::switch_at))]
fn switch(cursor: &mut Cursor, depth: u32, place: Place) -> Result<Begun, Stop>
    ensures { Gives result cursor.new.left.now (switch_at depth (content_at depth) place cursor.old.left.now) }
{
    let looked_at = switch_head(cursor, depth)?;
    match cases(cursor, depth) {
        Ok(cases) => match cursor.mark(Side::Ghost, Punctuator::CloseBrace) {
            Ok(_) => {
                let node = PartNode::Switch(looked_at, cases);
                Ok(Begun::Whole(Piece::Other(Part { place, node })))
            }
            Err(stop) => {
                drop(looked_at);
                Err(stop)
            }
        },
        Err(stop) => {
            drop(looked_at);
            Err(stop)
        }
    }
}

#[cycle(content)]
#[tactic(auto, using(vf_cursor::proofs::Loop::many_stops, vf_cursor::proofs::Loop::many_goes, vf_cursor::proofs::Loop::many_fails))]
fn cases(cursor: &mut Cursor, depth: u32) -> Result<AssertionCaseList, Stop>
    ensures { Gives result cursor.new.left.now (cases_at (content_at depth) cursor.old.left.now) }
{
    let mut cases = AssertionCaseList::new(cursor.alloc);
    let most = cursor.left.len();
    for i in 0..most {
        if !cursor.sees_word(Side::Ghost, Keyword::Case) {
            return Ok(cases);
        }
        cases = one_more_case(cursor, depth, cases)?;
    }
    Ok(cases)
}

/// One more case of a `switch`.
#[cycle(content)]
#[tactic(auto, unfolding(crate::specs::Parsers::case_step, crate::specs::Parsers::case_at))]
fn one_more_case(
    cursor: &mut Cursor,
    depth: u32,
    before: AssertionCaseList,
) -> Result<AssertionCaseList, Stop>
    ensures { Gives result cursor.new.left.now (case_step (content_at depth) before cursor.old.left.now) }
{
    let (place, pattern) = return_head(cursor)?;
    match content(cursor, depth) {
        Ok(inside) => match cursor.mark(Side::Ghost, Punctuator::Semicolon) {
            Ok(_) => Ok(with_case(cursor.alloc, before, place, pattern, inside)?),
            Err(stop) => {
                drop(pattern);
                drop(inside);
                Err(stop)
            }
        },
        Err(stop) => {
            drop(pattern);
            Err(stop)
        }
    }
}

/// An assertion in which fewer than `depth` assertions, expressions and operators in front of their operand stand
/// in one another.
#[tactic(auto, unfolding(crate::specs::Parsers::assertion_at))]
pub fn assertion(cursor: &mut Cursor, depth: u32) -> Result<Assertion, Stop>
    ensures { Gives result cursor.new.left.now (assertion_at depth cursor.old.left.now) }
{
    let read = content(cursor, depth)?;
    Ok(read.into_assertion(cursor.alloc)?)
}
