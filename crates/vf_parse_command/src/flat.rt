//! Ghost commands in which no other stands.

ghost use Rattle.std.specs.Prelude.{◌≡◌};
ghost use Rattle.vf_lexer.specs.declared.punctuator.Punctuator.TheVariants.{Becomes, OpenParenthesis};
ghost use Rattle.vf_syntax.specs.declared.side.Side.TheVariants.{Ghost};
ghost use Rattle.vf_syntax.specs.Walks.{is_mark};
ghost use Rattle.vf_cursor.specs.Parsing.{Gives};
ghost use Rattle.vf_parse_command.specs.Flats.{second_has, sees_assignment, sees_call, applied_at, open_at, close_at, leak_at, assert_at, declaration_at, assignment_at, call_at, value_at, flat_at};

use vf_base::Sequence;
use vf_cursor::cursor::{Cursor, is_mark};
use vf_cursor::fault::Stop;
use vf_lexer::Punctuator;
use vf_parse_assertion::assertions::assertion;
use vf_parse_pattern::patterns::{any_patterns, pattern_list};
use vf_parse_pattern::shares::any_share;
use vf_parse_term::sorts::sort;
use vf_parse_term::terms::{arguments, term};
use vf_syntax::ghost_command::{GhostCommand, GhostCommandNode};
use vf_syntax::keyword::Keyword;
use vf_syntax::pattern::{Pattern, Share};
use vf_syntax::side::Side;
use vf_syntax::written::Name;

/// What `open` and `close` are for: a name with patterns, and a share where one is written.
#[derive(Drop)]
pub struct Target {
    pub share: Option<Share>,
    pub name: Name,
    pub first: Sequence<Pattern>,
    pub second: Option<Sequence<Pattern>>,
}

/// Whether the token behind the next one is a punctuator.
fn sees_second(cursor: &Cursor, punctuator: Punctuator) -> bool
    ensures { result ≡ second_has (is_mark Ghost punctuator) cursor.now.left.now }
{
    match cursor.left {
        [] => false,
        [_, rest @ ..] => match rest {
            [] => false,
            [second, ..] => is_mark(Side::Ghost, punctuator, second),
        },
    }
}

#[tactic(auto, unfolding(crate::specs::Flats::sees_assignment))]
fn sees_assignment(cursor: &Cursor) -> bool
    ensures { result ≡ sees_assignment cursor.now.left.now }
{
    cursor.sees_name(Side::Ghost) && sees_second(cursor, Punctuator::Becomes)
}

#[tactic(auto, unfolding(crate::specs::Flats::sees_call))]
fn sees_call(cursor: &Cursor) -> bool
    ensures { result ≡ sees_call cursor.now.left.now }
{
    cursor.sees_name(Side::Ghost) && sees_second(cursor, Punctuator::OpenParenthesis)
}

/// What stands behind `open` and `close`.
#[tactic(auto, unfolding(crate::specs::Flats::applied_at))]
fn applied(cursor: &mut Cursor, depth: u32) -> Result<Target, Stop>
    ensures { Gives result cursor.new.left.now (applied_at depth cursor.old.left.now) }
{
    let share = any_share(cursor)?;
    let name = cursor.name(Side::Ghost)?;
    let patterns = pattern_list(cursor, depth)?;
    let first = patterns.into_sequence()?;
    let second = any_patterns(cursor, depth)?;
    cursor.mark(Side::Ghost, Punctuator::Semicolon)?;
    Ok(Target {
        share,
        name,
        first,
        second,
    })
}

#[tactic(auto, unfolding(crate::specs::Flats::open_at))]
fn open(cursor: &mut Cursor, depth: u32) -> Result<GhostCommand, Stop>
    ensures { Gives result cursor.new.left.now (open_at depth cursor.old.left.now) }
{
    let place = cursor.word(Side::Ghost, Keyword::Open)?;
    let x = applied(cursor, depth)?;
    let node = GhostCommandNode::Open(x.share, x.name, x.first, x.second);
    Ok(GhostCommand { place, node })
}

#[tactic(auto, unfolding(crate::specs::Flats::close_at))]
fn close(cursor: &mut Cursor, depth: u32) -> Result<GhostCommand, Stop>
    ensures { Gives result cursor.new.left.now (close_at depth cursor.old.left.now) }
{
    let place = cursor.word(Side::Ghost, Keyword::Close)?;
    let x = applied(cursor, depth)?;
    let node = GhostCommandNode::Close(x.share, x.name, x.first, x.second);
    Ok(GhostCommand { place, node })
}

#[tactic(auto, unfolding(crate::specs::Flats::leak_at))]
fn leak(cursor: &mut Cursor, depth: u32) -> Result<GhostCommand, Stop>
    ensures { Gives result cursor.new.left.now (leak_at depth cursor.old.left.now) }
{
    let place = cursor.word(Side::Ghost, Keyword::Leak)?;
    let leaked = assertion(cursor, depth)?;
    cursor.mark(Side::Ghost, Punctuator::Semicolon)?;
    let node = GhostCommandNode::Leak(leaked);
    Ok(GhostCommand { place, node })
}

#[tactic(auto, unfolding(crate::specs::Flats::assert_at))]
fn assertion_command(cursor: &mut Cursor, depth: u32) -> Result<GhostCommand, Stop>
    ensures { Gives result cursor.new.left.now (assert_at depth cursor.old.left.now) }
{
    let place = cursor.word(Side::Ghost, Keyword::Assert)?;
    let asserted = assertion(cursor, depth)?;
    cursor.mark(Side::Ghost, Punctuator::Semicolon)?;
    let node = GhostCommandNode::Assert(asserted);
    Ok(GhostCommand { place, node })
}

#[tactic(auto, unfolding(crate::specs::Flats::declaration_at))]
fn declaration(cursor: &mut Cursor, depth: u32) -> Result<GhostCommand, Stop>
    ensures { Gives result cursor.new.left.now (declaration_at depth cursor.old.left.now) }
{
    let place = cursor.here()?;
    let written = sort(cursor, depth)?;
    let name = cursor.name(Side::Ghost)?;
    cursor.mark(Side::Ghost, Punctuator::Becomes)?;
    let value = term(cursor, depth)?;
    cursor.mark(Side::Ghost, Punctuator::Semicolon)?;
    let node = GhostCommandNode::Declaration(written, name, value);
    Ok(GhostCommand { place, node })
}

#[tactic(auto, unfolding(crate::specs::Flats::assignment_at))]
fn assignment(cursor: &mut Cursor, depth: u32) -> Result<GhostCommand, Stop>
    ensures { Gives result cursor.new.left.now (assignment_at depth cursor.old.left.now) }
{
    let name = cursor.name(Side::Ghost)?;
    cursor.mark(Side::Ghost, Punctuator::Becomes)?;
    let value = term(cursor, depth)?;
    cursor.mark(Side::Ghost, Punctuator::Semicolon)?;
    let place = name.place;
    let node = GhostCommandNode::Assignment(name.text, value);
    Ok(GhostCommand { place, node })
}

#[tactic(auto, unfolding(crate::specs::Flats::call_at))]
fn call(cursor: &mut Cursor, depth: u32) -> Result<GhostCommand, Stop>
    ensures { Gives result cursor.new.left.now (call_at depth cursor.old.left.now) }
{
    let name = cursor.name(Side::Ghost)?;
    let inside = arguments(cursor, depth)?;
    cursor.mark(Side::Ghost, Punctuator::Semicolon)?;
    let place = name.place;
    let node = GhostCommandNode::Call(name.text, inside);
    Ok(GhostCommand { place, node })
}

/// An assignment, a call or a declaration, told apart by the token behind a name.
#[tactic(auto, unfolding(crate::specs::Flats::value_at))]
fn value(cursor: &mut Cursor, depth: u32) -> Result<GhostCommand, Stop>
    ensures { Gives result cursor.new.left.now (value_at depth cursor.old.left.now) }
{
    if sees_assignment(cursor) {
        return assignment(cursor, depth);
    }
    if sees_call(cursor) {
        return call(cursor, depth);
    }
    declaration(cursor, depth)
}

/// A ghost command in which no other stands, and in whose parts fewer than `depth` expressions, assertions and
/// operators in front of their operand stand in one another.
#[tactic(auto, unfolding(crate::specs::Flats::flat_at))]
pub fn flat(cursor: &mut Cursor, depth: u32) -> Result<GhostCommand, Stop>
    ensures { Gives result cursor.new.left.now (flat_at depth cursor.old.left.now) }
{
    if cursor.sees_word(Side::Ghost, Keyword::Open) {
        return open(cursor, depth);
    }
    if cursor.sees_word(Side::Ghost, Keyword::Close) {
        return close(cursor, depth);
    }
    if cursor.sees_word(Side::Ghost, Keyword::Leak) {
        return leak(cursor, depth);
    }
    if cursor.sees_word(Side::Ghost, Keyword::Assert) {
        return assertion_command(cursor, depth);
    }
    value(cursor, depth)
}
