//! Ghost commands, and the bodies of lemmas.

ghost use Rattle.std.specs.Prelude.{◌≡◌};
ghost use Rattle.vf_syntax.specs.Walks.{head_has};
ghost use Rattle.vf_cursor.specs.Parsing.{Gives};
ghost use Rattle.vf_parse_term.specs.Pieces.{too_deep_at};
ghost use Rattle.vf_parse_command.specs.Commands.{is_command_word, begins_command, is_inside, command_step, commands_at, if_head_at, branches_at, if_at, case_step, cases_at, switch_at, command_at, body_at};

use crate::flat::flat;
use vf_base::Place;
use vf_cursor::cursor::{Cursor, is_mark, is_word};
use vf_cursor::fault::Stop;
use vf_lexer::{Punctuator, Token};
use vf_parse_assertion::assertions::{case_head, switch_head};
use vf_parse_term::sorts::sees_sort;
use vf_parse_term::terms::term;
use vf_syntax::ghost_command::{
    CommandCase, CommandCaseList, GhostCommand, GhostCommandList, GhostCommandNode,
};
use vf_syntax::ghost_expr::GhostExpr;
use vf_syntax::item::GhostBody;
use vf_syntax::keyword::Keyword;
use vf_syntax::side::Side;

#[tactic(auto, unfolding(crate::specs::Commands::is_command_word))]
fn is_command_word(token: &Token) -> bool
    ensures { result ≡ is_command_word token.now }
{
    is_word(Side::Ghost, Keyword::Open, token)
        || is_word(Side::Ghost, Keyword::Close, token)
        || is_word(Side::Ghost, Keyword::Leak, token)
        || is_word(Side::Ghost, Keyword::Assert, token)
        || is_word(Side::Ghost, Keyword::If, token)
        || is_word(Side::Ghost, Keyword::Switch, token)
}

/// Whether a ghost command can begin with what comes next.
#[tactic(auto, unfolding(crate::specs::Commands::begins_command))]
fn sees_command(cursor: &Cursor) -> bool
    ensures { result ≡ head_has begins_command cursor.now.left.now }
{
    match cursor.left {
        [] => false,
        [first, ..] => {
            is_command_word(first)
                || is_mark(Side::Ghost, Punctuator::OpenBrace, first)
                || sees_sort(cursor)
        }
    }
}

/// A ghost command may not stand there, since it stands too deep.
#[tactic(auto, unfolding(vf_parse_term::specs::Pieces::too_deep_at))]
fn too_deep(cursor: &Cursor) -> Result<GhostCommand, Stop>
    ensures { Gives result cursor.now.left.now (too_deep_at begins_command cursor.now.left.now) }
{
    if sees_command(cursor) {
        Err(cursor.depth())
    } else {
        Err(cursor.syntax())
    }
}

/// Whether a token comes next that ends neither a block nor a case.
#[tactic(auto, unfolding(crate::specs::Commands::is_inside))]
fn sees_inside(cursor: &Cursor) -> bool
    ensures { result ≡ head_has is_inside cursor.now.left.now }
{
    match cursor.left {
        [] => false,
        [first, ..] => {
            !(is_mark(Side::Ghost, Punctuator::CloseBrace, first)
                || is_word(Side::Ghost, Keyword::Case, first))
        }
    }
}

/// The head of an `if`: its place and its test.
#[tactic(auto, unfolding(crate::specs::Commands::if_head_at))]
fn if_head(cursor: &mut Cursor, depth: u32) -> Result<(Place, GhostExpr), Stop>
    ensures { Gives result cursor.new.left.now (if_head_at depth cursor.old.left.now) }
{
    let place = cursor.word(Side::Ghost, Keyword::If)?;
    cursor.mark(Side::Ghost, Punctuator::OpenParenthesis)?;
    let test = term(cursor, depth)?;
    cursor.mark(Side::Ghost, Punctuator::CloseParenthesis)?;
    Ok((place, test))
}

/// A ghost command that nests so deep at most, itself counted.
#[cycle(command)]
#[tactic(auto, unfolding(crate::specs::Commands::command_at, crate::specs::Commands::command_by, crate::specs::Commands::block_at))]
pub fn command(cursor: &mut Cursor, depth: u32) -> Result<GhostCommand, Stop>
    ensures { Gives result cursor.new.left.now (command_at depth cursor.old.left.now) }
{
    if depth == 0 {
        return too_deep(cursor);
    }
    if cursor.sees_word(Side::Ghost, Keyword::If) {
        return if_command(cursor, depth - 1);
    }
    if cursor.sees_word(Side::Ghost, Keyword::Switch) {
        return switch(cursor, depth - 1);
    }
    if cursor.sees_mark(Side::Ghost, Punctuator::OpenBrace) {
        let body = body(cursor, depth - 1)?;
        let place = body.place;
        let node = GhostCommandNode::Block(body.commands);
        return Ok(GhostCommand { place, node });
    }
    flat(cursor, depth - 1)
}

#[cycle(command)]
#[tactic(auto, unfolding(crate::specs::Commands::if_at))]
fn if_command(cursor: &mut Cursor, depth: u32) -> Result<GhostCommand, Stop>
    ensures { Gives result cursor.new.left.now (if_at depth (command_at depth) cursor.old.left.now) }
{
    let (place, test) = if_head(cursor, depth)?;
    let first = body(cursor, depth)?;
    branches(cursor, depth, place, test, first)
}

/// What stands behind the first block of an `if`: an `else` and a block, or nothing of it.
#[cycle(command)]
#[tactic(auto, unfolding(crate::specs::Commands::branches_at))]
fn branches(
    cursor: &mut Cursor,
    depth: u32,
    place: Place,
    test: GhostExpr,
    first: GhostBody,
) -> Result<GhostCommand, Stop>
    ensures { Gives result cursor.new.left.now (branches_at (command_at depth) place test first cursor.old.left.now) }
{
    if cursor.sees_word(Side::Ghost, Keyword::Else) {
        cursor.word(Side::Ghost, Keyword::Else)?;
        let second = body(cursor, depth)?;
        let node = GhostCommandNode::IfElse(test, first.commands, second.commands);
        return Ok(GhostCommand { place, node });
    }
    let node = GhostCommandNode::If(test, first.commands);
    Ok(GhostCommand { place, node })
}

#[cycle(command)]
#[tactic(auto, unfolding(crate::specs::Commands::switch_at))]
fn switch(cursor: &mut Cursor, depth: u32) -> Result<GhostCommand, Stop>
    ensures { Gives result cursor.new.left.now (switch_at depth (command_at depth) cursor.old.left.now) }
{
    let place = cursor.here()?;
    let looked_at = switch_head(cursor, depth)?;
    let cases = cases(cursor, depth)?;
    cursor.mark(Side::Ghost, Punctuator::CloseBrace)?;
    let node = GhostCommandNode::Switch(looked_at, cases);
    Ok(GhostCommand { place, node })
}

#[cycle(command)]
#[tactic(auto, using(vf_cursor::proofs::Loop::many_stops, vf_cursor::proofs::Loop::many_goes, vf_cursor::proofs::Loop::many_fails))]
fn cases(cursor: &mut Cursor, depth: u32) -> Result<CommandCaseList, Stop>
    ensures { Gives result cursor.new.left.now (cases_at (command_at depth) cursor.old.left.now) }
{
    let mut cases = CommandCaseList::new(cursor.alloc);
    let most = cursor.left.len();
    for i in 0..most {
        if !cursor.sees_word(Side::Ghost, Keyword::Case) {
            return Ok(cases);
        }
        cases = one_more_case(cursor, depth, cases)?;
    }
    Ok(cases)
}

/// One more case of a `switch`.
#[cycle(command)]
#[tactic(auto, unfolding(crate::specs::Commands::case_step, crate::specs::Commands::case_at))]
fn one_more_case(
    cursor: &mut Cursor,
    depth: u32,
    before: CommandCaseList,
) -> Result<CommandCaseList, Stop>
    ensures { Gives result cursor.new.left.now (case_step (command_at depth) before cursor.old.left.now) }
{
    let mut cases = before;
    let (place, pattern) = case_head(cursor)?;
    let commands = commands(cursor, depth)?;
    cases.push(CommandCase {
        place,
        pattern,
        commands,
    })?;
    Ok(cases)
}

/// Ghost commands between braces, each of which nests so deep at most, itself counted.
#[cycle(command)]
#[tactic(auto, unfolding(crate::specs::Commands::body_by))]
pub fn body(cursor: &mut Cursor, depth: u32) -> Result<GhostBody, Stop>
    ensures { Gives result cursor.new.left.now (body_at depth cursor.old.left.now) }
{
    let place = cursor.mark(Side::Ghost, Punctuator::OpenBrace)?;
    let commands = commands(cursor, depth)?;
    let last = cursor.mark(Side::Ghost, Punctuator::CloseBrace)?;
    Ok(GhostBody {
        place,
        commands,
        last,
    })
}

/// Ghost commands up to the end of a block or a case.
#[cycle(command)]
#[tactic(auto, using(vf_cursor::proofs::Loop::many_stops, vf_cursor::proofs::Loop::many_goes, vf_cursor::proofs::Loop::many_fails))]
fn commands(cursor: &mut Cursor, depth: u32) -> Result<GhostCommandList, Stop>
    ensures { Gives result cursor.new.left.now (commands_at (command_at depth) cursor.old.left.now) }
{
    let mut commands = GhostCommandList::new(cursor.alloc);
    let most = cursor.left.len();
    for i in 0..most {
        if !sees_inside(cursor) {
            return Ok(commands);
        }
        commands = one_more_command(cursor, depth, commands)?;
    }
    Ok(commands)
}

/// One more ghost command.
#[cycle(command)]
#[tactic(auto, unfolding(crate::specs::Commands::command_step))]
fn one_more_command(
    cursor: &mut Cursor,
    depth: u32,
    before: GhostCommandList,
) -> Result<GhostCommandList, Stop>
    ensures { Gives result cursor.new.left.now (command_step (command_at depth) before cursor.old.left.now) }
{
    let mut commands = before;
    let next = command(cursor, depth)?;
    commands.push(next)?;
    Ok(commands)
}
