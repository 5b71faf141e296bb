//! Commands in which no others stand, but for those on ghost locals.

ghost use Rattle.std.specs.Prelude.{◌≡◌, IfOk};
ghost use Rattle.vf_syntax.specs.GhostCommandTree as written;
ghost use Rattle.vf_resolving.specs.Standings.{around_of, standing_of};
ghost use Rattle.vf_resolved_commands.specs.Commands.{call_resolved, close_resolved, command_resolved, open_resolved};

use crate::reading::{call_at, close_at, open_at};
use vf_base::{Memory, Place, Sequence, Text};
use vf_names::Names;
use vf_resolved::command::{Command, CommandNode};
use vf_resolved_parts::parts::beginning;
use vf_resolving::standing::put_behind;
use vf_resolving::{Around, Standing, assertion_resolved};
use vf_syntax::assertion::Assertion;
use vf_syntax::ghost_expr::GhostExprList;
use vf_syntax::pattern::{Pattern, Share};
use vf_syntax::written::Name;

/// `open` at a place.
pub fn open_resolved(
    around: &Around<'_>,
    standing: &mut Standing,
    place: Place,
    share: &Option<Share>,
    name: &Name,
    one: &Sequence<Pattern>,
    two: &Option<Sequence<Pattern>>,
) -> Result<Command, Memory>
    ensures { IfOk result (λ x. open_resolved (around_of around.now) (standing_of standing.old) place share.now name.now one.now two.now ≡ record { command = x; standing = standing_of standing.new }) }
{
    let mut progress = beginning(around.alloc, standing.next);
    let command = open_at(
        around,
        standing,
        &mut progress,
        place,
        share,
        name,
        one,
        two,
    )?;
    put_behind(around, standing, &progress)?;
    Ok(command)
}

/// `close` at a place.
pub fn close_resolved(
    around: &Around<'_>,
    standing: &mut Standing,
    place: Place,
    share: &Option<Share>,
    name: &Name,
    one: &Sequence<Pattern>,
    two: &Option<Sequence<Pattern>>,
) -> Result<Command, Memory>
    ensures { IfOk result (λ x. close_resolved (around_of around.now) (standing_of standing.old) place share.now name.now one.now two.now ≡ record { command = x; standing = standing_of standing.new }) }
{
    let mut progress = beginning(around.alloc, standing.next);
    let read = close_at(
        around,
        standing,
        &mut progress,
        place,
        share,
        name,
        one,
        two,
    )?;
    standing.next = read.next;
    Ok(read.command)
}

/// `leak` at a place.
pub fn leak_resolved(
    around: &Around<'_>,
    parameters: &Names,
    standing: &mut Standing,
    place: Place,
    assertion: &Assertion,
) -> Result<Command, Memory>
    ensures { IfOk result (λ x. command_resolved (around_of around.now) parameters.now (standing_of standing.old) (written.leak_ place assertion.now) ≡ record { command = x; standing = standing_of standing.new }) }
{
    let parts = assertion_resolved(around, standing, assertion)?;
    Ok(Command {
        place,
        node: CommandNode::Leak(parts),
    })
}

/// `assert` at a place.
pub fn assert_resolved(
    around: &Around<'_>,
    parameters: &Names,
    standing: &mut Standing,
    place: Place,
    assertion: &Assertion,
) -> Result<Command, Memory>
    ensures { IfOk result (λ x. command_resolved (around_of around.now) parameters.now (standing_of standing.old) (written.assert_ place assertion.now) ≡ record { command = x; standing = standing_of standing.new }) }
{
    let parts = assertion_resolved(around, standing, assertion)?;
    Ok(Command {
        place,
        node: CommandNode::Assert(parts),
    })
}

/// A call at a place.
pub fn call_resolved(
    around: &Around<'_>,
    standing: &mut Standing,
    place: Place,
    name: &Text,
    arguments: &GhostExprList,
) -> Result<Command, Memory>
    ensures { IfOk result (λ x. call_resolved (around_of around.now) (standing_of standing.old) place name.now arguments.now ≡ record { command = x; standing = standing_of standing.new }) }
{
    let read = call_at(around, standing, place, name, arguments)?;
    standing.next = read.next;
    Ok(read.command)
}
