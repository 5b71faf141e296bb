//! Ghost commands, sorted and resolved.

ghost use Rattle.std.specs.Prelude.{◌≡◌, IfOk};
ghost use Rattle.vf_resolving.specs.Standings.{standing_of};
ghost use Rattle.vf_resolved_contracts.specs.Reading.{around_with};
ghost use Rattle.vf_resolved_commands.specs.Commands as commands;
ghost use Rattle.vf_resolved_texts.specs.Resolves.{AreCommandsTold, IsCommandKnown, IsCommandTold, anew};

use std::alloc::Global;
use vf_base::{Memory, RuleFault, Text};
use vf_commands::{Around as Surroundings, given};
use vf_declared::scope::Scope;
use vf_resolved::command::{Command, CommandList};
use vf_resolved_commands::command_resolved;
use vf_resolved_contracts::{result_symbol, this_symbol, thread_symbol};
use vf_resolving::{Around, Standing};
use vf_sorts::Unknowns;
use vf_syntax::ghost_command::{GhostCommand, GhostCommandList};

/// What is known of unknown sorts behind a command, whose names are gone; or its refusal.
#[tactic(auto, using(crate::proofs::Steps::command_fails, crate::proofs::Steps::command_known))]
fn command_known(
    alloc: Global,
    scope: &mut Scope,
    around: &Surroundings,
    command: &GhostCommand,
) -> Result<Unknowns, RuleFault>
    ensures { IsCommandKnown around.now command.now scope.old result scope.new }
{
    let count = scope.locals.names.len();
    let mut unknowns = Unknowns::new(alloc);
    given(alloc, scope, around, &mut unknowns, command)?;
    scope.locals.leave(count);
    Ok(unknowns)
}

/// A command with what is known of unknown sorts in the end, none of which is used yet.
fn command_read(
    alloc: Global,
    paths: &[Text],
    around: &Surroundings,
    unknowns: &Unknowns,
    standing: &mut Standing,
    command: &GhostCommand,
) -> Result<Command, Memory>
    ensures { IfOk result (λ x. commands.command_resolved (around_with around.now.context unknowns.now paths.now) around.now.parameters (anew standing.old.scope (standing_of standing.old)) command.now ≡ record { command = x; standing = standing_of standing.new }) }
{
    let result = result_symbol(alloc, &around.context);
    let this_value = this_symbol(alloc);
    let thread = thread_symbol(alloc);
    let words = Around {
        alloc,
        context: &around.context,
        unknowns,
        paths,
        result: &result,
        this_value: &this_value,
        thread: &thread,
    };
    standing.next = 0;
    command_resolved(&words, &around.parameters, standing, command)
}

/// A ghost command where something is declared and numbered, which it goes on.
///
/// # Errors
///
/// Refused where its sorting refuses it; what is declared and numbered is of no use then.
#[tactic(auto, using(crate::proofs::Steps::memory_of_command, crate::proofs::Steps::command_stops, crate::proofs::Steps::command_told))]
pub fn command_told(
    alloc: Global,
    paths: &[Text],
    around: &Surroundings,
    standing: &mut Standing,
    command: &GhostCommand,
) -> Result<Command, RuleFault>
    ensures { IsCommandTold around.now paths.now command.now (standing_of standing.old) result (standing_of standing.new) }
{
    let unknowns = command_known(alloc, &mut standing.scope, around, command)?;
    let read = command_read(alloc, paths, around, &unknowns, standing, command)?;
    Ok(read)
}

/// Ghost commands, one after another, as those of the body of a lemma stand.
///
/// # Errors
///
/// Refused where the sorting of one refuses it; what is declared and numbered is of no use then.
#[tactic(auto, using(crate::proofs::Steps::no_memory))]
pub fn commands_told(
    alloc: Global,
    paths: &[Text],
    around: &Surroundings,
    standing: &mut Standing,
    commands: &GhostCommandList,
) -> Result<CommandList, RuleFault>
    ensures { AreCommandsTold around.now paths.now commands.now (standing_of standing.old) result (standing_of standing.new) }
{
    let mut all = CommandList::new(alloc);
    for at in 0..commands.len() {
        let Some(command) = commands.get(at) else {
            return Ok(all);
        };
        let command = command_told(alloc, paths, around, standing, command)?;
        all.push(command)?;
    }
    Ok(all)
}
