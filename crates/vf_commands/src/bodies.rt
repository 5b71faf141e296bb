//! Ghost commands by themselves, and bodies of lemmas.

ghost use Rattle.vf_syntax.specs.GhostCommandTree.{ghost_command_list};
ghost use Rattle.vf_walk.specs.Walking.{Follows};
ghost use Rattle.vf_commands.specs.Comes.{BodyComes, CommandComes};

use crate::around::Around;
use crate::commands::given;
use std::alloc::Global;
use vf_base::RuleFault;
use vf_declared::scope::Scope;
use vf_sorts::Unknowns;
use vf_syntax::ghost_command::{GhostCommand, GhostCommandList};

/// Declares what a ghost command declares, or refuses it at its first fault. Nothing is known of unknown sorts in front
/// of it, nor kept behind it.
#[tactic(auto, using(crate::proofs::Walks::command_fails, crate::proofs::Walks::command_gives))]
pub fn command_given(
    alloc: Global,
    scope: &mut Scope,
    around: &Around,
    command: &GhostCommand,
) -> Result<(), RuleFault>
    ensures { Follows (CommandComes around.now command.now scope.old) result scope.new }
{
    let mut unknowns = Unknowns::new(alloc);
    given(alloc, scope, around, &mut unknowns, command)?;
    Ok(())
}

/// The same of the commands in the body of a lemma, one after another. What they declare is visible behind them: the
/// caller takes it away with the lemma's parameters.
#[tactic(auto, using(vf_walk::proofs::Loops::leads_here, crate::proofs::Walks::commands_more, crate::proofs::Walks::commands_stop, crate::proofs::Walks::commands_none, crate::proofs::Walks::commands_end))]
pub fn body_given(
    alloc: Global,
    scope: &mut Scope,
    around: &Around,
    commands: &GhostCommandList,
) -> Result<(), RuleFault>
    ensures { Follows (BodyComes around.now (ghost_command_list commands.now) scope.old) result scope.new }
{
    for at in 0..commands.len() {
        let Some(command) = commands.get(at) else {
            return Ok(());
        };
        command_given(alloc, scope, around, command)?;
    }
    Ok(())
}
