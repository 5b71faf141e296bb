//! Ghost commands.

ghost use Rattle.std.specs.Prelude.{◌≡◌, ◌∷◌, ◌++◌, OnOk};
ghost use Rattle.vf_syntax.specs.GhostCommandTree.{command_case_list, ghost_command_list};
ghost use Rattle.vf_syntax.specs.GhostExprTree.{ghost_expr_list};
ghost use Rattle.vf_mentions.specs.declared.mention.Mention.TheVariants as mentions;
ghost use Rattle.vf_mentions.specs.GhostText.{mentioned_in_command, mentioned_in_command_case, mentioned_in_command_cases, mentioned_in_commands, mentioned_in_ghost_arguments};

use crate::assertion::find_in_assertion;
use crate::ghost_expr::{find_in_chunk, find_in_ghost_arguments, find_in_ghost_expr};
use crate::mention::Mention;
use vf_base::{Memory, Sequence, Text};
use vf_names::Names;
use vf_syntax::ghost_command::{
    CommandCase, CommandCaseList, GhostCommand, GhostCommandList, GhostCommandNode,
};
use vf_syntax::ghost_expr::GhostExprList;

/// Puts what a call of a lemma mentions behind what was found: the lemma, and what its arguments mention.
fn find_in_call(
    locals: &Names,
    found: &mut Sequence<Mention>,
    lemma: &Text,
    arguments: &GhostExprList,
) -> Result<(), Memory>
    ensures { OnOk result (found.new ≡ found.old ++ mentions.Lemma lemma.now ∷ mentioned_in_ghost_arguments locals.now (ghost_expr_list arguments.now)) }
{
    found.push(Mention::Lemma(lemma.copy()?))?;
    find_in_ghost_arguments(locals, found, arguments)
}

/// The same of a ghost command.
#[cycle(command)]
pub fn find_in_command(
    locals: &Names,
    found: &mut Sequence<Mention>,
    command: &GhostCommand,
) -> Result<(), Memory>
    ensures { OnOk result (found.new ≡ found.old ++ mentioned_in_command locals.now command.now) }
{
    match &command.node {
        GhostCommandNode::Open(_, _, first, second) => find_in_chunk(locals, found, first, second),
        GhostCommandNode::Close(_, _, first, second) => find_in_chunk(locals, found, first, second),
        GhostCommandNode::Leak(assertion) => find_in_assertion(locals, found, assertion),
        GhostCommandNode::Assert(assertion) => find_in_assertion(locals, found, assertion),
        GhostCommandNode::Declaration(_, _, value) => find_in_ghost_expr(locals, found, value),
        GhostCommandNode::Assignment(_, value) => find_in_ghost_expr(locals, found, value),
        GhostCommandNode::Call(lemma, arguments) => find_in_call(locals, found, lemma, arguments),
        GhostCommandNode::If(test, yes) => {
            find_in_ghost_expr(locals, found, test)?;
            find_in_commands(locals, found, yes)
        }
        GhostCommandNode::IfElse(test, yes, no) => {
            find_in_ghost_expr(locals, found, test)?;
            find_in_commands(locals, found, yes)?;
            find_in_commands(locals, found, no)
        }
        GhostCommandNode::Switch(value, cases) => {
            find_in_ghost_expr(locals, found, value)?;
            find_in_command_cases(locals, found, cases)
        }
        GhostCommandNode::Block(inner) => find_in_commands(locals, found, inner),
    }
}

/// The same of some ghost commands.
#[cycle(command)]
#[tactic(auto, using(crate::proofs::Lists::command_smaller))]
pub fn find_in_commands(
    locals: &Names,
    found: &mut Sequence<Mention>,
    commands: &GhostCommandList,
) -> Result<(), Memory>
    ensures { OnOk result (found.new ≡ found.old ++ mentioned_in_commands locals.now (ghost_command_list commands.now)) }
{
    for at in 0..commands.len() {
        let Some(command) = commands.get(at) else {
            return Ok(());
        };
        find_in_command(locals, found, command)?;
    }
    Ok(())
}

/// The same of a case of a `switch`.
#[cycle(command)]
fn find_in_command_case(
    locals: &Names,
    found: &mut Sequence<Mention>,
    case: &CommandCase,
) -> Result<(), Memory>
    ensures { OnOk result (found.new ≡ found.old ++ mentioned_in_command_case locals.now case.now) }
{
    find_in_commands(locals, found, &case.commands)
}

/// The same of some cases of a `switch`.
#[cycle(command)]
#[tactic(auto, using(crate::proofs::Lists::command_case_smaller))]
fn find_in_command_cases(
    locals: &Names,
    found: &mut Sequence<Mention>,
    cases: &CommandCaseList,
) -> Result<(), Memory>
    ensures { OnOk result (found.new ≡ found.old ++ mentioned_in_command_cases locals.now (command_case_list cases.now)) }
{
    for at in 0..cases.len() {
        let Some(case) = cases.get(at) else {
            return Ok(());
        };
        find_in_command_case(locals, found, case)?;
    }
    Ok(())
}
