//! Ghost commands.

ghost use Rattle.std.specs.Prelude.{◌≡◌, ◌+◌, ◌<◌, ◌^◌, IfOk};
ghost use Rattle.vf_syntax.specs.GhostCommandTree as written;
ghost use Rattle.vf_syntax.specs.GhostCommandTree.{command_case_list, ghost_command_list};
ghost use Rattle.vf_asserting.specs.Leaving.{count};
ghost use Rattle.vf_resolving.specs.Standings.{around_of, standing_of};
ghost use Rattle.vf_resolved_commands.specs.Commands.{branch_resolved, branches_resolved, command_resolved, commands_resolved, enclosed};

use crate::locals::{assignment_resolved, declaration_resolved};
use crate::simple::{assert_resolved, call_resolved, close_resolved, leak_resolved, open_resolved};
use vf_base::{Memory, Place};
use vf_names::Names;
use vf_resolved::command::{
    Command, CommandBranch, CommandBranchList, CommandList, CommandNode as Node,
};
use vf_resolved_parts::Progress;
use vf_resolving::cases::{
    Switched, case_names, constructor_identity, constructor_place, switch_over,
};
use vf_resolving::reading::{read_at, truth_at};
use vf_resolving::standing::{leave, put_behind, slots_for};
use vf_resolving::{Around, Standing};
use vf_syntax::ghost_command::{
    CommandCase, CommandCaseList, GhostCommand, GhostCommandList, GhostCommandNode,
};
use vf_syntax::ghost_expr::GhostExpr;
use vf_syntax::pattern::CasePattern;
use vf_terms::arguments::behind;

/// A ghost command, in the text of a lemma with these type parameters.
#[cycle(command)]
pub fn command_resolved(
    around: &Around<'_>,
    parameters: &Names,
    standing: &mut Standing,
    command: &GhostCommand,
) -> Result<Command, Memory>
    ensures { IfOk result (λ x. command_resolved (around_of around.now) parameters.now (standing_of standing.old) command.now ≡ record { command = x; standing = standing_of standing.new }) }
{
    let place = command.place;
    match &command.node {
        GhostCommandNode::Open(share, name, first, second) => {
            open_resolved(around, standing, place, share, name, first, second)
        }
        GhostCommandNode::Close(share, name, first, second) => {
            close_resolved(around, standing, place, share, name, first, second)
        }
        GhostCommandNode::Leak(assertion) => {
            leak_resolved(around, parameters, standing, place, assertion)
        }
        GhostCommandNode::Assert(assertion) => {
            assert_resolved(around, parameters, standing, place, assertion)
        }
        GhostCommandNode::Declaration(sort, name, value) => {
            declaration_resolved(around, parameters, standing, place, sort, name, value)
        }
        GhostCommandNode::Assignment(name, value) => {
            assignment_resolved(around, standing, place, name, value)
        }
        GhostCommandNode::Call(name, arguments) => {
            call_resolved(around, standing, place, name, arguments)
        }
        GhostCommandNode::If(test, yes) => {
            if_resolved(around, parameters, standing, place, test, yes)
        }
        GhostCommandNode::IfElse(test, yes, no) => {
            choice_resolved(around, parameters, standing, place, test, yes, no)
        }
        GhostCommandNode::Switch(value, cases) => {
            switch_resolved(around, parameters, standing, place, value, cases)
        }
        GhostCommandNode::Block(commands) => {
            block_resolved(around, parameters, standing, place, commands)
        }
    }
}

/// The commands of a block: what they declare is gone behind it.
#[cycle(command)]
fn inner_resolved(
    around: &Around<'_>,
    parameters: &Names,
    standing: &mut Standing,
    commands: &GhostCommandList,
) -> Result<CommandList, Memory>
    ensures { IfOk result (λ xs. enclosed (count standing.old.scope) (commands_resolved (around_of around.now) parameters.now (standing_of standing.old) (ghost_command_list commands.now)) ≡ record { commands = xs; standing = standing_of standing.new }) }
{
    let many = standing.scope.locals.names.len();
    let commands = commands_resolved(around, parameters, standing, commands)?;
    leave(standing, many);
    Ok(commands)
}

/// A block at a place.
#[cycle(command)]
fn block_resolved(
    around: &Around<'_>,
    parameters: &Names,
    standing: &mut Standing,
    place: Place,
    commands: &GhostCommandList,
) -> Result<Command, Memory>
    ensures { IfOk result (λ x. command_resolved (around_of around.now) parameters.now (standing_of standing.old) (written.block place (ghost_command_list commands.now)) ≡ record { command = x; standing = standing_of standing.new }) }
{
    let commands = inner_resolved(around, parameters, standing, commands)?;
    Ok(Command {
        place,
        node: Node::Block(commands),
    })
}

/// An `if` without `else` at a place.
#[cycle(command)]
fn if_resolved(
    around: &Around<'_>,
    parameters: &Names,
    standing: &mut Standing,
    place: Place,
    test: &GhostExpr,
    yes: &GhostCommandList,
) -> Result<Command, Memory>
    ensures { IfOk result (λ x. command_resolved (around_of around.now) parameters.now (standing_of standing.old) (written.if_ place test.now (ghost_command_list yes.now)) ≡ record { command = x; standing = standing_of standing.new }) }
{
    let test = truth_at(around, standing, test)?;
    standing.next = test.next;
    let yes = inner_resolved(around, parameters, standing, yes)?;
    Ok(Command {
        place,
        node: Node::If(test.truth, yes, CommandList::new(around.alloc)),
    })
}

/// An `if` with `else` at a place.
#[cycle(command)]
fn choice_resolved(
    around: &Around<'_>,
    parameters: &Names,
    standing: &mut Standing,
    place: Place,
    test: &GhostExpr,
    yes: &GhostCommandList,
    no: &GhostCommandList,
) -> Result<Command, Memory>
    ensures { IfOk result (λ x. command_resolved (around_of around.now) parameters.now (standing_of standing.old) (written.if_else place test.now (ghost_command_list yes.now) (ghost_command_list no.now)) ≡ record { command = x; standing = standing_of standing.new }) }
{
    let test = truth_at(around, standing, test)?;
    standing.next = test.next;
    let yes = inner_resolved(around, parameters, standing, yes)?;
    let no = inner_resolved(around, parameters, standing, no)?;
    Ok(Command {
        place,
        node: Node::If(test.truth, yes, no),
    })
}

/// A `switch` at a place.
#[cycle(command)]
fn switch_resolved(
    around: &Around<'_>,
    parameters: &Names,
    standing: &mut Standing,
    place: Place,
    value: &GhostExpr,
    cases: &CommandCaseList,
) -> Result<Command, Memory>
    ensures { IfOk result (λ x. command_resolved (around_of around.now) parameters.now (standing_of standing.old) (written.switch_ place value.now (command_case_list cases.now)) ≡ record { command = x; standing = standing_of standing.new }) }
{
    let reading = read_at(around, standing, value)?;
    let over = switch_over(&standing.scope, &reading);
    standing.next = behind(over.first, over.count)?;
    let branches = branches_resolved(around, parameters, over, standing, cases)?;
    Ok(Command {
        place,
        node: Node::Switch(reading.term, branches),
    })
}

/// A case at a place.
#[cycle(command)]
fn body_resolved(
    around: &Around<'_>,
    parameters: &Names,
    over: Switched,
    standing: &mut Standing,
    place: Place,
    pattern: &CasePattern,
    commands: &GhostCommandList,
) -> Result<CommandBranch, Memory>
    requires { over.first + over.count < 2 ^ 64 }
    ensures { IfOk result (λ x. branch_resolved (around_of around.now) parameters.now over (standing_of standing.old) (written.command_case place pattern.now (ghost_command_list commands.now)) ≡ record { branch = x; standing = standing_of standing.new }) }
{
    let alloc = around.alloc;
    let many = standing.scope.locals.names.len();
    let constructor = constructor_identity(
        alloc,
        &standing.scope,
        around.paths,
        &pattern.constructor,
    )?;
    let number = constructor_place(&standing.scope, over.datatype, &pattern.constructor);
    let bound = case_names(alloc, &standing.scope, around.unknowns, over, pattern)?;
    let names = slots_for(around, standing.sorts.len(), &bound.sorts)?;
    let progress = Progress {
        bound,
        next: standing.next,
    };
    put_behind(around, standing, &progress)?;
    let commands = commands_resolved(around, parameters, standing, commands)?;
    leave(standing, many);
    Ok(CommandBranch {
        place,
        constructor,
        number,
        names,
        commands,
    })
}

/// The same of a case.
#[cycle(command)]
fn branch_resolved(
    around: &Around<'_>,
    parameters: &Names,
    over: Switched,
    standing: &mut Standing,
    case: &CommandCase,
) -> Result<CommandBranch, Memory>
    requires { over.first + over.count < 2 ^ 64 }
    ensures { IfOk result (λ x. branch_resolved (around_of around.now) parameters.now over (standing_of standing.old) case.now ≡ record { branch = x; standing = standing_of standing.new }) }
{
    body_resolved(
        around,
        parameters,
        over,
        standing,
        case.place,
        &case.pattern,
        &case.commands,
    )
}

/// Cases, from the first to the last.
#[cycle(command)]
#[tactic(auto, using(vf_commands::proofs::Lists::case_smaller))]
fn branches_resolved(
    around: &Around<'_>,
    parameters: &Names,
    over: Switched,
    standing: &mut Standing,
    cases: &CommandCaseList,
) -> Result<CommandBranchList, Memory>
    requires { over.first + over.count < 2 ^ 64 }
    ensures { IfOk result (λ xs. branches_resolved (around_of around.now) parameters.now over (standing_of standing.old) (command_case_list cases.now) ≡ record { branches = xs; standing = standing_of standing.new }) }
{
    let mut all = CommandBranchList::new(around.alloc);
    for at in 0..cases.len() {
        let Some(case) = cases.get(at) else {
            return Ok(all);
        };
        let branch = branch_resolved(around, parameters, over, standing, case)?;
        all.push(branch)?;
    }
    Ok(all)
}

/// Commands, from the first to the last.
#[cycle(command)]
#[tactic(auto, using(vf_commands::proofs::Lists::command_smaller))]
pub fn commands_resolved(
    around: &Around<'_>,
    parameters: &Names,
    standing: &mut Standing,
    commands: &GhostCommandList,
) -> Result<CommandList, Memory>
    ensures { IfOk result (λ xs. commands_resolved (around_of around.now) parameters.now (standing_of standing.old) (ghost_command_list commands.now) ≡ record { commands = xs; standing = standing_of standing.new }) }
{
    let mut all = CommandList::new(around.alloc);
    for at in 0..commands.len() {
        let Some(command) = commands.get(at) else {
            return Ok(all);
        };
        let command = command_resolved(around, parameters, standing, command)?;
        all.push(command)?;
    }
    Ok(all)
}
