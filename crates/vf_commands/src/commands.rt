//! Ghost commands.

ghost use Rattle.std.specs.Prelude.{◌≡◌, ◌+◌, ◌<◌, ◌^◌};
ghost use Rattle.vf_syntax.specs.GhostCommandTree as tree;
ghost use Rattle.vf_syntax.specs.GhostCommandTree.{command_case_list, ghost_command_list};
ghost use Rattle.vf_commands.specs.Answers.{AreCases, AreCommands, IsBlock, IsCase, IsCommand};

use crate::around::Around;
use crate::assignments::{assignment_checked, declaration_checked, declare_ghost};
use crate::calls::call_checked;
use crate::opening::{close_checked, open_bound};
use crate::switches::switch_checked;
use std::alloc::Global;
use vf_asserting::assertion_given;
use vf_asserting::cases::{case_arguments, case_bound, instances};
use vf_base::{Place, RuleFault, Sequence, Text};
use vf_binding::bound::declare_names;
use vf_declared::scope::Scope;
use vf_sorting::checked;
use vf_sorting::kinds::bool_sort;
use vf_sorts::Unknowns;
use vf_syntax::assertion::Assertion;
use vf_syntax::ghost_command::{
    CommandCase, CommandCaseList, GhostCommand, GhostCommandList, GhostCommandNode,
};
use vf_syntax::ghost_expr::{GhostExpr, GhostExprList};
use vf_syntax::pattern::{CasePattern, Pattern, Share};
use vf_syntax::sort::Sort;
use vf_syntax::written::Name;

/// `open` at a place.
#[tactic(auto, using(crate::proofs::Wholes::command_memory, crate::proofs::Wholes::open_fails, crate::proofs::Wholes::open_gives))]
fn opened(
    alloc: Global,
    scope: &mut Scope,
    around: &Around,
    unknowns: &mut Unknowns,
    place: Place,
    share: &Option<Share>,
    name: &Name,
    first: &Sequence<Pattern>,
    second: &Option<Sequence<Pattern>>,
) -> Result<(), RuleFault>
    ensures { IsCommand around.now scope.old unknowns.old (tree.open_ place share.now name.now first.now second.now) result scope.new unknowns.new }
{
    let context = &around.context;
    let bound = open_bound(alloc, scope, context, unknowns, share, name, first, second)?;
    declare_names(alloc, scope, &bound)?;
    Ok(())
}

/// `close` at a place.
#[tactic(auto, using(crate::proofs::Wholes::close_fails, crate::proofs::Wholes::close_gives))]
fn closed(
    alloc: Global,
    scope: &Scope,
    around: &Around,
    unknowns: &mut Unknowns,
    place: Place,
    share: &Option<Share>,
    name: &Name,
    first: &Sequence<Pattern>,
    second: &Option<Sequence<Pattern>>,
) -> Result<(), RuleFault>
    ensures { IsCommand around.now scope.now unknowns.old (tree.close_ place share.now name.now first.now second.now) result scope.now unknowns.new }
{
    let context = &around.context;
    close_checked(alloc, scope, context, unknowns, share, name, first, second)?;
    Ok(())
}

/// `leak` at a place.
#[tactic(auto, using(crate::proofs::Wholes::leak_fails, crate::proofs::Wholes::leak_gives))]
fn leaked(
    alloc: Global,
    scope: &mut Scope,
    around: &Around,
    unknowns: &mut Unknowns,
    place: Place,
    assertion: &Assertion,
) -> Result<(), RuleFault>
    ensures { IsCommand around.now scope.old unknowns.old (tree.leak_ place assertion.now) result scope.new unknowns.new }
{
    assertion_given(alloc, scope, &around.context, unknowns, assertion)?;
    Ok(())
}

/// `assert` at a place.
#[tactic(auto, using(crate::proofs::Wholes::assert_fails, crate::proofs::Wholes::assert_gives))]
fn asserted(
    alloc: Global,
    scope: &mut Scope,
    around: &Around,
    unknowns: &mut Unknowns,
    place: Place,
    assertion: &Assertion,
) -> Result<(), RuleFault>
    ensures { IsCommand around.now scope.old unknowns.old (tree.assert_ place assertion.now) result scope.new unknowns.new }
{
    assertion_given(alloc, scope, &around.context, unknowns, assertion)?;
    Ok(())
}

/// The declaration of a ghost local at a place.
#[tactic(auto, using(crate::proofs::Wholes::command_memory, crate::proofs::Wholes::declaration_fails, crate::proofs::Wholes::declaration_gives, crate::proofs::Locals::name_new))]
fn declared(
    alloc: Global,
    scope: &mut Scope,
    around: &Around,
    unknowns: &mut Unknowns,
    place: Place,
    written: &Sort,
    name: &Name,
    value: &GhostExpr,
) -> Result<(), RuleFault>
    ensures { IsCommand around.now scope.old unknowns.old (tree.declaration place written.now name.now value.now) result scope.new unknowns.new }
{
    let sort = declaration_checked(alloc, scope, around, unknowns, written, name, value)?;
    declare_ghost(scope, name, sort)?;
    Ok(())
}

/// An assignment to a name at a place.
#[tactic(auto, using(crate::proofs::Wholes::assignment_fails, crate::proofs::Wholes::assignment_gives))]
fn assigned(
    alloc: Global,
    scope: &Scope,
    around: &Around,
    unknowns: &mut Unknowns,
    place: Place,
    name: &Text,
    value: &GhostExpr,
) -> Result<(), RuleFault>
    ensures { IsCommand around.now scope.now unknowns.old (tree.assignment place name.now value.now) result scope.now unknowns.new }
{
    assignment_checked(alloc, scope, around, unknowns, place, name, value)?;
    Ok(())
}

/// A call of a name at a place.
#[tactic(auto, using(crate::proofs::Wholes::call_fails, crate::proofs::Wholes::call_gives))]
fn called(
    alloc: Global,
    scope: &Scope,
    around: &Around,
    unknowns: &mut Unknowns,
    place: Place,
    name: &Text,
    arguments: &GhostExprList,
) -> Result<(), RuleFault>
    ensures { IsCommand around.now scope.now unknowns.old (tree.call_ place name.now arguments.now) result scope.now unknowns.new }
{
    call_checked(
        alloc,
        scope,
        &around.context,
        unknowns,
        place,
        name,
        arguments,
    )?;
    Ok(())
}

/// What a ghost command declares, or its refusal. What comes to be known of unknown sorts is kept.
#[cycle(command)]
pub fn given(
    alloc: Global,
    scope: &mut Scope,
    around: &Around,
    unknowns: &mut Unknowns,
    command: &GhostCommand,
) -> Result<(), RuleFault>
    ensures { IsCommand around.now scope.old unknowns.old command.now result scope.new unknowns.new }
{
    let place = command.place;
    match &command.node {
        GhostCommandNode::Open(share, name, first, second) => {
            opened(
                alloc, scope, around, unknowns, place, share, name, first, second,
            )
        }
        GhostCommandNode::Close(share, name, first, second) => {
            closed(
                alloc, scope, around, unknowns, place, share, name, first, second,
            )
        }
        GhostCommandNode::Leak(assertion) => {
            leaked(alloc, scope, around, unknowns, place, assertion)
        }
        GhostCommandNode::Assert(assertion) => {
            asserted(alloc, scope, around, unknowns, place, assertion)
        }
        GhostCommandNode::Declaration(written, name, value) => {
            declared(alloc, scope, around, unknowns, place, written, name, value)
        }
        GhostCommandNode::Assignment(name, value) => {
            assigned(alloc, scope, around, unknowns, place, name, value)
        }
        GhostCommandNode::Call(name, arguments) => {
            called(alloc, scope, around, unknowns, place, name, arguments)
        }
        GhostCommandNode::If(test, yes) => {
            tested(alloc, scope, around, unknowns, place, test, yes)
        }
        GhostCommandNode::IfElse(test, yes, no) => {
            chosen(alloc, scope, around, unknowns, place, test, yes, no)
        }
        GhostCommandNode::Switch(switched, cases) => {
            switch_given(alloc, scope, around, unknowns, place, switched, cases)
        }
        GhostCommandNode::Block(commands) => {
            enclosed(alloc, scope, around, unknowns, place, commands)
        }
    }
}

/// A block at a place.
#[cycle(command)]
#[tactic(auto, using(crate::proofs::Wholes::enclosed_fails, crate::proofs::Wholes::enclosed_gives))]
fn enclosed(
    alloc: Global,
    scope: &mut Scope,
    around: &Around,
    unknowns: &mut Unknowns,
    place: Place,
    commands: &GhostCommandList,
) -> Result<(), RuleFault>
    ensures { IsCommand around.now scope.old unknowns.old (tree.block place (ghost_command_list commands.now)) result scope.new unknowns.new }
{
    block_given(alloc, scope, around, unknowns, commands)?;
    Ok(())
}

/// `if` at a place.
#[cycle(command)]
#[tactic(auto, using(crate::proofs::Wholes::if_test_fails, crate::proofs::Wholes::if_block_fails, crate::proofs::Wholes::if_gives, vf_sorting::proofs::Steps::bool_below))]
fn tested(
    alloc: Global,
    scope: &mut Scope,
    around: &Around,
    unknowns: &mut Unknowns,
    place: Place,
    test: &GhostExpr,
    yes: &GhostCommandList,
) -> Result<(), RuleFault>
    ensures { IsCommand around.now scope.old unknowns.old (tree.if_ place test.now (ghost_command_list yes.now)) result scope.new unknowns.new }
{
    let truth = bool_sort(alloc);
    checked(alloc, scope, &around.context, unknowns, &truth, test)?;
    block_given(alloc, scope, around, unknowns, yes)?;
    Ok(())
}

/// `if` with `else` at a place.
#[cycle(command)]
#[tactic(auto, using(crate::proofs::Wholes::test_fails, crate::proofs::Wholes::first_fails, crate::proofs::Wholes::second_fails, crate::proofs::Wholes::choice_gives, vf_sorting::proofs::Steps::bool_below))]
fn chosen(
    alloc: Global,
    scope: &mut Scope,
    around: &Around,
    unknowns: &mut Unknowns,
    place: Place,
    test: &GhostExpr,
    yes: &GhostCommandList,
    no: &GhostCommandList,
) -> Result<(), RuleFault>
    ensures { IsCommand around.now scope.old unknowns.old (tree.if_else place test.now (ghost_command_list yes.now) (ghost_command_list no.now)) result scope.new unknowns.new }
{
    let truth = bool_sort(alloc);
    checked(alloc, scope, &around.context, unknowns, &truth, test)?;
    block_given(alloc, scope, around, unknowns, yes)?;
    block_given(alloc, scope, around, unknowns, no)?;
    Ok(())
}

/// The commands of a block: what they declare is gone behind it.
#[cycle(command)]
#[tactic(auto, using(crate::proofs::Wholes::block_fails, crate::proofs::Wholes::block_gives))]
fn block_given(
    alloc: Global,
    scope: &mut Scope,
    around: &Around,
    unknowns: &mut Unknowns,
    commands: &GhostCommandList,
) -> Result<(), RuleFault>
    ensures { IsBlock around.now scope.old unknowns.old (ghost_command_list commands.now) result scope.new unknowns.new }
{
    let many = scope.locals.names.len();
    all_given(alloc, scope, around, unknowns, commands)?;
    scope.locals.leave(many);
    Ok(())
}

/// `switch` at a place.
#[cycle(command)]
#[tactic(auto, using(crate::proofs::Wholes::switch_refused, crate::proofs::Wholes::cases_refused, crate::proofs::Wholes::switch_gives, crate::proofs::Wholes::switch_fits))]
fn switch_given(
    alloc: Global,
    scope: &mut Scope,
    around: &Around,
    unknowns: &mut Unknowns,
    place: Place,
    switched: &GhostExpr,
    cases: &CommandCaseList,
) -> Result<(), RuleFault>
    ensures { IsCommand around.now scope.old unknowns.old (tree.switch_ place switched.now (command_case_list cases.now)) result scope.new unknowns.new }
{
    let over = switch_checked(alloc, scope, &around.context, unknowns, switched, cases)?;
    cases_given(
        alloc, scope, around, unknowns, over.first, over.count, cases,
    )?;
    Ok(())
}

/// A case at a place, where unknown sorts from the first on stand for so many type parameters.
#[cycle(command)]
#[tactic(auto, using(crate::proofs::Wholes::case_memory, crate::proofs::Wholes::names_refused, crate::proofs::Wholes::body_refused, crate::proofs::Wholes::case_gives))]
fn body_given(
    alloc: Global,
    scope: &mut Scope,
    around: &Around,
    unknowns: &mut Unknowns,
    first: usize,
    count: usize,
    place: Place,
    pattern: &CasePattern,
    commands: &GhostCommandList,
) -> Result<(), RuleFault>
    requires { first + count < 2 ^ 64 }
    ensures { IsCase around.now scope.old first count unknowns.old (tree.command_case place pattern.now (ghost_command_list commands.now)) result scope.new unknowns.new }
{
    let before = scope.locals.names.len();
    let arguments = case_arguments(alloc, scope, pattern)?;
    let sorts = instances(alloc, unknowns, first, count, &arguments)?;
    let named = case_bound(
        alloc,
        scope,
        &pattern.names,
        &sorts,
        pattern.constructor.place,
    )?;
    declare_names(alloc, scope, &named)?;
    all_given(alloc, scope, around, unknowns, commands)?;
    scope.locals.leave(before);
    Ok(())
}

/// The same of a case.
#[cycle(command)]
fn case_given(
    alloc: Global,
    scope: &mut Scope,
    around: &Around,
    unknowns: &mut Unknowns,
    first: usize,
    count: usize,
    case: &CommandCase,
) -> Result<(), RuleFault>
    requires { first + count < 2 ^ 64 }
    ensures { IsCase around.now scope.old first count unknowns.old case.now result scope.new unknowns.new }
{
    body_given(
        alloc,
        scope,
        around,
        unknowns,
        first,
        count,
        case.place,
        &case.pattern,
        &case.commands,
    )
}

/// Cases, from the first to the last.
#[cycle(command)]
#[tactic(auto, using(crate::proofs::Lists::case_smaller))]
fn cases_given(
    alloc: Global,
    scope: &mut Scope,
    around: &Around,
    unknowns: &mut Unknowns,
    first: usize,
    count: usize,
    cases: &CommandCaseList,
) -> Result<(), RuleFault>
    requires { first + count < 2 ^ 64 }
    ensures { AreCases around.now scope.old first count unknowns.old (command_case_list cases.now) result scope.new unknowns.new }
{
    for at in 0..cases.len() {
        let Some(case) = cases.get(at) else {
            return Ok(());
        };
        case_given(alloc, scope, around, unknowns, first, count, case)?;
    }
    Ok(())
}

/// Ghost commands, from the first to the last.
#[cycle(command)]
#[tactic(auto, using(crate::proofs::Lists::command_smaller))]
fn all_given(
    alloc: Global,
    scope: &mut Scope,
    around: &Around,
    unknowns: &mut Unknowns,
    commands: &GhostCommandList,
) -> Result<(), RuleFault>
    ensures { AreCommands around.now scope.old unknowns.old (ghost_command_list commands.now) result scope.new unknowns.new }
{
    for at in 0..commands.len() {
        let Some(command) = commands.get(at) else {
            return Ok(());
        };
        given(alloc, scope, around, unknowns, command)?;
    }
    Ok(())
}
