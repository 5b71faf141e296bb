//! A body, from its first step on.

ghost use Rattle.std.specs.Prelude.{◌≡◌, ◌<◌, Err, IfOk, MatchResult, Ok, length, replicate, None, slice_get, slice_set, Some};
ghost use Rattle.vf_asking.specs.Course.{Says};
ghost use Rattle.vf_asking.specs.Journal.{Grew, HasNode, path_at, seen};
ghost use Rattle.vf_asking.specs.Plain.{CanBeAsked};
ghost use Rattle.vf_formula.specs.Literals.{shown_literal};
ghost use Rattle.vf_exec.specs.Main.{postcondition_of, precondition_of, place_of, returns, leaves, runs, enters, assumes, checks_function, checks};
ghost use Rattle.vf_exec.specs.Small.{AreSmall, IsSmallTerm};

use crate::literals::{equal, truth};
use crate::sum::{Locals, NumberTerm, evaluate, folded, refusal, require};
use std::alloc::Global;
use vf_asking::{Asker, holds, note};
use vf_base::{Memory, Place, Refusal, Rule, RuleFault, Sequence};
use vf_formula::Literal;
use vf_trail::Node;
use vf_tree::{Core, CoreStep, Expression, Function, Pure};

/// The first token of a pure part.
fn place_of(part: Pure) -> Place
    ensures { result ≡ place_of part }
{
    match part {
        Pure::True { place } => place,
        Pure::ResultIs { number: _, place } => place,
    }
}

/// What a pure part of a postcondition says of the returned term.
fn postcondition_of(alloc: Global, part: Pure, term: NumberTerm) -> Result<Literal, Refusal>
    requires { IsSmallTerm term }
    ensures value { MatchResult result (λ l. postcondition_of part term ≡ Ok (shown_literal l)) (λ e. postcondition_of part term ≡ Err e) }
    ensures plain { IfOk result (λ l. CanBeAsked (shown_literal l)) }
{
    match part {
        Pure::True { place: _ } => Ok(truth(alloc, true)),
        Pure::ResultIs { number, place } => match folded(place, number) {
            Ok(wanted) => Ok(equal(alloc, term.number, wanted.number)),
            Err(_) => Err(refusal(Rule::Pure, place)),
        },
    }
}

/// What a pure part of a precondition says.
fn precondition_of(alloc: Global, part: Pure) -> Literal
    ensures value { shown_literal result ≡ precondition_of part }
    ensures plain { CanBeAsked (shown_literal result) }
{
    match part {
        Pure::True { place: _ } => truth(alloc, true),
        Pure::ResultIs {
            number: _,
            place: _,
        } => Literal::False,
    }
}

/// Asks for the postcondition at the returned term.
#[tactic(auto, using(crate::proofs::Bodies::returning))]
fn check_return<A: Asker>(
    alloc: Global,
    asker: &mut A,
    at: Node,
    part: Pure,
    term: NumberTerm,
) -> Result<(), RuleFault>
    requires begun { 0 < length (A.journal asker.old).units }
    requires there { HasNode (A.journal asker.old) at }
    requires small { IsSmallTerm term }
    ensures says { Says (returns part (path_at (A.journal asker.old) at) term) (λ _. tt) (seen (A.journal asker.old)) (seen (A.journal asker.new)) result }
    ensures grew { Grew (A.journal asker.old) (A.journal asker.new) }
    ensures origin { A.origin asker.new ≡ A.origin asker.old }
{
    let goal = postcondition_of(alloc, part, term)?;
    require(asker, at, &goal, Rule::Pure, place_of(part))?;
    Ok(())
}

/// Evaluates the returned sum, and asks for the postcondition.
#[tactic(auto, using(vf_asking::proofs::Following::follows, vf_asking::proofs::Seeing::grew_path, vf_asking::proofs::Seeing::grew_node, vf_asking::proofs::Seeing::grew_begun, vf_asking::proofs::Seeing::grew_on), unfolding(crate::specs::Main::leaves))]
fn check_leave<A: Asker>(
    alloc: Global,
    asker: &mut A,
    at: Node,
    name: Place,
    part: Pure,
    locals: &Locals,
    value: &Expression,
) -> Result<(), RuleFault>
    requires begun { 0 < length (A.journal asker.old).units }
    requires there { HasNode (A.journal asker.old) at }
    requires locals { AreSmall locals.now }
    ensures says { Says (leaves name part (path_at (A.journal asker.old) at) locals.now value.now) (λ _. tt) (seen (A.journal asker.old)) (seen (A.journal asker.new)) result }
    ensures grew { Grew (A.journal asker.old) (A.journal asker.new) }
    ensures origin { A.origin asker.new ≡ A.origin asker.old }
{
    let term = evaluate(alloc, asker, at, name, locals, value)?;
    check_return(alloc, asker, at, part, term)?;
    Ok(())
}

/// Gives a local a term.
fn set_local(locals: &mut Locals, local: u32, term: NumberTerm)
    requires locals { AreSmall locals.old }
    requires term { IsSmallTerm term }
    ensures set { locals.new ≡ slice_set locals.old local (Some term) }
    ensures small { AreSmall locals.new }
{
    let local = local as usize;
    if local < locals.len() {
        locals.set(local, Some(term));
    }
}

/// As many unset locals.
fn unset_locals(alloc: Global, count: u32) -> Result<Locals, Memory>
    ensures unset { IfOk result (λ locals. locals ≡ replicate count None) }
    ensures small { IfOk result AreSmall }
{
    let mut locals = Sequence::new(alloc);
    for _ in 0..count {
        locals.push(None)?;
    }
    Ok(locals)
}

/// Walks the steps of a body.
fn check_steps<A: Asker>(
    alloc: Global,
    asker: &mut A,
    at: Node,
    core: &Core,
    function: &Function,
    unset: Locals,
) -> Result<(), RuleFault>
    requires begun { 0 < length (A.journal asker.old).units }
    requires there { HasNode (A.journal asker.old) at }
    requires locals { AreSmall unset }
    ensures says { Says (runs function.now.closing core.now.name core.now.contract.postcondition (path_at (A.journal asker.old) at) unset function.now.steps) (λ _. tt) (seen (A.journal asker.old)) (seen (A.journal asker.new)) result }
    ensures grew { Grew (A.journal asker.old) (A.journal asker.new) }
    ensures origin { A.origin asker.new ≡ A.origin asker.old }
{
    let mut locals = unset;
    let steps = function.steps.as_slice();
    for step in steps {
        match step {
            CoreStep::Set {
                local,
                value,
                next: _,
            } => {
                let term = match evaluate(alloc, asker, at, core.name, &locals, value) {
                    Ok(term) => term,
                    Err(fault) => return Err(fault),
                };
                set_local(&mut locals, *local, term);
            }
            CoreStep::Return { value } => {
                match check_leave(
                    alloc,
                    asker,
                    at,
                    core.name,
                    core.contract.postcondition,
                    &locals,
                    value,
                ) {
                    Ok(()) => return Ok(()),
                    Err(fault) => return Err(fault),
                }
            }
        }
    }
    Err(RuleFault::Refused(refusal(Rule::NoReturn, function.closing)))
}

/// Walks a body whose precondition is assumed at a node.
#[tactic(auto, using(crate::proofs::Bodies::entering))]
fn check_entered<A: Asker>(
    alloc: Global,
    asker: &mut A,
    at: Node,
    core: &Core,
    function: &Function,
) -> Result<(), RuleFault>
    requires begun { 0 < length (A.journal asker.old).units }
    requires there { HasNode (A.journal asker.old) at }
    ensures says { Says (enters function.now core.now (path_at (A.journal asker.old) at)) (λ _. tt) (seen (A.journal asker.old)) (seen (A.journal asker.new)) result }
    ensures grew { Grew (A.journal asker.old) (A.journal asker.new) }
    ensures origin { A.origin asker.new ≡ A.origin asker.old }
{
    let absurd_start = holds(asker, at, &Literal::False, core.name)?;
    if absurd_start {
        return Ok(());
    }
    let unset = unset_locals(alloc, function.locals)?;
    check_steps(alloc, asker, at, core, function, unset)?;
    Ok(())
}

/// Asks for a precondition from nothing, and assumes it at a node.
#[tactic(auto, using(crate::proofs::Bodies::assuming))]
fn assume<A: Asker>(
    asker: &mut A,
    root: Node,
    core: &Core,
    precondition: &Literal,
) -> Result<Node, RuleFault>
    requires begun { 0 < length (A.journal asker.old).units }
    requires root { root.number ≡ 0 }
    requires is { shown_literal precondition.now ≡ precondition_of core.now.contract.precondition }
    requires plain { CanBeAsked (shown_literal precondition.now) }
    ensures says { Says (assumes core.now) (λ node. path_at (A.journal asker.new) node) (seen (A.journal asker.old)) (seen (A.journal asker.new)) result }
    ensures node { IfOk result (λ node. HasNode (A.journal asker.new) node) }
    ensures grew { Grew (A.journal asker.old) (A.journal asker.new) }
    ensures origin { A.origin asker.new ≡ A.origin asker.old }
{
    require(asker, root, precondition, Rule::Contract, core.name)?;
    let at = note(asker, root, precondition, core.name)?;
    Ok(at)
}

/// Asks for the precondition of main from nothing, and assumes it at a node.
fn assume_precondition<A: Asker>(
    alloc: Global,
    asker: &mut A,
    root: Node,
    core: &Core,
) -> Result<Node, RuleFault>
    requires begun { 0 < length (A.journal asker.old).units }
    requires root { root.number ≡ 0 }
    ensures says { Says (assumes core.now) (λ node. path_at (A.journal asker.new) node) (seen (A.journal asker.old)) (seen (A.journal asker.new)) result }
    ensures node { IfOk result (λ node. HasNode (A.journal asker.new) node) }
    ensures grew { Grew (A.journal asker.old) (A.journal asker.new) }
    ensures origin { A.origin asker.new ≡ A.origin asker.old }
{
    let precondition = precondition_of(alloc, core.contract.precondition);
    assume(asker, root, core, &precondition)
}

/// Checks a function: its precondition from nothing, and then its body.
#[tactic(auto, using(crate::proofs::Bodies::checking))]
fn check_function<A: Asker>(
    alloc: Global,
    asker: &mut A,
    root: Node,
    core: &Core,
    function: &Function,
) -> Result<(), RuleFault>
    requires begun { 0 < length (A.journal asker.old).units }
    requires root { root.number ≡ 0 }
    ensures says { Says (checks_function core.now function.now) (λ _. tt) (seen (A.journal asker.old)) (seen (A.journal asker.new)) result }
    ensures grew { Grew (A.journal asker.old) (A.journal asker.new) }
    ensures origin { A.origin asker.new ≡ A.origin asker.old }
{
    let at = assume_precondition(alloc, asker, root, core)?;
    check_entered(alloc, asker, at, core, function)?;
    Ok(())
}

/// Checks the main of a unit by the rules, whose questions the asker answers. The unit was begun.
///
/// # Errors
///
/// The first refusal in the order of the rules: rule 20 where a sum is not proved to fit, 24 where
/// the postcondition is not proved, and those that reading rules out (23, 28, 32, 41, 42).
#[tactic(auto, using(crate::proofs::Bodies::deciding))]
pub fn check_main<A: Asker>(
    alloc: Global,
    core: &Core,
    asker: &mut A,
    root: Node,
) -> Result<(), RuleFault>
    requires begun { 0 < length (A.journal asker.old).units }
    requires root { root.number ≡ 0 }
    ensures says { Says (checks core.now) (λ _. tt) (seen (A.journal asker.old)) (seen (A.journal asker.new)) result }
    ensures grew { Grew (A.journal asker.old) (A.journal asker.new) }
    ensures origin { A.origin asker.new ≡ A.origin asker.old }
{
    match core.plain.functions.get(core.plain.main as usize) {
        Some(function) => match check_function(alloc, asker, root, core, function) {
            Ok(()) => Ok(()),
            Err(fault) => Err(fault),
        },
        None => Ok(()),
    }
}
