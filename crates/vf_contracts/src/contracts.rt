//! Contracts and invariants.

ghost use Rattle.vf_walk.specs.Walking.{Follows};
ghost use Rattle.vf_contracts.specs.Comes.{ContractComes, InvariantComes, OwnedComes};

use crate::contexts::{around_invariant, around_postcondition, around_precondition};
use std::alloc::Global;
use vf_asserting::assertion_given;
use vf_base::RuleFault;
use vf_declared::scope::Scope;
use vf_sorting::Context;
use vf_sorts::Unknowns;
use vf_syntax::contract::{Contract, Invariant};
use vf_walk::Owner;

/// A contract, with what stands around its precondition and around its postcondition: declares the names of the
/// precondition, which are visible in the postcondition too, or refuses the contract at its first fault.
#[tactic(auto, using(crate::proofs::Steps::precondition_fails, crate::proofs::Steps::postcondition_fails, crate::proofs::Steps::contract_gives))]
pub fn contract_given(
    alloc: Global,
    scope: &mut Scope,
    before: &Context,
    after: &Context,
    contract: &Contract,
) -> Result<(), RuleFault>
    ensures { Follows (ContractComes before.now after.now contract.now scope.old) result scope.new }
{
    let mut unknowns = Unknowns::new(alloc);
    assertion_given(alloc, scope, before, &mut unknowns, &contract.precondition)?;
    let count = scope.locals.names.len();
    assertion_given(alloc, scope, after, &mut unknowns, &contract.postcondition)?;
    scope.locals.leave(count);
    Ok(())
}

/// The contract of a function or function type, behind its parameters. `currentThread` may stand in it, `result` in the
/// postcondition where the owner gives a value, and `this` in the contract of a function type.
pub fn owned_contract_given(
    alloc: Global,
    scope: &mut Scope,
    owner: Owner,
    contract: &Contract,
) -> Result<(), RuleFault>
    ensures { Follows (OwnedComes owner contract.now scope.old) result scope.new }
{
    let before = around_precondition(owner);
    let after = around_postcondition(alloc, owner);
    contract_given(alloc, scope, &before, &after, contract)
}

/// The invariant of a loop: declares the names that its patterns bind, which are visible in the loop and behind it, or
/// refuses it at its first fault.
#[tactic(auto, using(crate::proofs::Steps::invariant_fails, crate::proofs::Steps::invariant_gives))]
pub fn invariant_given(
    alloc: Global,
    scope: &mut Scope,
    invariant: &Invariant,
) -> Result<(), RuleFault>
    ensures { Follows (InvariantComes invariant.now scope.old) result scope.new }
{
    let around = around_invariant();
    let mut unknowns = Unknowns::new(alloc);
    assertion_given(alloc, scope, &around, &mut unknowns, &invariant.assertion)?;
    Ok(())
}
