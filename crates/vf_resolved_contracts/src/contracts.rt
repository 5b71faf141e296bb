//! Contracts.

ghost use Rattle.std.specs.Prelude.{◌≡◌, IfOk};
ghost use Rattle.vf_syntax.specs.AssertionTree.{part_list};
ghost use Rattle.vf_asserting.specs.Leaving.{count};
ghost use Rattle.vf_resolving.specs.Standings.{around_of, standing_of};
ghost use Rattle.vf_resolving.specs.Assertions.{parts_resolved};
ghost use Rattle.vf_resolved_contracts.specs.Reading.{around_after, contract_read, postcondition_read, read_of, starting};
ghost use Rattle.vf_resolved_contracts.specs.Resolves.{IsContractKnown, IsContractResolved};

use crate::starts::{count_of, names_of, starting, visible};
use crate::words::{result_symbol, this_symbol, thread_symbol};
use std::alloc::Global;
use vf_asserting::assertion_given;
use vf_base::{Memory, RuleFault, Text};
use vf_declared::scope::Scope;
use vf_resolved::assertion::Assertion;
use vf_resolved::contract::Contract;
use vf_resolving::standing::leave;
use vf_resolving::{Around, Standing, assertion_resolved};
use vf_sorting::Context;
use vf_sorts::Unknowns;
use vf_syntax::contract::Contract as Written;

/// A contract, and what is declared and numbered behind it: the names of its postcondition are gone, and keep their
/// numbers.
#[derive(Drop)]
pub struct ContractRead {
    pub contract: Contract,
    pub standing: Standing,
}

/// What is known of unknown sorts behind a contract, whose names are gone; or its refusal.
#[tactic(auto, using(crate::proofs::Steps::precondition_fails, crate::proofs::Steps::postcondition_fails, crate::proofs::Steps::contract_known))]
fn contract_known(
    alloc: Global,
    scope: &mut Scope,
    before: &Context,
    after: &Context,
    contract: &Written,
) -> Result<Unknowns, RuleFault>
    ensures { IsContractKnown before.now after.now contract.now scope.old result scope.new }
{
    let count = scope.locals.names.len();
    let mut unknowns = Unknowns::new(alloc);
    assertion_given(alloc, scope, before, &mut unknowns, &contract.precondition)?;
    assertion_given(alloc, scope, after, &mut unknowns, &contract.postcondition)?;
    scope.locals.leave(count);
    Ok(unknowns)
}

/// A contract whose precondition is resolved, with what stands around its postcondition.
fn postcondition_read(
    after: &Around<'_>,
    parameters: usize,
    contract: &Written,
    precondition: Assertion,
    standing: Standing,
) -> Result<ContractRead, Memory>
    ensures { IfOk result (λ x. read_of x ≡ postcondition_read (around_of after.now) parameters contract.now (record { parts = precondition; standing = standing_of standing })) }
{
    let mut standing = standing;
    let count = visible(&standing);
    let postcondition = assertion_resolved(after, &mut standing, &contract.postcondition)?;
    leave(&mut standing, count);
    let names = names_of(after.alloc, &standing, parameters)?;
    Ok(ContractRead {
        contract: Contract {
            place: contract.place,
            names,
            precondition,
            postcondition,
        },
        standing,
    })
}

/// A contract behind its parameters, with what stands around its precondition and around its postcondition.
fn conditions_read(
    before: &Around<'_>,
    after: &Around<'_>,
    scope: Scope,
    contract: &Written,
) -> Result<ContractRead, Memory>
    ensures { IfOk result (λ x. read_of x ≡ postcondition_read (around_of after.now) (count scope) contract.now (parts_resolved (around_of before.now) (starting (around_of before.now) scope) (part_list contract.now.precondition))) }
{
    let parameters = count_of(&scope);
    let mut standing = starting(before, scope)?;
    let precondition = assertion_resolved(before, &mut standing, &contract.precondition)?;
    postcondition_read(after, parameters, contract, precondition, standing)
}

/// A contract behind its parameters, with what stands around its precondition.
fn contract_behind(
    before: &Around<'_>,
    scope: Scope,
    after: &Context,
    contract: &Written,
) -> Result<ContractRead, Memory>
    ensures { IfOk result (λ x. read_of x ≡ postcondition_read (around_after (around_of before.now) after.now) (count scope) contract.now (parts_resolved (around_of before.now) (starting (around_of before.now) scope) (part_list contract.now.precondition))) }
{
    let result = result_symbol(before.alloc, after);
    let behind = Around {
        alloc: before.alloc,
        context: after,
        unknowns: before.unknowns,
        paths: before.paths,
        result: &result,
        this_value: before.this_value,
        thread: before.thread,
    };
    conditions_read(before, &behind, scope, contract)
}

/// A contract behind its parameters, with what is known of unknown sorts in the end.
fn contract_read(
    alloc: Global,
    scope: Scope,
    unknowns: &Unknowns,
    paths: &[Text],
    before: &Context,
    after: &Context,
    contract: &Written,
) -> Result<ContractRead, Memory>
    ensures { IfOk result (λ x. read_of x ≡ contract_read before.now after.now unknowns.now paths.now contract.now scope) }
{
    let result = result_symbol(alloc, before);
    let this_value = this_symbol(alloc);
    let thread = thread_symbol(alloc);
    let around = Around {
        alloc,
        context: before,
        unknowns,
        paths,
        result: &result,
        this_value: &this_value,
        thread: &thread,
    };
    contract_behind(&around, scope, after, contract)
}

/// A contract behind its parameters, which are the locals, with what stands around its precondition and around its
/// postcondition; the names of the precondition are declared behind it.
///
/// # Errors
///
/// Refused where its sorting refuses it.
#[tactic(auto, using(crate::proofs::Steps::memory_of_contract, crate::proofs::Steps::contract_fails, crate::proofs::Steps::contract_resolves))]
pub fn contract_resolved(
    alloc: Global,
    scope: Scope,
    paths: &[Text],
    before: &Context,
    after: &Context,
    contract: &Written,
) -> Result<ContractRead, RuleFault>
    ensures { IsContractResolved before.now after.now paths.now contract.now scope result }
{
    let mut around = scope;
    let unknowns = contract_known(alloc, &mut around, before, after, contract)?;
    let read = contract_read(alloc, around, &unknowns, paths, before, after, contract)?;
    Ok(read)
}
