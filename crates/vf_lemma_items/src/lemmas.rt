//! Lemmas, with a body or without one.

ghost use Rattle.vf_walk.specs.Walking.{Follows};
ghost use Rattle.vf_lemma_items.specs.Lemmas.{BodyOf, DefinitionComes, DefinitionOf, OwnContract, PrototypeComes, PrototypeOf};

use crate::around::{around_body, around_contract};
use crate::earlier::{Head, find_head};
use crate::kept::{keep, take_kept};
use crate::signature::{declare_signature, lemma_number};
use std::alloc::Global;
use vf_base::{Rule, RuleFault, Sequence};
use vf_commands::body_given;
use vf_contracts::contract_given;
use vf_datatypes::refusal::refused;
use vf_declared::scope::Scope;
use vf_names::Names;
use vf_syntax::contract::Contract;
use vf_syntax::item::{GhostBody, GhostParameter};
use vf_syntax::written::Name;

/// A lemma without a body, behind its head.
#[tactic(auto, using(vf_predicates::proofs::Coming::memory, crate::proofs::Wholes::prototype_stops, crate::proofs::Wholes::contract_stops, crate::proofs::Wholes::prototype_comes))]
fn declare_prototype(
    alloc: Global,
    scope: &mut Scope,
    name: &Name,
    parameters: &Sequence<GhostParameter>,
    contract: &Contract,
    head: &Head,
) -> Result<(), RuleFault>
    ensures { Follows (PrototypeOf name.now parameters.now contract.now scope.old head.now) result scope.new }
{
    let count = scope.locals.names.len();
    let number = lemma_number(scope, head.earlier);
    declare_signature(alloc, scope, name, parameters, head)?;
    let around = around_contract();
    contract_given(alloc, scope, &around, &around, contract)?;
    keep(alloc, scope, count, number)?;
    Ok(())
}

/// Declares a lemma without a body.
///
/// # Errors
///
/// Refused at the first of these: its name by rule 7 where it is one of C, by rule 6 where it is `main`, by rule 5
/// where it means something else, a lemma that is declared without a body already, or one of a prelude; a type
/// parameter by rule 5 where it is one already, by rule 7 where it is one of C; its name by rule 5 where it is a lemma
/// with another number of type parameters; a parameter as that of a family; its name by rule 5 where it is a lemma over
/// other sorts; and then what stands in its contract.
pub fn declare_lemma_prototype(
    alloc: Global,
    scope: &mut Scope,
    name: &Name,
    types: &Sequence<Name>,
    parameters: &Sequence<GhostParameter>,
    contract: &Contract,
) -> Result<(), RuleFault>
    ensures { Follows (PrototypeComes name.now types.now parameters.now contract.now scope.old) result scope.new }
{
    let head = find_head(alloc, scope, false, name, types)?;
    declare_prototype(alloc, scope, name, parameters, contract, &head)
}

/// The contract of a lemma with a body, or that which it was declared with without a body.
#[tactic(auto, using(crate::proofs::Wholes::own_contract, crate::proofs::Wholes::kept_contract))]
fn declare_contract(
    alloc: Global,
    scope: &mut Scope,
    parameters: &Sequence<GhostParameter>,
    number: usize,
    contract: &Option<Contract>,
) -> Result<(), RuleFault>
    ensures { Follows (OwnContract parameters.now number contract.now scope.old) result scope.new }
{
    match contract {
        Some(contract) => {
            let around = around_contract();
            contract_given(alloc, scope, &around, &around, contract)
        }
        None => take_kept(alloc, scope, parameters, number),
    }
}

/// The body of the lemma with a number, which has these type parameters.
#[tactic(auto, using(crate::proofs::Wholes::in_header, crate::proofs::Wholes::in_file))]
fn declare_body(
    alloc: Global,
    scope: &mut Scope,
    name: &Name,
    number: usize,
    head: Head,
    body: &GhostBody,
) -> Result<(), RuleFault>
    ensures { Follows (BodyOf name.now number head.parameters body.now scope.old) result scope.new }
{
    if name.place.file == scope.file {
        let around = around_body(number, head.parameters);
        body_given(alloc, scope, &around, &body.commands)
    } else {
        Err(RuleFault::Refused(refused(Rule::Unsupported, body.place)))
    }
}

/// A lemma with its body, behind its head.
#[tactic(auto, using(crate::proofs::Wholes::signature_stops, crate::proofs::Wholes::own_stops, crate::proofs::Wholes::body_stops, crate::proofs::Wholes::definition_comes))]
fn declare_definition(
    alloc: Global,
    scope: &mut Scope,
    name: &Name,
    parameters: &Sequence<GhostParameter>,
    contract: &Option<Contract>,
    body: &GhostBody,
    head: Head,
) -> Result<(), RuleFault>
    ensures { Follows (DefinitionOf name.now parameters.now contract.now body.now scope.old head) result scope.new }
{
    let count = scope.locals.names.len();
    let number = lemma_number(scope, head.earlier);
    declare_signature(alloc, scope, name, parameters, &head)?;
    scope.declare_ghost_body(alloc, number);
    declare_contract(alloc, scope, parameters, number, contract)?;
    declare_body(alloc, scope, name, number, head, body)?;
    scope.locals.leave(count);
    Ok(())
}

/// Declares a lemma with its body, which may call the lemma itself. Without a contract it has the one that it was
/// declared with without a body, if there is one.
///
/// # Errors
///
/// Refused as a lemma without a body, by rule 5 at its name where it has a body already; behind its parameters, where
/// it takes the contract that it was declared with, at the first that has another name there, by rule 5; the body by
/// rule 11 at its `{` where it stands in a header; and then what stands in its body.
pub fn declare_lemma(
    alloc: Global,
    scope: &mut Scope,
    name: &Name,
    types: &Sequence<Name>,
    parameters: &Sequence<GhostParameter>,
    contract: &Option<Contract>,
    body: &GhostBody,
) -> Result<(), RuleFault>
    ensures { Follows (DefinitionComes name.now types.now parameters.now contract.now body.now scope.old) result scope.new }
{
    let head = find_head(alloc, scope, true, name, types)?;
    declare_definition(alloc, scope, name, parameters, contract, body, head)
}
