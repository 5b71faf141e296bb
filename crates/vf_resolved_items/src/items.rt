//! Bodies of predicates and contracts of lemmas behind the parameters that the text has.

ghost use Rattle.std.specs.Prelude.{◌≡◌};
ghost use Rattle.vf_predicates.specs.Bodies as bodies;
ghost use Rattle.vf_lemma_items.specs.Lemmas as lemmas;
ghost use Rattle.vf_resolved_items.specs.Resolves.{IsLemmaResolved, IsPredicateResolved};

use std::alloc::Global;
use vf_base::{RuleFault, Sequence, Text};
use vf_declared::scope::Scope;
use vf_heads::parameters::declare_parameters;
use vf_names::Names;
use vf_resolved_contracts::{BodyRead, ContractRead, body_resolved, contract_resolved};
use vf_sorting::Context;
use vf_sorts::SortList;
use vf_syntax::assertion::Assertion;
use vf_syntax::contract::Contract;
use vf_syntax::item::GhostParameter;

/// What stands around the body of a predicate.
fn around_body() -> Context
    ensures { result ≡ bodies.around_body }
{
    Context {
        result: None,
        has_this: false,
        has_thread: false,
        own: None,
    }
}

/// What stands around the precondition and the postcondition of a lemma.
fn around_contract() -> Context
    ensures { result ≡ lemmas.around_contract }
{
    Context {
        result: None,
        has_this: false,
        has_thread: true,
        own: None,
    }
}

/// The body of a predicate, of a family for a function or of a predicate constructor, where its item is declared: behind
/// the first parameters of a predicate constructor, where there are any, and the others.
///
/// # Errors
///
/// Refused where a parameter or the sorting of the body is refused.
#[tactic(auto)]
pub fn predicate_resolved(
    alloc: Global,
    scope: Scope,
    paths: &[Text],
    first: &Sequence<GhostParameter>,
    others: &Sequence<GhostParameter>,
    body: &Assertion,
) -> Result<BodyRead, RuleFault>
    ensures { IsPredicateResolved paths.now first.now others.now body.now scope result }
{
    let mut around = scope;
    let none = Names::new(alloc);
    let mut sorts = SortList::new(alloc);
    declare_parameters(alloc, &mut around, &none, first, &mut sorts)?;
    declare_parameters(alloc, &mut around, &none, others, &mut sorts)?;
    let context = around_body();
    body_resolved(alloc, around, paths, &context, body)
}

/// The contract of a lemma with these type parameters, where its item is declared, behind its parameters; the names of
/// the precondition are declared behind it.
///
/// # Errors
///
/// Refused where a parameter or the sorting of the contract is refused.
#[tactic(auto)]
pub fn lemma_resolved(
    alloc: Global,
    scope: Scope,
    paths: &[Text],
    type_parameters: &Names,
    parameters: &Sequence<GhostParameter>,
    contract: &Contract,
) -> Result<ContractRead, RuleFault>
    ensures { IsLemmaResolved paths.now type_parameters.now parameters.now contract.now scope result }
{
    let mut around = scope;
    let mut sorts = SortList::new(alloc);
    declare_parameters(alloc, &mut around, type_parameters, parameters, &mut sorts)?;
    let context = around_contract();
    contract_resolved(alloc, around, paths, &context, &context, contract)
}
