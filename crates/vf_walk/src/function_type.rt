//! Function types.

ghost use Rattle.std.specs.Prelude.{◌≡◌};
ghost use Rattle.vf_walk.specs.Items.{type_declared, type_named, type_signed, WalksType, WalksTypeOf};
ghost use Rattle.vf_walk.specs.Walking.{Follows, Gives};

use crate::annotations::Annotations;
use crate::function::{clear, result_type, walk_contract};
use crate::names::is_new;
use crate::parameters::{signature, walk_parameters};
use std::alloc::Global;
use vf_base::{Rule, RuleFault};
use vf_declared::ctype::CType;
use vf_declared::declaration::Meaning;
use vf_declared::scope::Scope;
use vf_syntax::contract::Contract;
use vf_syntax::item::Signature;
use vf_syntax::written::Name;
use vf_typing::refused;

/// Declares a function type by its name.
#[tactic(auto, using(crate::proofs::Steps::out_of_memory))]
fn walk_type_name(alloc: Global, scope: &mut Scope, name: &Name) -> Result<(), RuleFault>
    ensures { Gives result scope.new (type_named name.now scope.old) }
{
    if !is_new(scope, name.text.as_bytes()) {
        return Err(RuleFault::Refused(refused(Rule::Name, name.place)));
    }
    let meaning = Meaning::FunctionType(scope.function_types.len());
    scope.declare_name(alloc, name.text.as_bytes(), meaning, name.place.file)?;
    Ok(())
}

/// Gives a function type the types of the locals.
#[tactic(auto, using(crate::proofs::Steps::out_of_memory))]
fn sign(alloc: Global, scope: &mut Scope, given: CType) -> Result<(), RuleFault>
    ensures { Gives result scope.new (type_signed given scope.old) }
{
    let signed = signature(alloc, scope, given)?;
    scope.function_types.push(signed)?;
    Ok(())
}

/// The name and the parameters of a function type that gives a type.
#[tactic(auto, using(crate::proofs::Steps::go, crate::proofs::Steps::stop))]
fn walk_declared(
    alloc: Global,
    scope: &mut Scope,
    signature: &Signature,
    given: CType,
) -> Result<(), RuleFault>
    ensures { Gives result scope.new (type_declared signature.now given scope.old) }
{
    walk_type_name(alloc, scope, &signature.name)?;
    walk_parameters(scope, &signature.parameters)?;
    sign(alloc, scope, given)
}

/// A function type that gives a type.
fn walk_giving<A: Annotations>(
    alloc: Global,
    scope: &mut Scope,
    annotations: &A,
    signature: &Signature,
    contract: &Option<Contract>,
    given: CType,
) -> Result<(), RuleFault>
    ensures { Follows (WalksTypeOf (A.meanings annotations.now) signature.now contract.now scope.old given) result scope.new }
{
    walk_declared(alloc, scope, signature, given)?;
    walk_contract(scope, annotations, signature, given, true, contract)?;
    clear(alloc, scope);
    Ok(())
}

/// A function type.
#[tactic(auto, using(crate::proofs::Steps::end_at))]
pub fn walk_function_type<A: Annotations>(
    alloc: Global,
    scope: &mut Scope,
    annotations: &A,
    signature: &Signature,
    contract: &Option<Contract>,
) -> Result<(), RuleFault>
    ensures { Follows (WalksType (A.meanings annotations.now) signature.now contract.now scope.old) result scope.new }
{
    let given = result_type(scope, &signature.result)?;
    walk_giving(alloc, scope, annotations, signature, contract, given)
}
