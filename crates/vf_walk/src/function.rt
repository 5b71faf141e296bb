//! Functions.

ghost use Rattle.std.specs.Prelude.{◌≡◌, OnOk, slice_get};
ghost use Rattle.std.specs.Option.{option_copied};
ghost use Rattle.vf_walk.specs.Items.{again_in, declared_as, defined_walked, function_number, head, is_main, listed, main_is_right, no_locals, owner, prototype_in, result_type, signature_of, signature_walked, taken_where, WalksBody, WalksContract, WalksDefinition, WalksDefinitionOf, WalksPrototype, WalksPrototypeOf, without_locals};
ghost use Rattle.vf_declared.specs.Writing.{with_function, with_prototype};
ghost use Rattle.vf_typing.specs.Types.{is_int};
ghost use Rattle.vf_walk.specs.Walking.{Follows, Gives, Optional};

use crate::annotations::{Annotations, Owner};
use crate::names::{earlier, has_types};
use crate::parameters::{first_renamed, is_empty, real_types, signature, walk_parameters};
use crate::statement::walk_statements;
use std::alloc::Global;
use vf_base::{IntType, Memory, Refusal, Rule, RuleFault};
use vf_declared::ctype::CType;
use vf_declared::locals::Locals;
use vf_declared::scope::Scope;
use vf_declared::stack::Stack;
use vf_names::Names;
use vf_syntax::contract::Contract;
use vf_syntax::item::{Body, Parameters, Signature};
use vf_syntax::written::{Name, ResultType};
use vf_typing::{refused, written_type};

/// What stands in front of a function's parameters: what it gives, and the number of the function that it is, where
/// one is declared already.
#[derive(Clone, Copy)]
pub struct Head {
    pub given: CType,
    pub earlier: Option<usize>,
}

/// What a function gives.
pub fn result_type(scope: &Scope, written: &ResultType) -> Result<CType, Refusal>
    ensures { result ≡ result_type scope.now written.now }
{
    match written {
        ResultType::Void(_) => Ok(CType::Void),
        ResultType::Value(written) => written_type(scope, written),
    }
}

/// Whether a type is `int`.
fn is_int(given: CType) -> bool
    ensures { result ≡ is_int given }
{
    match given {
        CType::Integer(IntType::Int) => true,
        _ => false,
    }
}

/// Whether a function that gives a type is another than `main`, or is as `main` has to be.
fn main_is_right(given: CType, signature: &Signature) -> bool
    ensures { result ≡ main_is_right given signature.now }
{
    if signature.name.text.as_bytes() == b"main".as_slice() {
        is_int(given) && is_empty(&signature.parameters)
    } else {
        true
    }
}

/// What stands in front of a function's parameters.
fn find_head(scope: &Scope, signature: &Signature, has_body: bool) -> Result<Head, Refusal>
    ensures { result ≡ head scope.now signature.now has_body }
{
    let given = result_type(scope, &signature.result)?;
    let earlier = earlier(scope, &signature.name, has_body)?;
    if main_is_right(given, signature) {
        Ok(Head { given, earlier })
    } else {
        Err(refused(Rule::Typing, signature.name.place))
    }
}

/// The number of a function that is declared.
fn function_number(scope: &Scope, earlier: Option<usize>) -> usize
    ensures { result ≡ function_number scope.now earlier }
{
    match earlier {
        Some(number) => number,
        None => scope.functions.len(),
    }
}

/// Declares the name with a number in a file too, if there is one.
fn declare_again(
    alloc: Global,
    scope: &mut Scope,
    file: u32,
    found: Option<usize>,
) -> Result<(), Memory>
    ensures { OnOk result (scope.new ≡ again_in file found scope.old) }
{
    match found {
        Some(number) => {
            scope.declare_name_again(alloc, number, file)?;
            Ok(())
        }
        None => Ok(()),
    }
}

/// Declares a function that is new.
fn declare_new(alloc: Global, scope: &mut Scope, name: &Name, given: CType) -> Result<(), Memory>
    ensures { OnOk result (scope.new ≡ with_function scope.old name.now.text name.now.place.file (signature_of given scope.old)) }
{
    let signature = signature(alloc, scope, given)?;
    scope.declare_function(alloc, name.text.as_bytes(), name.place.file, signature)?;
    Ok(())
}

/// Declares a function behind its parameters.
#[tactic(auto, using(crate::proofs::Steps::out_of_memory))]
fn declare(alloc: Global, scope: &mut Scope, name: &Name, head: Head) -> Result<(), RuleFault>
    ensures { Gives result scope.new (declared_as name.now head.given head.earlier scope.old) }
{
    let Some(number) = head.earlier else {
        declare_new(alloc, scope, name, head.given)?;
        return Ok(());
    };
    let types = real_types(alloc, &scope.locals.meanings)?;
    if !has_types(head.given, &types, scope.functions.get(number)) {
        return Err(RuleFault::Refused(refused(Rule::Name, name.place)));
    }
    let found = scope.names.number(name.text.as_bytes());
    declare_again(alloc, scope, name.place.file, found)?;
    Ok(())
}

/// The parameters of a function, and its declaration behind them.
#[tactic(auto, using(crate::proofs::Steps::go, crate::proofs::Steps::stop))]
fn walk_signature(
    alloc: Global,
    scope: &mut Scope,
    signature: &Signature,
    head: Head,
) -> Result<(), RuleFault>
    ensures { Gives result scope.new (signature_walked signature.now head scope.old) }
{
    walk_parameters(scope, &signature.parameters)?;
    declare(alloc, scope, &signature.name, head)
}

/// Whose contract it is.
fn owner(signature: &Signature, given: CType, is_type: bool) -> Owner
    ensures { result ≡ owner signature.now given is_type }
{
    Owner {
        file: signature.name.place.file,
        given,
        is_type,
    }
}

/// The contract of a function or function type that gives a type, if there is one.
#[tactic(auto, using(crate::proofs::Steps::absent))]
pub fn walk_contract<A: Annotations>(
    scope: &mut Scope,
    annotations: &A,
    signature: &Signature,
    given: CType,
    is_type: bool,
    contract: &Option<Contract>,
) -> Result<(), RuleFault>
    ensures { Follows (Optional ((A.meanings annotations.now).contract (owner signature.now given is_type)) contract.now scope.old) result scope.new }
{
    match contract {
        Some(contract) => {
            annotations.contract(scope, owner(signature, given, is_type), contract)
        }
        None => Ok(()),
    }
}

/// No locals.
fn no_locals(alloc: Global) -> Locals
    ensures { result ≡ no_locals }
{
    Locals {
        names: Names::new(alloc),
        meanings: Stack::new(alloc),
    }
}

/// Keeps the locals behind a prototype with it.
fn keep(alloc: Global, scope: &mut Scope, number: usize)
    ensures { scope.new ≡ without_locals (with_prototype scope.old number scope.old.locals) }
{
    let locals = std::mem::replace(&mut scope.locals, no_locals(alloc));
    scope.declare_prototype(number, locals);
}

/// A prototype behind its head.
fn walk_prototype_behind<A: Annotations>(
    alloc: Global,
    scope: &mut Scope,
    annotations: &A,
    signature: &Signature,
    contract: &Option<Contract>,
    head: Head,
) -> Result<(), RuleFault>
    ensures { Follows (WalksPrototypeOf (A.meanings annotations.now) signature.now contract.now scope.old head) result scope.new }
{
    let number = function_number(scope, head.earlier);
    walk_signature(alloc, scope, signature, head)?;
    walk_contract(scope, annotations, signature, head.given, false, contract)?;
    keep(alloc, scope, number);
    Ok(())
}

/// A prototype.
pub fn walk_prototype<A: Annotations>(
    alloc: Global,
    scope: &mut Scope,
    annotations: &A,
    signature: &Signature,
    contract: &Option<Contract>,
) -> Result<(), RuleFault>
    ensures { Follows (WalksPrototype (A.meanings annotations.now) signature.now contract.now scope.old) result scope.new }
{
    let head = find_head(scope, signature, false)?;
    walk_prototype_behind(alloc, scope, annotations, signature, contract, head)
}

/// The locals behind the prototype of the function with a number.
fn prototype_locals(scope: &Scope, number: usize) -> Option<&Locals>
    ensures { option_copied result ≡ prototype_in (slice_get scope.now.sides number) }
{
    let sides = scope.sides.get(number)?;
    sides.prototype.as_ref()
}

/// Gives a definition without a contract the locals of its prototype, if it has one and contracts are taken.
#[tactic(auto, using(crate::proofs::Steps::out_of_memory))]
fn take_prototype(
    alloc: Global,
    scope: &mut Scope,
    takes: bool,
    parameters: &Parameters,
    number: usize,
) -> Result<(), RuleFault>
    ensures { Gives result scope.new (taken_where takes (listed parameters.now) (prototype_in (slice_get scope.old.sides number)) scope.old) }
{
    if !takes {
        return Ok(());
    }
    let Some(locals) = prototype_locals(scope, number) else {
        return Ok(());
    };
    if let Some(place) = first_renamed(&locals.names, parameters) {
        return Err(RuleFault::Refused(refused(Rule::Name, place)));
    }
    scope.locals = locals.copy(alloc)?;
    Ok(())
}

/// The contract of a definition, or that of its prototype.
#[tactic(auto, using(crate::proofs::Steps::just))]
fn walk_own_contract<A: Annotations>(
    alloc: Global,
    scope: &mut Scope,
    annotations: &A,
    signature: &Signature,
    given: CType,
    number: usize,
    contract: &Option<Contract>,
) -> Result<(), RuleFault>
    ensures { Follows (WalksContract (A.meanings annotations.now) signature.now given number contract.now scope.old) result scope.new }
{
    match contract {
        Some(contract) => annotations.contract(scope, owner(signature, given, false), contract),
        None => take_prototype(
            alloc,
            scope,
            annotations.takes_contracts(),
            &signature.parameters,
            number,
        ),
    }
}

/// The body of a function.
#[tactic(auto, using(crate::proofs::Steps::just))]
fn walk_body<A: Annotations>(
    scope: &mut Scope,
    annotations: &A,
    name: &Name,
    given: CType,
    body: &Body,
) -> Result<(), RuleFault>
    ensures { Follows (WalksBody (A.meanings annotations.now) name.now given body.now scope.old) result scope.new }
{
    if name.place.file == scope.file {
        walk_statements(scope, annotations, given, &body.statements)
    } else {
        Err(RuleFault::Refused(refused(Rule::Unsupported, body.place)))
    }
}

/// The declaration of a function with a body, in front of its contract.
#[tactic(auto, using(crate::proofs::Steps::go, crate::proofs::Steps::stop))]
fn walk_defined(
    alloc: Global,
    scope: &mut Scope,
    signature: &Signature,
    head: Head,
) -> Result<(), RuleFault>
    ensures { Gives result scope.new (defined_walked signature.now head scope.old) }
{
    let number = function_number(scope, head.earlier);
    walk_signature(alloc, scope, signature, head)?;
    scope.declare_body(number);
    Ok(())
}

/// Takes all locals away.
pub fn clear(alloc: Global, scope: &mut Scope)
    ensures { scope.new ≡ without_locals scope.old }
{
    scope.locals = no_locals(alloc);
}

/// A function with its body, behind its head.
fn walk_definition_behind<A: Annotations>(
    alloc: Global,
    scope: &mut Scope,
    annotations: &A,
    signature: &Signature,
    contract: &Option<Contract>,
    body: &Body,
    head: Head,
) -> Result<(), RuleFault>
    ensures { Follows (WalksDefinitionOf (A.meanings annotations.now) signature.now contract.now body.now scope.old head) result scope.new }
{
    let number = function_number(scope, head.earlier);
    walk_defined(alloc, scope, signature, head)?;
    walk_own_contract(
        alloc,
        scope,
        annotations,
        signature,
        head.given,
        number,
        contract,
    )?;
    walk_body(scope, annotations, &signature.name, head.given, body)?;
    clear(alloc, scope);
    Ok(())
}

/// A function with its body.
pub fn walk_definition<A: Annotations>(
    alloc: Global,
    scope: &mut Scope,
    annotations: &A,
    signature: &Signature,
    contract: &Option<Contract>,
    body: &Body,
) -> Result<(), RuleFault>
    ensures { Follows (WalksDefinition (A.meanings annotations.now) signature.now contract.now body.now scope.old) result scope.new }
{
    let head = find_head(scope, signature, true)?;
    walk_definition_behind(alloc, scope, annotations, signature, contract, body, head)
}
