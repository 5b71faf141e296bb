//! Claims: that a function is one of a function type.
//!
//! `: T` behind the head of a function claims that it may be called through pointers to `T`. The name has to be that of a
//! function type that is seen there, and the function has to give and take what its functions do. That the contract of
//! the type is kept is another question, which is asked where bodies are checked.
//!
//! In `specs/`: when the claim of a function agrees with it: it names a function type that is seen there, whose
//! functions give and take what the function does; that of `main` on `main` says nothing. `claim_refusal` gives the
//! refusal of a claim at its `:` exactly where it does not agree; `claimed_type` the function type that it names.
//! Where in the order of a unit's checks it comes is not part of it.
#![tactic(auto)]

ghost use Rattle.std.specs.Prelude.{◌≡◌};
ghost use Rattle.std.specs.Option.{option_copied};
ghost use Rattle.vf_claims.specs.Claims.{are_same, claim_refusal, claimed_type, function_in, is_main, says_nothing, signature_at, signature_named, type_in, type_signature};

use vf_base::{Refusal, Rule, Text};
use vf_declared::declaration::{Meaning, Signature};
use vf_declared::scope::Scope;
use vf_syntax::contract::Claim;
use vf_syntax::written::Name;
use vf_typing::{refused, same_types};

/// The number of the function type that a name means, if it means one.
fn type_in(meaning: Option<Meaning>) -> Option<usize>
    ensures { result ≡ type_in meaning }
{
    match meaning {
        Some(Meaning::FunctionType(number)) => Some(number),
        _ => None,
    }
}

/// The number of the function that a name means, if it means one.
fn function_in(meaning: Option<Meaning>) -> Option<usize>
    ensures { result ≡ function_in meaning }
{
    match meaning {
        Some(Meaning::Function(number)) => Some(number),
        _ => None,
    }
}

/// The number of the function type that a claim names, where one is seen from the file in which its name stands.
pub fn claimed_type(scope: &Scope, claim: &Claim) -> Option<usize>
    ensures { result ≡ claimed_type scope.now claim.now }
{
    type_in(scope.declaration(&claim.name.text, claim.name.place.file))
}

/// What the functions of a function type give and take.
fn type_signature(scope: &Scope, number: Option<usize>) -> Option<&Signature>
    ensures { option_copied result ≡ type_signature scope.now number }
{
    match number {
        Some(number) => scope.function_type(number),
        None => None,
    }
}

/// What a function gives and takes.
fn signature_at(scope: &Scope, number: Option<usize>) -> Option<&Signature>
    ensures { option_copied result ≡ signature_at scope.now number }
{
    match number {
        Some(number) => scope.signature(number),
        None => None,
    }
}

/// What the function with a name gives and takes, where one is seen from the file in which the name stands.
fn signature_named<'s>(scope: &'s Scope, name: &Name) -> Option<&'s Signature>
    ensures { option_copied result ≡ signature_named scope.now name.now }
{
    signature_at(
        scope,
        function_in(scope.declaration(&name.text, name.place.file)),
    )
}

/// Whether both are there, and give and take the same.
fn are_same(first: Option<&Signature>, second: Option<&Signature>) -> bool
    ensures { result ≡ are_same (option_copied first.entry) (option_copied second.entry) }
{
    match first {
        Some(first) => match second {
            Some(second) => {
                first.result.same(second.result)
                    && same_types(&first.parameters, &second.parameters)
            }
            None => false,
        },
        None => false,
    }
}

/// Whether it is the name of the function that a program begins with.
fn is_main(name: &Text) -> bool
    ensures { result ≡ is_main name.now }
{
    name.as_bytes() == b"main".as_slice()
}

/// Whether a claim of a function says nothing: that of `main` that it is one of `main`.
fn says_nothing(name: &Name, claim: &Claim) -> bool
    ensures { result ≡ says_nothing name.now claim.now }
{
    is_main(&name.text) && is_main(&claim.name.text)
}

/// The refusal of the claim of the function with a name, where both stand: by the rule of claims at its `:`, where it
/// names no function type, or one whose functions give or take something else.
pub fn claim_refusal(scope: &Scope, name: &Name, claim: &Claim) -> Option<Refusal>
    ensures { result ≡ claim_refusal scope.now name.now claim.now }
{
    let claimed = type_signature(scope, claimed_type(scope, claim));
    if says_nothing(name, claim) || are_same(claimed, signature_named(scope, name)) {
        None
    } else {
        Some(refused(Rule::Claim, claim.place))
    }
}
