//! The check of a fixpoint.

ghost use Rattle.std.specs.Prelude.{◌≡◌, MatchResult, None, Some, IfOk};
ghost use Rattle.vf_fixpoint.specs.Cases.{components_of, first_stray_case, parameter_of, refused_at, stray_in_case};
ghost use Rattle.vf_fixpoint.specs.Answers.{IsFaultOf};

use crate::calls::{Recursion, first_stray};
use crate::cases::is_complete;
use std::alloc::Global;
use vf_base::{Memory, Place, Refusal, Rule, RuleFault, Sequence, Shown, Text};
use vf_names::Names;
use vf_syntax::item::{FixpointBody, FixpointCase, GhostParameter};
use vf_syntax::pattern::CasePattern;
use vf_syntax::written::Name;

/// Which of some parameters has a name, counted from 0.
fn parameter_of(parameters: &[GhostParameter], name: &Text) -> Option<usize>
    ensures { result ≡ parameter_of parameters.now name.now }
{
    for (at, parameter) in parameters.iter().enumerate() {
        if name.as_bytes() == parameter.name.text.as_bytes() {
            return Some(at);
        }
    }
    None
}

/// The names that a case gives to the components.
fn components_of(pattern: &CasePattern) -> &[Name]
    ensures { result.now ≡ components_of pattern.now.names }
{
    match &pattern.names {
        Some(names) => names.as_slice(),
        None => &[],
    }
}

/// The first call in a case that does not pass a component of the case.
fn stray_in_case(name: &Text, parameter: Option<usize>, case: &FixpointCase) -> Option<Place>
    ensures { result ≡ stray_in_case name.now parameter case.now }
{
    let recursion = Recursion {
        name,
        parameter,
        components: components_of(&case.pattern),
    };
    first_stray(&recursion, &case.value)
}

/// The first call in some cases that does not pass a component of its case.
fn first_stray_case(name: &Text, parameter: Option<usize>, cases: &[FixpointCase]) -> Option<Place>
    ensures { result ≡ first_stray_case name.now parameter cases.now }
{
    for case in cases {
        if let Some(place) = stray_in_case(name, parameter, case) {
            return Some(place);
        }
    }
    None
}

/// Where a fixpoint is refused.
fn refused_at(
    alloc: Global,
    name: &Name,
    parameters: &[GhostParameter],
    constructors: &Names,
    body: &FixpointBody,
) -> Result<Option<Place>, Memory>
    ensures { IfOk result (λ o. o ≡ refused_at name.now parameters.now constructors.now body.now) }
{
    match body {
        FixpointBody::Value(value) => {
            let recursion = Recursion {
                name: &name.text,
                parameter: None,
                components: &[],
            };
            Ok(first_stray(&recursion, value))
        }
        FixpointBody::Switch(over, cases) => {
            if !is_complete(alloc, constructors, cases.as_slice())? {
                return Ok(Some(name.place));
            }
            let parameter = parameter_of(parameters, &over.text);
            Ok(first_stray_case(&name.text, parameter, cases.as_slice()))
        }
    }
}

/// Whether the equations of a fixpoint give it a value: of the datatype by which it goes each constructor, whose names
/// are given, has one case, and each call of itself passes a component.
///
/// # Errors
///
/// Refused by rule 10 at the fixpoint's name where a case is missing or doubled, and else at the first call that does
/// not pass a component, those inside of a call before it.
pub fn check_fixpoint(
    alloc: Global,
    name: &Name,
    parameters: &Sequence<GhostParameter>,
    body: &FixpointBody,
    constructors: &Names,
) -> Result<(), RuleFault>
    ensures { MatchResult result
        (λ _. refused_at name.now parameters.now constructors.now body.now ≡ None)
        (IsFaultOf (refused_at name.now parameters.now constructors.now body.now)) }
{
    match refused_at(alloc, name, parameters.as_slice(), constructors, body)? {
        Some(place) => Err(RuleFault::Refused(Refusal {
            rule: Rule::Fixpoint,
            place,
            shown: Shown::Nothing,
        })),
        None => Ok(()),
    }
}
