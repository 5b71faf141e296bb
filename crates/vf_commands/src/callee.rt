//! What calls take.

ghost use Rattle.std.specs.Prelude.{◌≡◌, map, Ok, Err, IfOk};
ghost use Rattle.std.specs.Option.{option_copied};
ghost use Rattle.vf_sorting.specs.Answers.{Answers};
ghost use Rattle.vf_sorting.specs.Schemes.{sort_of_type, used_parameters};
ghost use Rattle.vf_commands.specs.Calls as calls;

use std::alloc::Global;
use vf_base::{Memory, Place, Rule, RuleFault, Sequence, Text};
use vf_declared::ctype::CType;
use vf_declared::declaration::{GhostDeclaration, Meaning, Signature};
use vf_declared::scope::Scope;
use vf_sorting::names::sort_of_type;
use vf_sorting::refusal::refused;
use vf_sorts::SortList;

/// What a call takes: the sorts of its arguments, with so many type parameters for which each call has sorts of its own.
#[derive(Drop)]
pub struct Callee {
    pub parameters: usize,
    pub arguments: SortList,
}

/// The sorts of values of these types.
#[tactic(auto, using(crate::proofs::Calling::types_more, crate::proofs::Calling::types_all))]
fn sorts_of_types(alloc: Global, types: &Sequence<CType>) -> Result<SortList, Memory>
    ensures { IfOk result (λ ts. ts ≡ map sort_of_type types.now) }
{
    let mut sorts = SortList::new(alloc);
    for at in 0..types.len() {
        let Some(ctype) = types.get(at) else {
            return Ok(sorts);
        };
        sorts.push(sort_of_type(alloc, *ctype))?;
    }
    Ok(sorts)
}

/// What a function takes.
fn called_function(alloc: Global, signature: Option<&Signature>) -> Result<Callee, Memory>
    ensures { IfOk result (λ g. g ≡ calls.called_function (option_copied signature.entry)) }
{
    let arguments = match signature {
        Some(signature) => sorts_of_types(alloc, &signature.parameters)?,
        None => SortList::new(alloc),
    };
    Ok(Callee {
        parameters: 0,
        arguments,
    })
}

/// How many type parameters stand for unknown sorts where a lemma is called that has a number: none in its own text.
fn used_parameters(own: Option<usize>, number: usize, count: usize) -> usize
    ensures { result ≡ used_parameters own number count }
{
    match own {
        Some(own) => { if own == number { 0 } else { count } }
        None => count,
    }
}

/// What is declared by annotations takes that has a number, called at a place, if it is a lemma.
fn called_ghost(
    alloc: Global,
    own: Option<usize>,
    place: Place,
    number: usize,
    declaration: Option<&GhostDeclaration>,
) -> Result<Callee, RuleFault>
    ensures { Answers (λ g. calls.called_ghost own place number (option_copied declaration.entry) ≡ Ok g) (λ r. calls.called_ghost own place number (option_copied declaration.entry) ≡ Err r) result }
{
    match declaration {
        Some(GhostDeclaration::Lemma(lemma)) => {
            let parameters = used_parameters(own, number, lemma.parameters);
            let arguments = lemma.arguments.copy(alloc)?;
            Ok(Callee {
                parameters,
                arguments,
            })
        }
        _ => Err(refused(Rule::Typing, place)),
    }
}

/// What the call of a name at a place takes, in the text of something that has a number or none.
pub fn callee_of(
    alloc: Global,
    scope: &Scope,
    own: Option<usize>,
    place: Place,
    name: &Text,
) -> Result<Callee, RuleFault>
    ensures { Answers (λ g. calls.callee_of scope.now own place name.now ≡ Ok g) (λ r. calls.callee_of scope.now own place name.now ≡ Err r) result }
{
    match scope.declaration(name, place.file) {
        Some(Meaning::Function(number)) => {
            let callee = called_function(alloc, scope.signature(number))?;
            Ok(callee)
        }
        Some(Meaning::FunctionType(_)) => Err(refused(Rule::Typing, place)),
        Some(Meaning::Ghost(number)) => {
            let callee = called_ghost(alloc, own, place, number, scope.ghost_declaration(number))?;
            Ok(callee)
        }
        None => Err(refused(Rule::Name, place)),
    }
}
