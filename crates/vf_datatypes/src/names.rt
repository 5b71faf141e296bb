//! Which names annotations may declare.

ghost use Rattle.std.specs.Prelude.{◌≡◌, [], Ok, Err};
ghost use Rattle.std.specs.Option.{option_copied};
ghost use Rattle.vf_declared.specs.Scopes.{at_name};
ghost use Rattle.vf_datatypes.specs.NewNames.{is_free, is_of_c, is_seen_c, name_refusal, names_c, parameter_refusal, parameters_behind};
ghost use Rattle.vf_sorting.specs.Answers.{Answers};
ghost use Rattle.vf_datatypes.specs.Walking.{Gives};

use crate::refusal::refused;
use std::alloc::Global;
use vf_base::{Refusal, Rule, RuleFault, Sequence, Text};
use vf_declared::declaration::{Declaration, Meaning};
use vf_declared::scope::Scope;
use vf_names::Names;
use vf_syntax::written::Name;

/// Whether a meaning is of what C text declares.
fn is_of_c(meaning: Meaning) -> bool
    ensures { result ≡ is_of_c meaning }
{
    match meaning {
        Meaning::Ghost(_) => false,
        _ => true,
    }
}

/// Whether a name is that of `free`, in a unit that has `<stdlib.h>`.
fn is_free(scope: &Scope, name: &[u8]) -> bool
    ensures { result ≡ is_free scope.now name.now }
{
    scope.has_stdlib && name == b"free".as_slice()
}

/// The declaration of a name, in a file that is seen or not.
fn declaration<'a>(scope: &'a Scope, name: &[u8]) -> Option<&'a Declaration>
    ensures { option_copied result ≡ at_name scope.now.names scope.now.declarations name.now }
{
    let number = scope.names.number(name)?;
    scope.declarations.get(number)
}

/// Whether a declaration of C is seen from a file.
fn is_seen_c(scope: &Scope, file: u32, declaration: Option<&Declaration>) -> bool
    ensures { result ≡ is_seen_c scope.now file (option_copied declaration.entry) }
{
    match declaration {
        Some(declaration) => {
            scope.is_visible(file, &declaration.files) && is_of_c(declaration.meaning)
        }
        None => false,
    }
}

/// Whether a name of file level is one of C that is seen from a file, or that of `free`.
pub fn names_c(scope: &Scope, name: &Text, file: u32) -> bool
    ensures { result ≡ names_c scope.now name.now file }
{
    is_free(scope, name.as_bytes()) || is_seen_c(scope, file, declaration(scope, name.as_bytes()))
}

/// Why annotations may not declare a name at file level, if they may not: it is one of C that is seen there (rule 7),
/// or it is declared already (rule 5).
pub fn name_refusal(scope: &Scope, name: &Name) -> Option<Refusal>
    ensures { result ≡ name_refusal scope.now name.now }
{
    if names_c(scope, &name.text, name.place.file) {
        return Some(refused(Rule::GhostInReal, name.place));
    }
    if scope.is_declared(name.text.as_bytes()) {
        return Some(refused(Rule::Name, name.place));
    }
    None
}

/// Why a name may not be a type parameter behind others, if it may not: it is one of them (rule 5), or one of C
/// (rule 7).
fn parameter_refusal(scope: &Scope, parameters: &Names, name: &Name) -> Option<Refusal>
    ensures { result ≡ parameter_refusal scope.now parameters.now name.now }
{
    if parameters.number(name.text.as_bytes()).is_some() {
        return Some(refused(Rule::Name, name.place));
    }
    if names_c(scope, &name.text, name.place.file) {
        return Some(refused(Rule::GhostInReal, name.place));
    }
    None
}

/// Puts type parameters behind others.
#[tactic(auto, using(crate::proofs::Loops::parameters_none, crate::proofs::Loops::parameters_end))]
fn add_parameters(
    scope: &Scope,
    written: &Sequence<Name>,
    parameters: &mut Names,
) -> Result<(), RuleFault>
    ensures { Gives result parameters.new (parameters_behind scope.now written.now parameters.old) }
{
    for at in 0..written.len() {
        let Some(name) = written.get(at) else {
            return Ok(());
        };
        if let Some(refusal) = parameter_refusal(scope, parameters, name) {
            return Err(RuleFault::Refused(refusal));
        }
        parameters.push(name.text.as_bytes())?;
    }
    Ok(())
}

/// The type parameters of a declaration, each of which is new (rules 5 and 7).
pub fn type_parameters(
    alloc: Global,
    scope: &Scope,
    written: &Sequence<Name>,
) -> Result<Names, RuleFault>
    ensures { Answers (λ ps. parameters_behind scope.now written.now [] ≡ Ok ps) (λ r. parameters_behind scope.now written.now [] ≡ Err r) result }
{
    let mut parameters = Names::new(alloc);
    add_parameters(scope, written, &mut parameters)?;
    Ok(parameters)
}
