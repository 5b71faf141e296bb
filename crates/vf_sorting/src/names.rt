//! What names mean in ghost text.

ghost use Rattle.std.specs.Prelude.{◌≡◌, Ok, Err, IfOk};
ghost use Rattle.std.specs.Option.{option_copied};
ghost use Rattle.vf_declared.specs.Scopes.{datatype_of, declaration_of, ghost_of};
ghost use Rattle.vf_sorting.specs.Schemes as schemes;
ghost use Rattle.vf_sorting.specs.Answers.{Answers};

use crate::kinds::{
    bool_sort, datatype_sort, int_sort, is_predicate, pointer_sort, predicate_sort,
};
use crate::refusal::refused;
use crate::scheme::Scheme;
use std::alloc::Global;
use vf_base::{IntType, Memory, Place, Rule, RuleFault, Text};
use vf_declared::ctype::CType;
use vf_declared::declaration::{Constructor, GhostDeclaration, Meaning};
use vf_declared::locals::Local;
use vf_declared::scope::Scope;
use vf_sorts::{Head, Sort, SortList, Unknowns};

/// The sort of a type of C.
pub fn sort_of_type(alloc: Global, ctype: CType) -> Sort
    ensures { result ≡ schemes.sort_of_type ctype }
{
    match ctype {
        CType::Integer(IntType::Bool) => bool_sort(alloc),
        CType::Integer(_) => int_sort(alloc),
        CType::StructPointer(number) => Sort::leaf(alloc, Head::Pointer(Some(number))),
        _ => pointer_sort(alloc),
    }
}

/// The sort of a local.
pub fn sort_of_local(alloc: Global, local: &Local) -> Result<Sort, Memory>
    ensures { IfOk result (λ t. t ≡ schemes.sort_of_local local.now) }
{
    match local {
        Local::Real(ctype) => Ok(sort_of_type(alloc, *ctype)),
        Local::Ghost(named) => named.sort.copy(alloc),
    }
}

/// What is used at one sort, and is applied to nothing.
fn at_sort(alloc: Global, sort: Sort) -> Scheme
    ensures { result ≡ schemes.at_sort sort }
{
    Scheme {
        parameters: 0,
        arguments: SortList::new(alloc),
        result: sort,
    }
}

/// How many type parameters a datatype has.
pub fn parameter_count(scope: &Scope, datatype: usize) -> usize
    ensures { result ≡ schemes.count_in (datatype_of scope.now datatype) }
{
    match scope.datatype(datatype) {
        Some(datatype) => datatype.parameters,
        None => 0,
    }
}

/// The constructor of a datatype.
fn constructor_scheme(
    alloc: Global,
    scope: &Scope,
    constructor: &Constructor,
) -> Result<Scheme, Memory>
    ensures { IfOk result (λ g. g ≡ schemes.constructor_scheme scope.now constructor.now) }
{
    let parameters = parameter_count(scope, constructor.datatype);
    let arguments = constructor.arguments.copy(alloc)?;
    let result = datatype_sort(alloc, constructor.datatype, parameters)?;
    Ok(Scheme {
        parameters,
        arguments,
        result,
    })
}

/// What annotations declare as a value at a place.
fn ghost_scheme(
    alloc: Global,
    scope: &Scope,
    place: Place,
    declaration: Option<&GhostDeclaration>,
) -> Result<Scheme, RuleFault>
    ensures { Answers (λ g. schemes.ghost_scheme scope.now place (option_copied declaration.entry) ≡ Ok g) (λ r. schemes.ghost_scheme scope.now place (option_copied declaration.entry) ≡ Err r) result }
{
    match declaration {
        Some(GhostDeclaration::Constructor(constructor)) => {
            if constructor.arguments.len() != 0 {
                return Err(refused(Rule::Typing, place));
            }
            let scheme = constructor_scheme(alloc, scope, constructor)?;
            Ok(scheme)
        }
        Some(GhostDeclaration::Predicate(arguments)) => {
            let sort = predicate_sort(alloc, arguments)?;
            Ok(at_sort(alloc, sort))
        }
        _ => Err(refused(Rule::Typing, place)),
    }
}

/// What a name of file level means as a value at a place.
fn declared_scheme(
    alloc: Global,
    scope: &Scope,
    place: Place,
    name: &Text,
) -> Result<Scheme, RuleFault>
    ensures { Answers (λ g. schemes.declared_scheme scope.now place name.now (declaration_of scope.now name.now place.file) ≡ Ok g) (λ r. schemes.declared_scheme scope.now place name.now (declaration_of scope.now name.now place.file) ≡ Err r) result }
{
    match scope.declaration(name, place.file) {
        Some(Meaning::Function(_)) => Ok(at_sort(alloc, pointer_sort(alloc))),
        Some(Meaning::FunctionType(_)) => Err(refused(Rule::Typing, place)),
        Some(Meaning::Ghost(number)) => {
            let scheme = ghost_scheme(alloc, scope, place, scope.ghost_declaration(number))?;
            Ok(scheme)
        }
        None => match scope.later_predicate(name, place.file) {
            Some(arguments) => {
                let sort = predicate_sort(alloc, arguments)?;
                Ok(at_sort(alloc, sort))
            }
            None => Err(refused(Rule::Name, place)),
        },
    }
}

/// What a name is as a value at a place.
pub fn name_scheme(
    alloc: Global,
    scope: &Scope,
    place: Place,
    name: &Text,
) -> Result<Scheme, RuleFault>
    ensures { Answers (λ g. schemes.name_scheme scope.now place name.now ≡ Ok g) (λ r. schemes.name_scheme scope.now place name.now ≡ Err r) result }
{
    match scope.local(name) {
        Some(local) => {
            let sort = sort_of_local(alloc, local)?;
            Ok(at_sort(alloc, sort))
        }
        None => {
            let scheme = declared_scheme(alloc, scope, place, name)?;
            Ok(scheme)
        }
    }
}

/// How many type parameters stand for unknown sorts where something is used that has a number.
fn used_parameters(own: Option<usize>, number: usize, count: usize) -> usize
    ensures { result ≡ schemes.used_parameters own number count }
{
    match own {
        Some(own) => { if own == number { 0 } else { count } }
        None => count,
    }
}

/// What annotations declare by a number, applied at a place.
fn applied_ghost(
    alloc: Global,
    scope: &Scope,
    own: Option<usize>,
    place: Place,
    number: usize,
) -> Result<Scheme, RuleFault>
    ensures { Answers (λ g. schemes.applied_ghost scope.now own place number (ghost_of scope.now number) ≡ Ok g) (λ r. schemes.applied_ghost scope.now own place number (ghost_of scope.now number) ≡ Err r) result }
{
    match scope.ghost_declaration(number) {
        Some(GhostDeclaration::Constructor(constructor)) => {
            let scheme = constructor_scheme(alloc, scope, constructor)?;
            Ok(scheme)
        }
        Some(GhostDeclaration::Fixpoint(fixpoint)) => {
            let parameters = used_parameters(own, number, fixpoint.parameters);
            let arguments = fixpoint.arguments.copy(alloc)?;
            let result = fixpoint.result.copy(alloc)?;
            Ok(Scheme {
                parameters,
                arguments,
                result,
            })
        }
        Some(GhostDeclaration::PredicateConstructor(constructor)) => {
            let arguments = constructor.first.copy(alloc)?;
            let result = predicate_sort(alloc, &constructor.second)?;
            Ok(Scheme {
                parameters: 0,
                arguments,
                result,
            })
        }
        _ => Err(refused(Rule::Typing, place)),
    }
}

/// Whether a name of file level is that of a function type.
pub fn is_function_type(meaning: Option<Meaning>) -> bool
    ensures { result ≡ schemes.is_function_type meaning }
{
    match meaning {
        Some(Meaning::FunctionType(_)) => true,
        _ => false,
    }
}

/// Whether a name is `is_T` for a function type T that is seen from a file.
pub fn tests_type(alloc: Global, scope: &Scope, name: &Text, file: u32) -> Result<bool, Memory>
    ensures { IfOk result (λ yes. yes ≡ schemes.tests_type scope.now name.now file) }
{
    let bytes = name.as_bytes();
    if !bytes.starts_with(b"is_") {
        return Ok(false);
    }
    let tested = Text::from_bytes(alloc, &bytes[3..])?;
    Ok(is_function_type(scope.declaration(&tested, file)))
}

/// `is_T`, which is applied to a pointer.
fn test_scheme(alloc: Global) -> Result<Scheme, Memory>
    ensures { IfOk result (λ g. g ≡ schemes.test_scheme) }
{
    let mut arguments = SortList::new(alloc);
    arguments.push(pointer_sort(alloc))?;
    Ok(Scheme {
        parameters: 0,
        arguments,
        result: bool_sort(alloc),
    })
}

/// A name that is not declared, applied at a place.
fn applied_test(
    alloc: Global,
    scope: &Scope,
    place: Place,
    name: &Text,
) -> Result<Scheme, RuleFault>
    ensures { Answers (λ g. schemes.applied_test scope.now place name.now ≡ Ok g) (λ r. schemes.applied_test scope.now place name.now ≡ Err r) result }
{
    if tests_type(alloc, scope, name, place.file)? {
        let scheme = test_scheme(alloc)?;
        return Ok(scheme);
    }
    if scope.is_later_predicate(name, place.file) {
        return Err(refused(Rule::Typing, place));
    }
    Err(refused(Rule::Name, place))
}

/// What a name in front of arguments is, in the text of something that has a number or none.
pub fn application_scheme(
    alloc: Global,
    scope: &Scope,
    own: Option<usize>,
    place: Place,
    name: &Text,
) -> Result<Scheme, RuleFault>
    ensures { Answers (λ g. schemes.application_scheme scope.now own place name.now ≡ Ok g) (λ r. schemes.application_scheme scope.now own place name.now ≡ Err r) result }
{
    match scope.declaration(name, place.file) {
        Some(Meaning::Ghost(number)) => {
            let scheme = applied_ghost(alloc, scope, own, place, number)?;
            Ok(scheme)
        }
        Some(_) => Err(refused(Rule::Typing, place)),
        None => {
            let scheme = applied_test(alloc, scope, place, name)?;
            Ok(scheme)
        }
    }
}

/// Whether a name in front of arguments is that of a local with a predicate sort.
pub fn names_predicate(
    alloc: Global,
    scope: &Scope,
    unknowns: &Unknowns,
    name: &Text,
) -> Result<bool, Memory>
    ensures { IfOk result (λ yes. yes ≡ schemes.names_predicate scope.now unknowns.now name.now) }
{
    let Some(local) = scope.local(name) else {
        return Ok(false);
    };
    let sort = sort_of_local(alloc, local)?;
    let resolved = unknowns.resolve(&sort)?;
    Ok(is_predicate(&resolved))
}
