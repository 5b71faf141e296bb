//! Sorts as they are written.

ghost use Rattle.std.specs.Prelude.{◌≡◌, Ok, Err, length};
ghost use Rattle.vf_names.specs.Names.{number_of};
ghost use Rattle.vf_declared.specs.Scopes.{datatype_of};
ghost use Rattle.vf_syntax.specs.SortTree.{sort_list};
ghost use Rattle.vf_sorting.specs.Answers.{Answers};
ghost use Rattle.vf_sorting.specs.Schemes.{count_in};
ghost use Rattle.vf_sorting.specs.Spelling as spelled;

use crate::kinds::{bool_sort, int_sort, pointer_sort, value_sort};
use crate::names::{is_function_type, parameter_count};
use crate::refusal::refused;
use std::alloc::Global;
use vf_base::{Place, Rule, RuleFault, Text};
use vf_declared::declaration::{GhostDeclaration, Meaning};
use vf_declared::scope::Scope;
use vf_names::Names;
use vf_sorts::{Head, Sort, SortList};
use vf_syntax::sort::{Sort as WrittenSort, SortList as WrittenSorts, SortNode};
use vf_syntax::written::TypeForm;

/// The sort of a type of C that is written at a place.
pub fn form_sort(
    alloc: Global,
    scope: &Scope,
    place: Place,
    form: &TypeForm,
) -> Result<Sort, RuleFault>
    ensures { Answers (λ t. spelled.form_sort scope.now place form.now ≡ Ok t) (λ r. spelled.form_sort scope.now place form.now ≡ Err r) result }
{
    match form {
        TypeForm::Integer(_) => Ok(int_sort(alloc)),
        TypeForm::Bool => Ok(bool_sort(alloc)),
        TypeForm::VoidPointer => Ok(pointer_sort(alloc)),
        TypeForm::IntPointer => Ok(pointer_sort(alloc)),
        TypeForm::StructPointer(tag) => match scope.tag(&tag.text, tag.place.file) {
            Some(number) => Ok(Sort::leaf(alloc, Head::Pointer(Some(number)))),
            None => Err(refused(Rule::Name, tag.place)),
        },
        TypeForm::NamedPointer(name) => {
            if !is_function_type(scope.declaration(name, place.file)) {
                return Err(refused(Rule::Name, place));
            }
            Ok(pointer_sort(alloc))
        }
    }
}

/// The number of the datatype that a name of file level means, where it means one.
pub fn datatype_meant(scope: &Scope, meaning: Option<Meaning>) -> Option<usize>
    ensures { result ≡ spelled.datatype_meant scope.now meaning }
{
    match meaning {
        Some(Meaning::Ghost(number)) => match scope.ghost_declaration(number) {
            Some(GhostDeclaration::Datatype(datatype)) => Some(*datatype),
            _ => None,
        },
        _ => None,
    }
}

/// A datatype at a place over sorts.
fn applied_datatype(
    scope: &Scope,
    place: Place,
    datatype: usize,
    arguments: SortList,
) -> Result<Sort, RuleFault>
    ensures { Answers (λ t. spelled.applied_datatype place datatype (count_in (datatype_of scope.now datatype)) arguments ≡ Ok t) (λ r. spelled.applied_datatype place datatype (count_in (datatype_of scope.now datatype)) arguments ≡ Err r) result }
{
    if arguments.len() != parameter_count(scope, datatype) {
        return Err(refused(Rule::Typing, place));
    }
    Ok(Sort::new(Head::Datatype(datatype), arguments))
}

/// The sort that is written in the text of a declaration with these type parameters, or its first refusal.
#[cycle(written)]
pub fn written_sort(
    alloc: Global,
    scope: &Scope,
    parameters: &Names,
    written: &WrittenSort,
) -> Result<Sort, RuleFault>
    ensures { Answers (λ t. spelled.written_sort scope.now parameters.now written.now ≡ Ok t) (λ r. spelled.written_sort scope.now parameters.now written.now ≡ Err r) result }
{
    match &written.node {
        SortNode::Real => Ok(Sort::leaf(alloc, Head::Real)),
        SortNode::Any => Ok(value_sort(alloc)),
        SortNode::Type(ctype) => {
            let sort = form_sort(alloc, scope, ctype.place, &ctype.form)?;
            Ok(sort)
        }
        SortNode::Name(name, arguments) => {
            let sort = named_sort(alloc, scope, parameters, written.place, name, arguments)?;
            Ok(sort)
        }
        SortNode::Predicate(arguments) => {
            let sorts = written_sorts(alloc, scope, parameters, arguments)?;
            Ok(Sort::new(Head::Predicate, sorts))
        }
    }
}

/// A name over arguments at a place.
#[cycle(written)]
#[tactic(auto, using(crate::proofs::Spelled::no_arguments, crate::proofs::Spelled::some_arguments))]
fn named_sort(
    alloc: Global,
    scope: &Scope,
    parameters: &Names,
    place: Place,
    name: &Text,
    arguments: &WrittenSorts,
) -> Result<Sort, RuleFault>
    ensures { Answers (λ t. spelled.name_over scope.now place name.now (number_of parameters.now name.now) (sort_list arguments.now) (spelled.written_sorts scope.now parameters.now (sort_list arguments.now)) ≡ Ok t) (λ r. spelled.name_over scope.now place name.now (number_of parameters.now name.now) (sort_list arguments.now) (spelled.written_sorts scope.now parameters.now (sort_list arguments.now)) ≡ Err r) result }
{
    if let Some(number) = parameters.number(name.as_bytes()) {
        if arguments.len() != 0 {
            return Err(refused(Rule::Typing, place));
        }
        return Ok(Sort::leaf(alloc, Head::Parameter(number)));
    }
    let meaning = scope.declaration(name, place.file);
    let Some(datatype) = datatype_meant(scope, meaning) else {
        return Err(refused(Rule::Name, place));
    };
    let sorts = written_sorts(alloc, scope, parameters, arguments)?;
    let sort = applied_datatype(scope, place, datatype, sorts)?;
    Ok(sort)
}

/// Sorts that are written one after the other.
#[cycle(written)]
#[tactic(auto, using(crate::proofs::Spelled::sort_smaller))]
fn written_sorts(
    alloc: Global,
    scope: &Scope,
    parameters: &Names,
    written: &WrittenSorts,
) -> Result<SortList, RuleFault>
    ensures { Answers (λ ts. spelled.written_sorts scope.now parameters.now (sort_list written.now) ≡ Ok ts) (λ r. spelled.written_sorts scope.now parameters.now (sort_list written.now) ≡ Err r) result }
{
    let mut all = SortList::new(alloc);
    for at in 0..written.len() {
        let Some(one) = written.get(at) else {
            return Ok(all);
        };
        let sort = written_sort(alloc, scope, parameters, one)?;
        all.push(sort)?;
    }
    Ok(all)
}
