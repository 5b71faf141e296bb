//! The sorts of a constructor's arguments.

ghost use Rattle.std.specs.Prelude.{◌≡◌, Ok, Err, drop};
ghost use Rattle.std.specs.Option.{option_copied};
ghost use Rattle.vf_names.specs.Names.{number_of};
ghost use Rattle.vf_sorts.specs.Sorts.{row};
ghost use Rattle.vf_declared.specs.Scopes.{at_name};
ghost use Rattle.vf_syntax.specs.SortTree.{sort_list};
ghost use Rattle.vf_sorting.specs.Answers.{Answers};
ghost use Rattle.vf_datatypes.specs.Arguments as arguments;

use crate::own::Own;
use crate::refusal::refused;
use crate::stated::Stated;
use std::alloc::Global;
use vf_base::{Place, Refusal, Rule, RuleFault, Sequence, Text};
use vf_declared::lookup::at_name;
use vf_declared::scope::Scope;
use vf_sorting::kinds::value_sort;
use vf_sorting::names::parameter_count;
use vf_sorting::written::{datatype_meant, form_sort};
use vf_sorts::{Head, Sort, SortList};
use vf_syntax::item::ConstructorArgument;
use vf_syntax::sort::{Sort as WrittenSort, SortList as WrittenSorts, SortNode};

/// Whether a datatype of this name stands anywhere in the unit, in a file that is seen from another.
fn is_stated(scope: &Scope, stated: &Stated, name: &Text, file: u32) -> bool
    ensures { result ≡ arguments.is_stated scope.now stated.now name.now file }
{
    match at_name(&stated.names, &stated.files, name) {
        Some(files) => scope.is_visible(file, files),
        None => false,
    }
}

/// The refusal of a name that is no datatype's so far.
fn unmet(scope: &Scope, stated: &Stated, own: &Own, place: Place, name: &Text) -> Refusal
    ensures { result ≡ arguments.unmet scope.now stated.now own.now place name.now }
{
    if !scope.is_declared(name.as_bytes()) && is_stated(scope, stated, name, place.file) {
        return refused(Rule::Inductive, own.place);
    }
    refused(Rule::Name, place)
}

/// Whether there are no parts.
#[tactic(auto, using(crate::proofs::Parameters::no_parts, crate::proofs::Parameters::some_parts))]
fn has_none(parts: &SortList) -> bool
    ensures { result ≡ arguments.has_none (row parts.now) }
{
    if parts.len() != 0 {
        return false;
    }
    true
}

/// Whether a sort is the type parameter with a number.
fn is_parameter(sort: &Sort, number: usize) -> bool
    ensures { result ≡ arguments.is_parameter number sort.now }
{
    match sort.head {
        Head::Parameter(found) => found == number && has_none(&sort.parts),
        _ => false,
    }
}

/// Whether sorts are the first type parameters, in order.
#[tactic(auto, using(crate::proofs::Parameters::parameters_here, crate::proofs::Parameters::parameters_stop, crate::proofs::Parameters::parameters_end))]
fn are_parameters(sorts: &SortList) -> bool
    ensures { result ≡ arguments.are_parameters 0 sorts.now }
{
    for at in 0..sorts.len() {
        let Some(sort) = sorts.get(at) else {
            return true;
        };
        if !is_parameter(sort, at) {
            return false;
        }
    }
    true
}

/// A datatype at a place over sorts.
fn datatype_at(
    scope: &Scope,
    own: &Own,
    place: Place,
    number: usize,
    sorts: SortList,
) -> Result<Sort, RuleFault>
    ensures { Answers (λ t. arguments.datatype_at scope.now own.now place number sorts ≡ Ok t) (λ r. arguments.datatype_at scope.now own.now place number sorts ≡ Err r) result }
{
    let is_own = number == own.number;
    if is_own && !(sorts.len() == own.parameters.len() && are_parameters(&sorts)) {
        return Err(RuleFault::Refused(refused(Rule::Typing, place)));
    }
    if !is_own && sorts.len() != parameter_count(scope, number) {
        return Err(RuleFault::Refused(refused(Rule::Typing, place)));
    }
    Ok(Sort::new(Head::Datatype(number), sorts))
}

/// The sort of a constructor's argument as it is written.
#[cycle(arguments)]
fn argument_sort(
    alloc: Global,
    scope: &Scope,
    stated: &Stated,
    own: &Own,
    written: &WrittenSort,
) -> Result<Sort, RuleFault>
    ensures { Answers (λ t. arguments.argument_sort scope.now stated.now own.now written.now ≡ Ok t) (λ r. arguments.argument_sort scope.now stated.now own.now written.now ≡ Err r) result }
{
    match &written.node {
        SortNode::Real => Ok(Sort::leaf(alloc, Head::Real)),
        SortNode::Any => Ok(value_sort(alloc)),
        SortNode::Type(ctype) => {
            let sort = form_sort(alloc, scope, ctype.place, &ctype.form)?;
            Ok(sort)
        }
        SortNode::Name(name, parts) => {
            let sort = named_sort(alloc, scope, stated, own, written.place, name, parts)?;
            Ok(sort)
        }
        SortNode::Predicate(parts) => {
            let sorts = argument_sorts(alloc, scope, stated, own, parts)?;
            Ok(Sort::new(Head::Predicate, sorts))
        }
    }
}

/// A name over sorts at a place.
#[cycle(arguments)]
#[tactic(auto, using(crate::proofs::Spelled::no_arguments, crate::proofs::Spelled::some_arguments))]
fn named_sort(
    alloc: Global,
    scope: &Scope,
    stated: &Stated,
    own: &Own,
    place: Place,
    name: &Text,
    parts: &WrittenSorts,
) -> Result<Sort, RuleFault>
    ensures { Answers (λ t. arguments.name_over scope.now stated.now own.now place name.now (number_of own.now.parameters name.now) (sort_list parts.now) (arguments.argument_sorts scope.now stated.now own.now (sort_list parts.now)) ≡ Ok t) (λ r. arguments.name_over scope.now stated.now own.now place name.now (number_of own.now.parameters name.now) (sort_list parts.now) (arguments.argument_sorts scope.now stated.now own.now (sort_list parts.now)) ≡ Err r) result }
{
    if let Some(number) = own.parameters.number(name.as_bytes()) {
        if parts.len() != 0 {
            return Err(RuleFault::Refused(refused(Rule::Typing, place)));
        }
        return Ok(Sort::leaf(alloc, Head::Parameter(number)));
    }
    let meaning = scope.declaration(name, place.file);
    let Some(datatype) = datatype_meant(scope, meaning) else {
        return Err(RuleFault::Refused(unmet(scope, stated, own, place, name)));
    };
    let sorts = argument_sorts(alloc, scope, stated, own, parts)?;
    let sort = datatype_at(scope, own, place, datatype, sorts)?;
    Ok(sort)
}

/// Sorts that are written one after the other.
#[cycle(arguments)]
#[tactic(auto, using(crate::proofs::Spelled::sort_smaller))]
fn argument_sorts(
    alloc: Global,
    scope: &Scope,
    stated: &Stated,
    own: &Own,
    written: &WrittenSorts,
) -> Result<SortList, RuleFault>
    ensures { Answers (λ ts. arguments.argument_sorts scope.now stated.now own.now (sort_list written.now) ≡ Ok ts) (λ r. arguments.argument_sorts scope.now stated.now own.now (sort_list written.now) ≡ Err r) result }
{
    let mut all = SortList::new(alloc);
    for at in 0..written.len() {
        let Some(one) = written.get(at) else {
            return Ok(all);
        };
        let sort = argument_sort(alloc, scope, stated, own, one)?;
        all.push(sort)?;
    }
    Ok(all)
}

/// The sorts of a constructor's arguments.
pub fn sorts_of(
    alloc: Global,
    scope: &Scope,
    stated: &Stated,
    own: &Own,
    written: &Sequence<ConstructorArgument>,
) -> Result<SortList, RuleFault>
    ensures { Answers (λ ts. arguments.sorts_of scope.now stated.now own.now written.now ≡ Ok ts) (λ r. arguments.sorts_of scope.now stated.now own.now written.now ≡ Err r) result }
{
    let mut all = SortList::new(alloc);
    for at in 0..written.len() {
        let Some(one) = written.get(at) else {
            return Ok(all);
        };
        let sort = argument_sort(alloc, scope, stated, own, &one.sort)?;
        all.push(sort)?;
    }
    Ok(all)
}
