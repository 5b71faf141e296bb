//! Cases of a `switch`.

ghost use Rattle.std.specs.Prelude.{◌≡◌, ◌+◌, ◌<◌, ◌^◌, length, map, IfOk};
ghost use Rattle.std.specs.Option.{option_copied};
ghost use Rattle.vf_declared.specs.Scopes.{datatype_of};
ghost use Rattle.vf_sorts.specs.Unknowns.{instance};
ghost use Rattle.vf_syntax.specs.AssertionTree.{assertion_case_list};
ghost use Rattle.vf_asserting.specs.Answers.{AreNamed, IsCaseBound};
ghost use Rattle.vf_asserting.specs.Cases as cases;

use crate::distinct::are_distinct;
use std::alloc::Global;
use vf_base::{Memory, NumberList, Place, Rule, RuleFault, Sequence};
use vf_binding::bound::{Bound, name_bound, no_names};
use vf_declared::declaration::{GhostDeclaration, Meaning};
use vf_declared::scope::Scope;
use vf_sorting::refusal::refused;
use vf_sorts::{Head, Sort, SortList, Unknowns};
use vf_syntax::assertion::{AssertionCase, AssertionCaseList};
use vf_syntax::pattern::CasePattern;
use vf_syntax::written::Name;

/// The datatype of values of a sort, by its number.
pub fn datatype_in(sort: &Sort) -> Option<usize>
    ensures { result ≡ cases.datatype_in sort.now }
{
    match sort.head {
        Head::Datatype(number) => Some(number),
        _ => None,
    }
}

/// The number of what a name of file level means, where annotations declare it.
fn ghost_number(meaning: Option<Meaning>) -> Option<usize>
    ensures { result ≡ cases.ghost_number meaning }
{
    match meaning {
        Some(Meaning::Ghost(number)) => Some(number),
        _ => None,
    }
}

/// How many names a case has.
fn name_count(names: &Option<Sequence<Name>>) -> usize
    ensures { result ≡ length (cases.names_or_none names.now) }
{
    match names {
        Some(names) => names.len(),
        None => 0,
    }
}

/// Whether a declaration is a constructor of a datatype with so many arguments.
fn takes(datatype: usize, count: usize, declaration: Option<&GhostDeclaration>) -> bool
    ensures { result ≡ cases.takes datatype count (option_copied declaration.entry) }
{
    match declaration {
        Some(GhostDeclaration::Constructor(constructor)) => {
            constructor.datatype == datatype && constructor.arguments.len() == count
        }
        _ => false,
    }
}

/// The constructor of a datatype that a case is for, by its number.
pub fn case_number(scope: &Scope, datatype: usize, pattern: &CasePattern) -> Option<usize>
    ensures { result ≡ cases.case_number scope.now datatype pattern.now }
{
    let count = name_count(&pattern.names);
    let meaning = scope.declaration(&pattern.constructor.text, pattern.constructor.place.file);
    let number = ghost_number(meaning)?;
    if takes(datatype, count, scope.ghost_declaration(number)) {
        Some(number)
    } else {
        None
    }
}

/// The constructor of a datatype that a case is for.
fn number_in(scope: &Scope, datatype: usize, case: &AssertionCase) -> Option<usize>
    ensures { result ≡ cases.case_number scope.now datatype (cases.pattern_in case.now) }
{
    case_number(scope, datatype, &case.pattern)
}

/// The constructors that cases are for, where each is for one of a datatype.
#[tactic(auto, using(crate::proofs::Lists::numbers_begin, crate::proofs::Lists::numbers_stop, crate::proofs::Lists::numbers_on, crate::proofs::Lists::numbers_end))]
fn case_numbers(
    alloc: Global,
    scope: &Scope,
    datatype: usize,
    list: &AssertionCaseList,
) -> Result<Option<NumberList>, Memory>
    ensures { IfOk result (λ ns. ns ≡ cases.case_numbers scope.now datatype (assertion_case_list list.now)) }
{
    let mut numbers = NumberList::new(alloc);
    for at in 0..list.len() {
        let Some(case) = list.get(at) else {
            return Ok(None);
        };
        let Some(number) = number_in(scope, datatype, case) else {
            return Ok(None);
        };
        numbers.push(number as u64)?;
    }
    Ok(Some(numbers))
}

/// How many constructors a datatype has.
pub fn constructor_count(scope: &Scope, datatype: usize) -> usize
    ensures { result ≡ cases.constructor_count (datatype_of scope.now datatype) }
{
    match scope.datatype(datatype) {
        Some(datatype) => datatype.constructors.len(),
        None => 0,
    }
}

/// Whether there are so many numbers, none of them twice.
pub fn are_all(count: usize, numbers: &Option<NumberList>) -> bool
    ensures { result ≡ cases.are_all count numbers.now }
{
    match numbers {
        Some(numbers) => numbers.len() == count && are_distinct(numbers),
        None => false,
    }
}

/// Whether there is one case for each constructor of a datatype, and no other.
pub fn are_cases(
    alloc: Global,
    scope: &Scope,
    datatype: usize,
    list: &AssertionCaseList,
) -> Result<bool, Memory>
    ensures { IfOk result (λ yes. yes ≡ cases.are_cases scope.now datatype (assertion_case_list list.now)) }
{
    let numbers = case_numbers(alloc, scope, datatype, list)?;
    Ok(are_all(constructor_count(scope, datatype), &numbers))
}

/// What a declaration takes, if it is a constructor.
fn arguments_in(alloc: Global, declaration: Option<&GhostDeclaration>) -> Result<SortList, Memory>
    ensures { IfOk result (λ ts. ts ≡ cases.arguments_in (option_copied declaration.entry)) }
{
    match declaration {
        Some(GhostDeclaration::Constructor(constructor)) => constructor.arguments.copy(alloc),
        _ => Ok(SortList::new(alloc)),
    }
}

/// The sorts of the arguments of the constructor that a case names.
pub fn case_arguments(
    alloc: Global,
    scope: &Scope,
    pattern: &CasePattern,
) -> Result<SortList, Memory>
    ensures { IfOk result (λ ts. ts ≡ cases.case_arguments scope.now pattern.now) }
{
    let meaning = scope.declaration(&pattern.constructor.text, pattern.constructor.place.file);
    match ghost_number(meaning) {
        Some(number) => arguments_in(alloc, scope.ghost_declaration(number)),
        None => Ok(SortList::new(alloc)),
    }
}

/// Sorts at unknown sorts, from the first on, that stand for so many type parameters.
#[tactic(auto, using(crate::proofs::Lists::instances_on, crate::proofs::Lists::instances_end))]
pub fn instances(
    alloc: Global,
    unknowns: &Unknowns,
    first: usize,
    count: usize,
    sorts: &SortList,
) -> Result<SortList, Memory>
    requires { first + count < 2 ^ 64 }
    ensures { IfOk result (λ ts. ts ≡ map (instance first count) sorts.now) }
{
    let mut all = SortList::new(alloc);
    for at in 0..sorts.len() {
        let Some(sort) = sorts.get(at) else {
            return Ok(all);
        };
        let sort = unknowns.instance(first, count, sort)?;
        all.push(sort)?;
    }
    Ok(all)
}

/// Binds names at these sorts, one for each, from left to right.
pub fn names_bound(
    alloc: Global,
    scope: &Scope,
    bound: &mut Bound,
    names: &Sequence<Name>,
    sorts: &SortList,
) -> Result<(), RuleFault>
    requires { length names.now ≡ length sorts.now }
    ensures { AreNamed scope.now bound.old names.now sorts.now result bound.new }
{
    for at in 0..names.len() {
        let Some(name) = names.get(at) else {
            return Ok(());
        };
        let Some(sort) = sorts.get(at) else {
            return Ok(());
        };
        name_bound(alloc, scope, bound, name, sort)?;
    }
    Ok(())
}

/// The names of a case whose constructor stands at a place, bound at these sorts.
#[tactic(auto, using(crate::proofs::Steps::case_memory, crate::proofs::Steps::case_nameless_other, crate::proofs::Steps::case_nameless, crate::proofs::Steps::case_other, crate::proofs::Steps::case_fails, crate::proofs::Steps::case_binds))]
pub fn case_bound(
    alloc: Global,
    scope: &Scope,
    names: &Option<Sequence<Name>>,
    sorts: &SortList,
    place: Place,
) -> Result<Bound, RuleFault>
    ensures { IsCaseBound scope.now (cases.names_or_none names.now) sorts.now place result }
{
    let mut bound = no_names(alloc);
    let Some(names) = names else {
        if sorts.len() != 0 {
            return Err(refused(Rule::Typing, place));
        }
        return Ok(bound);
    };
    if names.len() != sorts.len() {
        return Err(refused(Rule::Typing, place));
    }
    names_bound(alloc, scope, &mut bound, names, sorts)?;
    Ok(bound)
}
