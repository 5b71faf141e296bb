//! Cases of a `switch`: their constructors and names.

ghost use Rattle.std.specs.Prelude.{◌≡◌, ◌+◌, ◌<◌, ◌^◌, IfOk, map};
ghost use Rattle.vf_declared.specs.Scopes.{declaration_of};
ghost use Rattle.vf_syntax.specs.declared.written.Name as written;
ghost use Rattle.vf_asserting.specs.Cases as cases;
ghost use Rattle.vf_asserting.specs.Cases.{names_or_none};
ghost use Rattle.vf_resolving.specs.Cases.{case_names, constructor_identity, constructor_place, place_among, switched};

use std::alloc::Global;
use vf_asserting::cases::{case_arguments, datatype_in, instances};
use vf_base::{Memory, NumberList, Sequence, Text};
use vf_binding::bound::Bound;
use vf_declared::declaration::Meaning;
use vf_declared::scope::Scope;
use vf_names::Names;
use vf_sorting::names::parameter_count;
use vf_sorts::Unknowns;
use vf_syntax::pattern::CasePattern;
use vf_syntax::written::Name;
use vf_terms::Reading;
use vf_terms::named::{declaration_seen, identity};

/// What is switched over: the number of its datatype, and the unknown sorts that stand for type parameters in the
/// cases, so many from the first on.
#[derive(Clone, Copy)]
pub struct Switched {
    pub datatype: Option<usize>,
    pub first: usize,
    pub count: usize,
}

/// What is switched over where a value is.
pub fn switch_over(scope: &Scope, reading: &Reading) -> Switched
    ensures { result ≡ switched scope.now reading.now }
{
    let datatype = datatype_in(&reading.sort);
    let count = match datatype {
        Some(datatype) => parameter_count(scope, datatype),
        None => 0,
    };
    Switched {
        datatype,
        first: reading.next,
        count,
    }
}

/// The identity of the constructor that a case names.
pub fn constructor_identity(
    alloc: Global,
    scope: &Scope,
    paths: &[Text],
    name: &Name,
) -> Result<Text, Memory>
    ensures { IfOk result (λ i. i ≡ constructor_identity scope.now paths.now name.now) }
{
    match declaration_seen(scope, name.text.as_bytes(), name.place.file) {
        Some(declaration) => identity(alloc, paths, &declaration.files, name.text.as_bytes()),
        None => identity(alloc, paths, &Sequence::new(alloc), name.text.as_bytes()),
    }
}

/// The place of a number among others; behind them, where it is none of them.
#[tactic(auto, using(crate::proofs::Lists::place_here, crate::proofs::Lists::place_on))]
fn place_among(numbers: &NumberList, number: usize) -> usize
    ensures { result ≡ place_among numbers.now number }
{
    for at in 0..numbers.len() {
        let Some(one) = numbers.get(at) else {
            return at;
        };
        if *one == number as u64 {
            return at;
        }
    }
    numbers.len()
}

/// The number of what a name of file level means, where annotations declare it.
fn ghost_number(meaning: Option<Meaning>) -> Option<usize>
    ensures { result ≡ cases.ghost_number meaning }
{
    match meaning {
        Some(Meaning::Ghost(number)) => Some(number),
        _ => None,
    }
}

/// The place of the constructor that a case names among those of the datatype.
pub fn constructor_place(scope: &Scope, datatype: Option<usize>, name: &Name) -> usize
    ensures { result ≡ constructor_place scope.now datatype name.now }
{
    let Some(number) = ghost_number(scope.declaration(&name.text, name.place.file)) else {
        return 0;
    };
    let Some(datatype) = datatype else {
        return 0;
    };
    match scope.datatype(datatype) {
        Some(datatype) => place_among(&datatype.constructors, number),
        None => 0,
    }
}

/// The texts of names.
fn texts(alloc: Global, names: &Option<Sequence<Name>>) -> Result<Names, Memory>
    ensures { IfOk result (λ ns. ns ≡ map (λ (n : written.Name). n.text) (names_or_none names.now)) }
{
    let mut texts = Names::new(alloc);
    let Some(names) = names else {
        return Ok(texts);
    };
    for name in names.as_slice() {
        texts.push(name.text.as_bytes())?;
    }
    Ok(texts)
}

/// The names of a case with the sorts of its constructor's arguments.
pub fn case_names(
    alloc: Global,
    scope: &Scope,
    unknowns: &Unknowns,
    switched: Switched,
    pattern: &CasePattern,
) -> Result<Bound, Memory>
    requires { switched.first + switched.count < 2 ^ 64 }
    ensures { IfOk result (λ b. b ≡ case_names scope.now switched pattern.now) }
{
    let arguments = case_arguments(alloc, scope, pattern)?;
    let sorts = instances(alloc, unknowns, switched.first, switched.count, &arguments)?;
    let names = texts(alloc, &pattern.names)?;
    Ok(Bound { names, sorts })
}
