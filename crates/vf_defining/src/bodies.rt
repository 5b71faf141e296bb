//! Cases of fixpoints as terms.

ghost use Rattle.std.specs.Prelude.{◌≡◌, ◌<◌, ◌^◌, length, map, IfOk, OnOk};
ghost use Rattle.vf_asserting.specs.Cases.{names_or_none};
ghost use Rattle.vf_syntax.specs.declared.written.Name as written;
ghost use Rattle.vf_defining.specs.Bodies.{behind_case, case_names, case_of, case_read, cases_of, identity_at, place_among};
ghost use Rattle.vf_defining.specs.Symbols.{without_locals};

use crate::symbols::value_read;
use std::alloc::Global;
use vf_asserting::cases::{case_arguments, instances};
use vf_base::{Memory, Sequence, Text};
use vf_binding::bound::{Bound, declare_names};
use vf_declared::scope::Scope;
use vf_definitions::{Case, CaseList};
use vf_names::Names;
use vf_sorting::Context;
use vf_sorts::{Sort, Unknowns};
use vf_syntax::item::FixpointCase;
use vf_syntax::pattern::CasePattern;
use vf_syntax::written::Name;
use vf_terms::Reading;
use vf_terms::named::{declaration_seen, identity};

/// The identity of what a name means where it stands.
pub(crate) fn identity_at(
    alloc: Global,
    scope: &Scope,
    paths: &[Text],
    name: &Name,
) -> Result<Text, Memory>
    ensures { IfOk result (λ t. t ≡ identity_at scope.now paths.now name.now) }
{
    match declaration_seen(scope, name.text.as_bytes(), name.place.file) {
        Some(declaration) => identity(alloc, paths, &declaration.files, name.text.as_bytes()),
        None => identity(alloc, paths, &Sequence::new(alloc), name.text.as_bytes()),
    }
}

/// The texts of names.
fn texts(alloc: Global, names: &Option<Sequence<Name>>) -> Result<Names, Memory>
    ensures { IfOk result (λ ns. ns ≡ map (λ (n : written.Name). n.text) (names_or_none names.now)) }
{
    let mut texts = Names::new(alloc);
    let Some(names) = names else {
        return Ok(texts);
    };
    for name in names.as_slice() {
        texts.push(name.text.as_bytes())?;
    }
    Ok(texts)
}

/// The names of a case with the sorts of its constructor's arguments.
fn case_names(
    alloc: Global,
    scope: &Scope,
    unknowns: &Unknowns,
    count: usize,
    pattern: &CasePattern,
) -> Result<Bound, Memory>
    ensures { IfOk result (λ b. b ≡ case_names scope.now count pattern.now) }
{
    let arguments = case_arguments(alloc, scope, pattern)?;
    let sorts = instances(alloc, unknowns, 0, count, &arguments)?;
    let names = texts(alloc, &pattern.names)?;
    Ok(Bound { names, sorts })
}

/// The value of a case, read. Its names are gone behind it.
fn case_read(
    alloc: Global,
    scope: &mut Scope,
    context: &Context,
    unknowns: &Unknowns,
    paths: &[Text],
    sort: &Sort,
    count: usize,
    next: usize,
    case: &FixpointCase,
) -> Result<Reading, Memory>
    ensures value { IfOk result (λ r. r ≡ case_read context.now unknowns.now paths.now sort.now count scope.old next case.now) }
    ensures scope { OnOk result (scope.new ≡ behind_case scope.old count case.now.pattern) }
{
    let before = scope.locals.names.len();
    let bound = case_names(alloc, scope, unknowns, count, &case.pattern)?;
    declare_names(alloc, scope, &bound)?;
    let reading = value_read(
        alloc,
        scope,
        context,
        unknowns,
        paths,
        sort,
        next,
        &case.value,
    )?;
    scope.locals.leave(before);
    Ok(reading)
}

/// How many names a case has.
fn name_count(pattern: &CasePattern) -> usize
    ensures { result ≡ length (names_or_none pattern.now.names) }
{
    match &pattern.names {
        Some(names) => names.len(),
        None => 0,
    }
}

/// Cases as terms, from the first to the last, which pass for a sort. Locals may be others behind them.
pub(crate) fn cases_read(
    alloc: Global,
    scope: &mut Scope,
    context: &Context,
    unknowns: &Unknowns,
    paths: &[Text],
    sort: &Sort,
    count: usize,
    cases: &Sequence<FixpointCase>,
) -> Result<CaseList, Memory>
    ensures value { IfOk result (λ l. l ≡ cases_of context.now unknowns.now paths.now sort.now count scope.old count cases.now) }
    ensures rest { OnOk result (without_locals scope.new ≡ without_locals scope.old) }
{
    let mut all = Sequence::new(alloc);
    let mut next = count;
    for at in 0..cases.len() {
        let Some(case) = cases.get(at) else {
            return Ok(all);
        };
        let constructor = identity_at(alloc, scope, paths, &case.pattern.constructor)?;
        let reading = case_read(
            alloc, scope, context, unknowns, paths, sort, count, next, case,
        )?;
        next = reading.next;
        all.push(Case {
            constructor,
            names: name_count(&case.pattern),
            result: reading.term,
        })?;
    }
    Ok(all)
}

/// The place of a name among the locals; where it is none, the first.
pub(crate) fn place_among(scope: &Scope, name: &Name) -> usize
    ensures { result ≡ place_among scope.now name.now }
{
    match scope.locals.names.number(name.text.as_bytes()) {
        Some(place) => place,
        None => 0,
    }
}
