//! Applications that are whole parts.

ghost use Rattle.std.specs.Prelude.{◌≡◌, ◌+◌, ◌<◌, ◌≤◌, ◌^◌, length, slice_get, true, IfOk};
ghost use Rattle.vf_sorts.specs.Unknowns.{IsBelow};
ghost use Rattle.vf_syntax.specs.Assertions.{are_value_patterns, is_value_pattern};
ghost use Rattle.vf_syntax.specs.GhostExprTree.{ghost_expr_list};
ghost use Rattle.vf_sorting.specs.Answers.{AreChecked, IsChecked, IsSorted};
ghost use Rattle.vf_sorting.specs.Kinds.{bool_sort};
ghost use Rattle.vf_sorting.specs.Scopes.{IsSchemeBelow};
ghost use Rattle.std.specs.Option.{option_copied};
ghost use Rattle.vf_binding.specs.Chunks.{application_of, is_known, is_plain, value_of, values_of};

use std::alloc::Global;
use vf_base::{Memory, Rule, RuleFault, Sequence};
use vf_declared::scope::Scope;
use vf_sorting::fresh::{equate, fresh, has_scheme};
use vf_sorting::kinds::bool_sort;
use vf_sorting::names::{application_scheme, names_predicate, tests_type};
use vf_sorting::refusal::refused;
use vf_sorting::{Context, Scheme, checked};
use vf_sorts::{Sort, Unknowns};
use vf_syntax::ghost_expr::GhostExpr;
use vf_syntax::pattern::{Pattern, Share};
use vf_syntax::written::Name;

/// Whether a name of file level is declared, or is `is_T` for a function type T.
pub fn is_known(alloc: Global, scope: &Scope, name: &Name) -> Result<bool, Memory>
    ensures { IfOk result (λ yes. yes ≡ is_known scope.now name.now) }
{
    if scope.declaration(&name.text, name.place.file).is_some() {
        return Ok(true);
    }
    tests_type(alloc, scope, &name.text, name.place.file)
}

/// Whether a pattern is an expression.
fn is_value(pattern: &Pattern) -> bool
    ensures { result ≡ is_value_pattern pattern.now }
{
    match pattern {
        Pattern::Is(_) => true,
        _ => false,
    }
}

/// Whether all patterns are expressions.
#[tactic(auto, using(crate::proofs::Lists::values_end, crate::proofs::Lists::values_stop, crate::proofs::Lists::values_on))]
fn are_values(patterns: &Sequence<Pattern>) -> bool
    ensures { result ≡ are_value_patterns patterns.now }
{
    for at in 0..patterns.len() {
        let Some(pattern) = patterns.get(at) else {
            return true;
        };
        if !is_value(pattern) {
            return false;
        }
    }
    true
}

/// Whether a chunk is an application: without a share, and with one pair of parentheses around expressions alone.
pub fn is_plain(
    share: &Option<Share>,
    first: &Sequence<Pattern>,
    second: &Option<Sequence<Pattern>>,
) -> bool
    ensures { result ≡ is_plain share.now first.now second.now }
{
    !share.is_some() && !second.is_some() && are_values(first)
}

/// The expression that a pattern is, if it is one.
fn value_of(pattern: &Pattern) -> Option<&GhostExpr>
    ensures { option_copied result ≡ value_of pattern.now }
{
    match pattern {
        Pattern::Is(value) => Some(value),
        _ => None,
    }
}

/// The expression at an index among patterns that are expressions.
#[tactic(auto, using(crate::proofs::Lists::value_there, crate::proofs::Lists::value_nowhere))]
fn value_at(patterns: &Sequence<Pattern>, at: usize) -> Option<&GhostExpr>
    requires { are_value_patterns patterns.now ≡ true }
    ensures { option_copied result ≡ slice_get (values_of patterns.now) at }
{
    match patterns.get(at) {
        Some(pattern) => value_of(pattern),
        None => None,
    }
}

/// Arguments for the parameters of a scheme, where unknown sorts from the first on stand for its type parameters.
#[tactic(auto, using(vf_sorting::proofs::Wholes::argument_below, crate::proofs::Lists::values_length))]
fn values_passed(
    alloc: Global,
    scope: &Scope,
    context: &Context,
    unknowns: &mut Unknowns,
    first: usize,
    scheme: &Scheme,
    patterns: &Sequence<Pattern>,
) -> Result<(), RuleFault>
    requires scheme { IsSchemeBelow first scheme.now }
    requires first { first + scheme.now.parameters ≤ length unknowns.old }
    requires fits { first + scheme.now.parameters < 2 ^ 64 }
    requires count { length scheme.now.arguments ≡ length patterns.now }
    requires values { are_value_patterns patterns.now ≡ true }
    ensures { AreChecked scope.now context.now unknowns.old first scheme.now.parameters scheme.now.arguments (ghost_expr_list (values_of patterns.now)) result unknowns.new }
{
    for at in 0..patterns.len() {
        let Some(parameter) = scheme.arguments.get(at) else {
            return Ok(());
        };
        let Some(argument) = value_at(patterns, at) else {
            return Ok(());
        };
        let wanted = unknowns.instance(first, scheme.parameters, parameter)?;
        checked(alloc, scope, context, unknowns, &wanted, argument)?;
    }
    Ok(())
}

/// The sort of a name in front of expressions.
#[tactic(auto, using(vf_sorting::proofs::Steps::sorted_memory, vf_sorting::proofs::Wholes::local_applied, vf_sorting::proofs::Wholes::scheme_fails, crate::proofs::Applied::count_fails, vf_sorting::proofs::Wholes::stray_application, crate::proofs::Applied::arguments_fail, vf_sorting::proofs::Wholes::applied_sorted, vf_sorting::proofs::Wholes::scheme_first, vf_sorting::proofs::Wholes::scheme_below))]
fn application_sorted(
    alloc: Global,
    scope: &Scope,
    context: &Context,
    unknowns: &mut Unknowns,
    name: &Name,
    patterns: &Sequence<Pattern>,
) -> Result<Sort, RuleFault>
    requires { are_value_patterns patterns.now ≡ true }
    ensures { IsSorted scope.now context.now unknowns.old (application_of name.now patterns.now) result unknowns.new }
{
    if names_predicate(alloc, scope, unknowns, &name.text)? {
        return Err(refused(Rule::Typing, name.place));
    }
    let scheme = application_scheme(alloc, scope, context.own, name.place, &name.text)?;
    if !has_scheme(unknowns, &scheme) {
        return Err(refused(Rule::Typing, name.place));
    }
    if scheme.arguments.len() != patterns.len() {
        return Err(refused(Rule::Typing, name.place));
    }
    let first = fresh(unknowns, scheme.parameters)?;
    values_passed(alloc, scope, context, unknowns, first, &scheme, patterns)?;
    let sort = unknowns.instance(first, scheme.parameters, &scheme.result)?;
    Ok(sort)
}

/// Whether a name in front of expressions is a truth value.
#[tactic(auto, using(crate::proofs::Applied::truth_fails, crate::proofs::Applied::truth_other, crate::proofs::Applied::truth_passes, vf_sorting::proofs::Steps::sorted_below, vf_sorting::proofs::Steps::bool_below))]
pub fn truth_checked(
    alloc: Global,
    scope: &Scope,
    context: &Context,
    unknowns: &mut Unknowns,
    name: &Name,
    patterns: &Sequence<Pattern>,
) -> Result<(), RuleFault>
    requires { are_value_patterns patterns.now ≡ true }
    ensures { IsChecked scope.now context.now unknowns.old bool_sort name.now.place (application_of name.now patterns.now) result unknowns.new }
{
    let sort = application_sorted(alloc, scope, context, unknowns, name, patterns)?;
    let wanted = bool_sort(alloc);
    equate(unknowns, &sort, &wanted, name.place)?;
    Ok(())
}
