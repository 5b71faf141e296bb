//! What stands in front of the cases of a fixpoint.

ghost use Rattle.std.specs.Prelude.{◌≡◌, [], is_some, Ok, Err};
ghost use Rattle.vf_asserting.specs.Cases.{case_number};
ghost use Rattle.vf_sorting.specs.Answers.{Answers};
ghost use Rattle.vf_equations.specs.Answers.{IsSwitch};
ghost use Rattle.vf_equations.specs.Switching.{are_constructors, switched_sort};

use std::alloc::Global;
use vf_asserting::cases::{case_number, datatype_in};
use vf_base::{Rule, RuleFault, Sequence};
use vf_declared::scope::Scope;
use vf_sorting::fresh::{equate, fresh};
use vf_sorting::kinds::datatype_sort;
use vf_sorting::names::{parameter_count, sort_of_local};
use vf_sorting::refusal::refused;
use vf_sorts::{Sort, Unknowns};
use vf_syntax::item::FixpointCase;
use vf_syntax::written::Name;

/// Whether a case is for a constructor of a datatype, with as many names as it has arguments.
fn is_constructor(scope: &Scope, datatype: usize, case: &FixpointCase) -> bool
    ensures { result ≡ is_some (case_number scope.now datatype case.now.pattern) }
{
    case_number(scope, datatype, &case.pattern).is_some()
}

/// Whether each case is for a constructor of a datatype, with as many names as it has arguments.
fn are_constructors(scope: &Scope, datatype: usize, cases: &[FixpointCase]) -> bool
    ensures { result ≡ are_constructors scope.now datatype cases.now }
{
    for case in cases {
        if !is_constructor(scope, datatype, case) {
            return false;
        }
    }
    true
}

/// The sort of what a fixpoint switches over.
fn switched_sort(alloc: Global, scope: &Scope, name: &Name) -> Result<Sort, RuleFault>
    ensures { Answers (λ t. switched_sort scope.now name.now ≡ Ok t) (λ r. switched_sort scope.now name.now ≡ Err r) result }
{
    match scope.local(&name.text) {
        Some(local) => {
            let sort = sort_of_local(alloc, local)?;
            Ok(sort)
        }
        None => match scope.declaration(&name.text, name.place.file) {
            Some(_) => Err(refused(Rule::Typing, name.place)),
            None => Err(refused(Rule::Name, name.place)),
        },
    }
}

/// Whether a fixpoint may switch over a name with these cases; gives how many unknown sorts, from 0 on, stand for type
/// parameters in the cases.
#[tactic(auto, using(vf_equations::proofs::Fronts::switch_memory, vf_equations::proofs::Fronts::switch_fails, vf_equations::proofs::Fronts::switch_stray, vf_equations::proofs::Fronts::switch_plain, vf_equations::proofs::Fronts::switch_other, vf_equations::proofs::Fronts::switch_apart, vf_equations::proofs::Fronts::switch_passes, vf_equations::proofs::Fronts::switch_left, vf_asserting::proofs::Steps::switch_right))]
pub(crate) fn switch_checked(
    alloc: Global,
    scope: &Scope,
    unknowns: &mut Unknowns,
    name: &Name,
    cases: &Sequence<FixpointCase>,
) -> Result<usize, RuleFault>
    requires { unknowns.old ≡ [] }
    ensures { IsSwitch scope.now name.now cases.now result unknowns.new }
{
    let sort = switched_sort(alloc, scope, name)?;
    if !unknowns.has(&sort) {
        return Err(refused(Rule::Typing, name.place));
    }
    let Some(datatype) = datatype_in(&sort) else {
        return Err(refused(Rule::Typing, name.place));
    };
    if !are_constructors(scope, datatype, cases.as_slice()) {
        return Err(refused(Rule::Typing, name.place));
    }
    let count = parameter_count(scope, datatype);
    let whole = datatype_sort(alloc, datatype, count)?;
    let first = fresh(unknowns, count)?;
    let wanted = unknowns.instance(first, count, &whole)?;
    equate(unknowns, &sort, &wanted, name.place)?;
    Ok(count)
}
