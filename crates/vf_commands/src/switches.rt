//! What stands in front of the cases of a `switch`.

ghost use Rattle.std.specs.Prelude.{◌≡◌, IfOk};
ghost use Rattle.vf_syntax.specs.GhostCommandTree.{command_case_list};
ghost use Rattle.vf_sorting.specs.Operators.{place_of};
ghost use Rattle.vf_asserting.specs.Cases.{case_number};
ghost use Rattle.vf_commands.specs.Answers.{IsSwitch};
ghost use Rattle.vf_commands.specs.Switches.{are_cases, case_numbers, pattern_in};

use std::alloc::Global;
use vf_asserting::cases::{are_all, case_number, constructor_count, datatype_in};
use vf_asserting::switches::Switched;
use vf_base::{Memory, NumberList, Place, Rule, RuleFault};
use vf_declared::scope::Scope;
use vf_sorting::fresh::{equate, fresh};
use vf_sorting::kinds::datatype_sort;
use vf_sorting::names::parameter_count;
use vf_sorting::refusal::refused;
use vf_sorting::{Context, sorted};
use vf_sorts::Unknowns;
use vf_syntax::ghost_command::{CommandCase, CommandCaseList};
use vf_syntax::ghost_expr::GhostExpr;

/// The constructor of a datatype that a case is for.
fn number_in(scope: &Scope, datatype: usize, case: &CommandCase) -> Option<usize>
    ensures { result ≡ case_number scope.now datatype (pattern_in case.now) }
{
    case_number(scope, datatype, &case.pattern)
}

/// The constructors that cases are for, where each is for one of a datatype.
#[tactic(auto, using(vf_asserting::proofs::Lists::numbers_begin, crate::proofs::Switching::numbers_stop, crate::proofs::Switching::numbers_on, crate::proofs::Switching::numbers_end))]
fn case_numbers(
    alloc: Global,
    scope: &Scope,
    datatype: usize,
    list: &CommandCaseList,
) -> Result<Option<NumberList>, Memory>
    ensures { IfOk result (λ ns. ns ≡ case_numbers scope.now datatype (command_case_list list.now)) }
{
    let mut numbers = NumberList::new(alloc);
    for at in 0..list.len() {
        let Some(case) = list.get(at) else {
            return Ok(None);
        };
        let Some(number) = number_in(scope, datatype, case) else {
            return Ok(None);
        };
        numbers.push(number as u64)?;
    }
    Ok(Some(numbers))
}

/// Whether there is one case for each constructor of a datatype, and no other.
fn are_cases(
    alloc: Global,
    scope: &Scope,
    datatype: usize,
    list: &CommandCaseList,
) -> Result<bool, Memory>
    ensures { IfOk result (λ yes. yes ≡ are_cases scope.now datatype (command_case_list list.now)) }
{
    let numbers = case_numbers(alloc, scope, datatype, list)?;
    Ok(are_all(constructor_count(scope, datatype), &numbers))
}

/// The place of the first token of an expression.
#[tactic(auto, using(vf_sorting::proofs::Shapes::place_told))]
fn first_place(expr: &GhostExpr) -> Place
    ensures { result ≡ place_of expr.now }
{
    expr.place
}

/// Whether an expression may be switched over with these cases; gives the unknown sorts that stand for type parameters
/// in the cases.
#[tactic(auto, using(crate::proofs::Switching::switch_memory, crate::proofs::Switching::switch_fails, crate::proofs::Switching::switch_plain, crate::proofs::Switching::switch_other, crate::proofs::Switching::switch_apart, crate::proofs::Switching::switch_passes, vf_asserting::proofs::Steps::switch_left, vf_asserting::proofs::Steps::switch_right))]
pub fn switch_checked(
    alloc: Global,
    scope: &Scope,
    context: &Context,
    unknowns: &mut Unknowns,
    switched: &GhostExpr,
    cases: &CommandCaseList,
) -> Result<Switched, RuleFault>
    ensures { IsSwitch scope.now context.now unknowns.old switched.now (command_case_list cases.now) result unknowns.new }
{
    let place = first_place(switched);
    let sort = sorted(alloc, scope, context, unknowns, switched)?;
    let resolved = unknowns.resolve(&sort)?;
    let Some(datatype) = datatype_in(&resolved) else {
        return Err(refused(Rule::Typing, place));
    };
    if !are_cases(alloc, scope, datatype, cases)? {
        return Err(refused(Rule::Typing, place));
    }
    let count = parameter_count(scope, datatype);
    let whole = datatype_sort(alloc, datatype, count)?;
    let first = fresh(unknowns, count)?;
    let wanted = unknowns.instance(first, count, &whole)?;
    equate(unknowns, &sort, &wanted, place)?;
    Ok(Switched { first, count })
}
