//! What stands in front of the cases of a `switch`.

ghost use Rattle.std.specs.Prelude.{◌≡◌, IfOk};
ghost use Rattle.vf_syntax.specs.AssertionTree.{assertion_case_list};
ghost use Rattle.vf_sorting.specs.Operators.{place_of};
ghost use Rattle.vf_asserting.specs.Answers.{IsSwitch};

use crate::cases::{are_cases, datatype_in};
use std::alloc::Global;
use vf_base::{Place, Rule, RuleFault};
use vf_declared::scope::Scope;
use vf_sorting::fresh::{equate, fresh};
use vf_sorting::kinds::datatype_sort;
use vf_sorting::names::parameter_count;
use vf_sorting::refusal::refused;
use vf_sorting::{Context, sorted};
use vf_sorts::Unknowns;
use vf_syntax::assertion::AssertionCaseList;
use vf_syntax::ghost_expr::GhostExpr;

/// Which unknown sorts stand for the type parameters of a datatype in cases: so many from the first on.
#[derive(Drop)]
pub struct Switched {
    pub first: usize,
    pub count: usize,
}

/// The place of the first token of an expression.
#[tactic(auto, using(vf_sorting::proofs::Shapes::place_told))]
fn first_place(expr: &GhostExpr) -> Place
    ensures { result ≡ place_of expr.now }
{
    expr.place
}

/// Whether an expression may be switched over with these cases; gives the unknown sorts that stand for type parameters
/// in the cases.
#[tactic(auto, using(crate::proofs::Steps::switch_memory, crate::proofs::Steps::switch_fails, crate::proofs::Steps::switch_plain, crate::proofs::Steps::switch_other, crate::proofs::Steps::switch_apart, crate::proofs::Steps::switch_passes, crate::proofs::Steps::switch_left, crate::proofs::Steps::switch_right))]
pub fn switch_checked(
    alloc: Global,
    scope: &Scope,
    context: &Context,
    unknowns: &mut Unknowns,
    switched: &GhostExpr,
    cases: &AssertionCaseList,
) -> Result<Switched, RuleFault>
    ensures { IsSwitch scope.now context.now unknowns.old switched.now (assertion_case_list cases.now) result unknowns.new }
{
    let place = first_place(switched);
    let sort = sorted(alloc, scope, context, unknowns, switched)?;
    let resolved = unknowns.resolve(&sort)?;
    let Some(datatype) = datatype_in(&resolved) else {
        return Err(refused(Rule::Typing, place));
    };
    if !are_cases(alloc, scope, datatype, cases)? {
        return Err(refused(Rule::Typing, place));
    }
    let count = parameter_count(scope, datatype);
    let whole = datatype_sort(alloc, datatype, count)?;
    let first = fresh(unknowns, count)?;
    let wanted = unknowns.instance(first, count, &whole)?;
    equate(unknowns, &sort, &wanted, place)?;
    Ok(Switched { first, count })
}
