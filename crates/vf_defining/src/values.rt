//! The values that a fixpoint gives.

ghost use Rattle.std.specs.Prelude.{◌≡◌};
ghost use Rattle.vf_sorting.specs.Operators.{place_of};
ghost use Rattle.vf_equations.specs.Answers.{IsValue};

use std::alloc::Global;
use vf_base::{Place, Rule, RuleFault};
use vf_declared::scope::Scope;
use vf_sorting::refusal::refused;
use vf_sorting::{Context, checked};
use vf_sorts::{Sort, Unknowns};
use vf_syntax::ghost_expr::GhostExpr;

/// The place of the first token of an expression.
#[tactic(auto, using(vf_sorting::proofs::Shapes::place_told))]
fn first_place(expr: &GhostExpr) -> Place
    ensures { result ≡ place_of expr.now }
{
    expr.place
}

/// Whether a value passes for the sort of the result.
#[tactic(auto, using(vf_equations::proofs::Giving::value_stray, vf_equations::proofs::Giving::value_checks))]
pub(crate) fn value_checked(
    alloc: Global,
    scope: &Scope,
    context: &Context,
    sort: &Sort,
    unknowns: &mut Unknowns,
    value: &GhostExpr,
) -> Result<(), RuleFault>
    ensures { IsValue scope.now context.now sort.now unknowns.old value.now result unknowns.new }
{
    if !unknowns.has(sort) {
        return Err(refused(Rule::Typing, first_place(value)));
    }
    checked(alloc, scope, context, unknowns, sort, value)
}
