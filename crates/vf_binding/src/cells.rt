//! Cells.

ghost use Rattle.std.specs.Prelude.{◌≡◌};
ghost use Rattle.vf_sorting.specs.Operators.{place_of};
ghost use Rattle.vf_binding.specs.Answers.{IsCell};
ghost use Rattle.vf_binding.specs.Chunks.{pointed_field, told_struct};

use crate::bound::Bound;
use crate::patterns::pattern_bound;
use crate::shares::share_bound;
use std::alloc::Global;
use vf_base::{Place, Rule, RuleFault};
use vf_declared::ctype::CType;
use vf_declared::scope::Scope;
use vf_sorting::names::sort_of_type;
use vf_sorting::refusal::refused;
use vf_sorting::{Context, sorted};
use vf_sorts::{Head, Sort, Unknowns};
use vf_syntax::ghost_expr::GhostExpr;
use vf_syntax::pattern::{Pattern, Share};
use vf_syntax::written::Name;

/// The struct whose fields a value of a sort is known to point to, by the number of its tag.
fn told_struct(sort: &Sort) -> Option<usize>
    ensures { result ≡ told_struct sort.now }
{
    match sort.head {
        Head::Pointer(told) => told,
        _ => None,
    }
}

/// The type of a field of a struct that has a number.
fn pointed_field(scope: &Scope, number: usize, field: &Name) -> Option<CType>
    ensures { result ≡ pointed_field scope.now number field.now }
{
    scope.field(number, &field.text, field.place.file)
}

/// The place of the first token of an expression.
#[tactic(auto, using(vf_sorting::proofs::Shapes::place_told))]
fn first_place(expr: &GhostExpr) -> Place
    ensures { result ≡ place_of expr.now }
{
    expr.place
}

/// Binds what a cell binds: a field of what a pointer points to, with a pattern for its content; or refuses it.
#[tactic(auto, using(crate::proofs::Pointed::cell_memory, crate::proofs::Pointed::cell_share_fails, crate::proofs::Pointed::cell_pointer_fails, crate::proofs::Pointed::cell_structless, crate::proofs::Pointed::cell_fieldless, crate::proofs::Pointed::cell_content_fails, crate::proofs::Pointed::cell_binds, crate::proofs::Pointed::type_below))]
pub fn cell_bound(
    alloc: Global,
    scope: &Scope,
    context: &Context,
    unknowns: &mut Unknowns,
    bound: &mut Bound,
    share: &Option<Share>,
    pointer: &GhostExpr,
    field: &Name,
    content: &Pattern,
) -> Result<(), RuleFault>
    ensures { IsCell scope.now context.now unknowns.old bound.old share.now pointer.now field.now content.now result unknowns.new bound.new }
{
    share_bound(alloc, scope, context, unknowns, bound, share)?;
    let sort = sorted(alloc, scope, context, unknowns, pointer)?;
    let resolved = unknowns.resolve(&sort)?;
    let Some(number) = told_struct(&resolved) else {
        return Err(refused(Rule::Typing, first_place(pointer)));
    };
    let Some(ctype) = pointed_field(scope, number, field) else {
        return Err(refused(Rule::Name, field.place));
    };
    let wanted = sort_of_type(alloc, ctype);
    pattern_bound(alloc, scope, context, unknowns, bound, &wanted, content)?;
    Ok(())
}
