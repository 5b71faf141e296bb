//! Forms of expressions.

ghost use Rattle.std.specs.Prelude.{◌≡◌};
ghost use Rattle.vf_sorting.specs.Operators.{is_null, place_of};

use vf_base::Place;
use vf_syntax::ghost_expr::{GhostExpr, GhostExprNode};

/// Whether an expression is a `0`, in parentheses or not.
#[cycle(is_null)]
pub fn is_null(expr: &GhostExpr) -> bool
    ensures { result ≡ is_null expr.now }
{
    match &expr.node {
        GhostExprNode::Number(number, _) => *number == 0,
        GhostExprNode::Parenthesized(inner) => is_null(inner),
        _ => false,
    }
}

/// The place of the first token of an expression.
#[tactic(auto, using(crate::proofs::Shapes::place_told))]
pub fn place_of(expr: &GhostExpr) -> Place
    ensures { result ≡ place_of expr.now }
{
    expr.place
}
