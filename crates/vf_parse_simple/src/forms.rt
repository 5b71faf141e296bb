//! Which expressions are calls, and which may stand on the left of an assignment.

ghost use Rattle.std.specs.Prelude.{◌≡◌};
ghost use Rattle.vf_syntax.specs.ExprTree.{postfix_list};
ghost use Rattle.vf_syntax.specs.Statements.{is_call_part, ends_in_call, ends_in_place, is_call, is_left_side};

use vf_syntax::expr::{Expr, ExprNode, Postfix, PostfixList, PostfixNode};

fn is_call_part(part: &Postfix) -> bool
    ensures { result ≡ is_call_part part.now }
{
    match &part.node {
        PostfixNode::Call(_) => true,
        _ => false,
    }
}

#[tactic(auto, using(crate::proofs::Ends::last_calls, crate::proofs::Ends::none_calls))]
fn ends_in_call(parts: &PostfixList) -> bool
    ensures { result ≡ ends_in_call (postfix_list parts.now) }
{
    let count = parts.len();
    if count == 0 {
        return false;
    }
    match parts.get(count - 1) {
        Some(last) => is_call_part(last),
        None => false,
    }
}

#[tactic(auto, using(crate::proofs::Ends::last_places, crate::proofs::Ends::none_places))]
fn ends_in_place(parts: &PostfixList) -> bool
    ensures { result ≡ ends_in_place (postfix_list parts.now) }
{
    let count = parts.len();
    if count == 0 {
        return false;
    }
    match parts.get(count - 1) {
        Some(last) => !is_call_part(last),
        None => false,
    }
}

/// Whether an expression is a call, which may be one of `malloc`.
pub fn is_call(expr: &Expr) -> bool
    ensures { result ≡ is_call expr.now }
{
    match &expr.node {
        ExprNode::Malloc(_) => true,
        ExprNode::MallocInts(_, _) => true,
        ExprNode::Postfix(_, parts) => ends_in_call(parts),
        _ => false,
    }
}

/// Whether an expression may stand on the left of an assignment.
pub fn is_left_side(expr: &Expr) -> bool
    ensures { result ≡ is_left_side expr.now }
{
    match &expr.node {
        ExprNode::Name(_) => true,
        ExprNode::Postfix(_, parts) => ends_in_place(parts),
        _ => false,
    }
}
