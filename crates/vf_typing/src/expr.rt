//! Expressions.

ghost use Rattle.std.specs.Prelude.{◌≡◌, Ok, Some, drop};
ghost use Rattle.std.specs.Option.{option_copied, option_map};
ghost use Rattle.vf_syntax.specs.ExprTree.{expr_list, link_list, postfix_list};
ghost use Rattle.vf_typing.specs.Operands.{assigned_refusal, conditional, enclosed, prefixed, cast, used};
ghost use Rattle.vf_typing.specs.Names.{written_type};
ghost use Rattle.vf_typing.specs.Parts.{call, count, free_place, indexed, ints_allocated, parameters_of};
ghost use Rattle.vf_typing.specs.Typed as typing;

use crate::memory::{allocated, called, element, field_behind, freed, int_memory};
use crate::name::{free_name, name_type};
use crate::operand::Operand;
use crate::operators::{cast, chosen, joined, prefixed, takes_left};
use crate::passing::assigned_refusal;
use crate::refusal::refused;
use crate::types::is_int_pointer;
use crate::written::written_type;
use vf_base::{IntType, Place, Refusal, Rule, Sequence};
use vf_declared::ctype::CType;
use vf_declared::declaration::Signature;
use vf_declared::scope::Scope;
use vf_syntax::expr::{
    Expr, ExprList, ExprNode, Link, LinkList, Postfix, PostfixList, PostfixNode,
};
use vf_syntax::operator::UnaryOperator;
use vf_syntax::written::CType as WrittenType;

/// What is kept of an expression at a place of a unit, or its first refusal.
#[cycle(expr)]
pub fn typed(scope: &Scope, expr: &Expr) -> Result<Operand, Refusal>
    ensures { result ≡ typing.typed scope.now expr.now }
{
    match &expr.node {
        ExprNode::Number(number, of) => Ok(Operand {
            place: expr.place,
            ctype: CType::Integer(*of),
            is_null: *number == 0,
        }),
        ExprNode::Character(_) => Ok(Operand::value(expr.place, CType::Integer(IntType::Int))),
        ExprNode::True => Ok(Operand::value(expr.place, CType::Integer(IntType::Bool))),
        ExprNode::False => Ok(Operand::value(expr.place, CType::Integer(IntType::Bool))),
        ExprNode::Name(name) => {
            let ctype = name_type(scope, expr.place, name)?;
            Ok(Operand::value(expr.place, ctype))
        }
        ExprNode::Parenthesized(inner) => typed_inside(scope, expr.place, inner),
        ExprNode::Malloc(tag) => allocated(scope, expr.place, tag),
        ExprNode::MallocInts(length, _) => typed_ints(scope, expr.place, length),
        ExprNode::Postfix(start, parts) => typed_postfix(scope, expr.place, start, parts),
        ExprNode::Unary(operator, operand) => typed_unary(scope, expr.place, *operator, operand),
        ExprNode::Cast(written, operand) => typed_cast(scope, expr.place, written, operand),
        ExprNode::Chain(_, start, links) => typed_chain(scope, start, links),
        ExprNode::Conditional(test, yes, no) => {
            typed_conditional(scope, expr.place, test, yes, no)
        }
    }
}

/// An expression in parentheses at a place.
#[cycle(expr)]
fn typed_inside(scope: &Scope, place: Place, inner: &Expr) -> Result<Operand, Refusal>
    ensures { result ≡ enclosed place (typing.typed scope.now inner.now) }
{
    let operand = typed(scope, inner)?;
    Ok(Operand {
        place,
        ctype: operand.ctype,
        is_null: operand.is_null,
    })
}

/// Memory at a place for some ints.
#[cycle(expr)]
fn typed_ints(scope: &Scope, place: Place, length: &Expr) -> Result<Operand, Refusal>
    ensures { result ≡ ints_allocated scope.now place (typing.typed scope.now length.now) }
{
    if !(scope.has_stdlib && scope.has_arrays) {
        return Err(refused(Rule::Name, place));
    }
    let length = typed(scope, length)?;
    int_memory(place, length)
}

/// An operator at a place in front of its operand.
#[cycle(expr)]
fn typed_unary(
    scope: &Scope,
    place: Place,
    operator: UnaryOperator,
    operand: &Expr,
) -> Result<Operand, Refusal>
    ensures { result ≡ prefixed place operator (typing.typed scope.now operand.now) }
{
    let operand = typed(scope, operand)?;
    prefixed(place, operator, operand)
}

/// A cast at a place.
#[cycle(expr)]
fn typed_cast(
    scope: &Scope,
    place: Place,
    written: &WrittenType,
    operand: &Expr,
) -> Result<Operand, Refusal>
    ensures { result ≡ cast place (written_type scope.now written.now) (typing.typed scope.now operand.now) }
{
    let ctype = written_type(scope, written)?;
    let operand = typed(scope, operand)?;
    cast(place, ctype, operand)
}

/// An expression whose value is used.
#[cycle(expr)]
pub fn typed_value(scope: &Scope, expr: &Expr) -> Result<Operand, Refusal>
    ensures { result ≡ used (typing.typed scope.now expr.now) }
{
    let operand = typed(scope, expr)?;
    operand.used()
}

/// A choice at a place.
#[cycle(expr)]
fn typed_conditional(
    scope: &Scope,
    place: Place,
    test: &Expr,
    yes: &Expr,
    no: &Expr,
) -> Result<Operand, Refusal>
    ensures { result ≡ conditional scope.now place (used (typing.typed scope.now test.now)) (used (typing.typed scope.now yes.now)) (used (typing.typed scope.now no.now)) }
{
    let _test = typed_value(scope, test)?;
    let yes = typed_value(scope, yes)?;
    let no = typed_value(scope, no)?;
    chosen(scope, place, yes, no)
}

/// An operator and its operand behind a left operand.
#[cycle(expr)]
fn typed_link(scope: &Scope, left: Operand, link: &Link) -> Result<Operand, Refusal>
    ensures { result ≡ typing.typed_link scope.now (Ok left) link.now }
{
    if !takes_left(link.operator, left.ctype) {
        return Err(refused(Rule::Typing, left.place));
    }
    let right = typed(scope, &link.operand)?;
    joined(scope, link.operator, left, right)
}

/// Operators and their operands behind a left operand.
#[cycle(expr)]
#[tactic(auto, using(crate::proofs::Lists::link_smaller, crate::proofs::Loops::links_none, crate::proofs::Loops::links_end, crate::proofs::Loops::links_more, crate::proofs::Loops::links_stop))]
fn typed_links(scope: &Scope, start: Operand, links: &LinkList) -> Result<Operand, Refusal>
    ensures { result ≡ typing.typed_links scope.now (Ok start) (link_list links.now) }
{
    let mut left = start;
    for at in 0..links.len() {
        let Some(link) = links.get(at) else {
            return Ok(left);
        };
        left = typed_link(scope, left, link)?;
    }
    Ok(left)
}

/// Operands joined by operators of one level.
#[cycle(expr)]
#[tactic(auto, using(crate::proofs::Loops::links_refused))]
fn typed_chain(scope: &Scope, start: &Expr, links: &LinkList) -> Result<Operand, Refusal>
    ensures { result ≡ typing.typed_links scope.now (typing.typed scope.now start.now) (link_list links.now) }
{
    let left = typed(scope, start)?;
    typed_links(scope, left, links)
}

/// The arguments of a read or call, where it is a call.
fn arguments_of(part: &Postfix) -> Option<&ExprList>
    ensures { option_map (λ xs. expr_list xs.now) result ≡ typing.arguments_of part.now }
{
    match &part.node {
        PostfixNode::Call(arguments) => Some(arguments),
        _ => None,
    }
}

/// The arguments of the first of some reads and calls, where it is a call.
#[tactic(auto, using(crate::proofs::Calls::first_there, crate::proofs::Calls::first_none))]
fn first_arguments(parts: &PostfixList) -> Option<&ExprList>
    ensures { option_map (λ xs. expr_list xs.now) result ≡ typing.first_arguments (postfix_list parts.now) }
{
    match parts.get(0) {
        Some(part) => arguments_of(part),
        None => None,
    }
}

/// Reads and calls behind an expression at a place.
#[cycle(expr)]
#[tactic(auto, using(crate::proofs::Calls::first_smaller, crate::proofs::Calls::free_called, crate::proofs::Calls::no_free, crate::proofs::Calls::no_call, crate::proofs::Calls::free_refused, crate::proofs::Loops::parts_refused))]
fn typed_postfix(
    scope: &Scope,
    place: Place,
    start: &Expr,
    parts: &PostfixList,
) -> Result<Operand, Refusal>
    ensures { result ≡ typing.typed_postfix scope.now place (free_place scope.now start.now) (typing.typed scope.now start.now) (postfix_list parts.now) }
{
    match (free_name(scope, start), first_arguments(parts)) {
        (Some(name), Some(arguments)) => {
            let operand = typed_free(scope, place, name, arguments)?;
            typed_parts(scope, operand, parts, 1)
        }
        _ => {
            let operand = typed(scope, start)?;
            typed_parts(scope, operand, parts, 0)
        }
    }
}

/// A call of `free` at a place, whose name stands at another.
#[cycle(expr)]
#[tactic(auto, using(crate::proofs::Lists::expr_smaller, crate::proofs::Calls::not_one, crate::proofs::Calls::one_argument, crate::proofs::Calls::one_missing))]
fn typed_free(
    scope: &Scope,
    place: Place,
    name: Place,
    arguments: &ExprList,
) -> Result<Operand, Refusal>
    ensures { result ≡ typing.typed_free scope.now place name (expr_list arguments.now) }
{
    if !scope.has_stdlib {
        return Err(refused(Rule::Name, name));
    }
    if arguments.len() != 1 {
        return Err(refused(Rule::Typing, place));
    }
    let Some(argument) = arguments.get(0) else {
        return Err(refused(Rule::Typing, place));
    };
    let operand = typed(scope, argument)?;
    freed(scope, place, operand)
}

/// An index at a `[` behind an operand.
#[cycle(expr)]
fn typed_index(
    scope: &Scope,
    bracket: Place,
    operand: Operand,
    index: &Expr,
) -> Result<Operand, Refusal>
    ensures { result ≡ indexed scope.now bracket operand (typing.typed scope.now index.now) }
{
    if !is_int_pointer(operand.ctype) {
        return Err(refused(Rule::Typing, operand.place));
    }
    let index = typed(scope, index)?;
    element(scope, operand.place, bracket, index)
}

/// A read or call behind an operand.
#[cycle(expr)]
fn typed_part(scope: &Scope, operand: Operand, part: &Postfix) -> Result<Operand, Refusal>
    ensures { result ≡ typing.typed_part scope.now (Ok operand) part.now }
{
    match &part.node {
        PostfixNode::Field(name) => field_behind(scope, operand, name),
        PostfixNode::Index(index) => typed_index(scope, part.place, operand, index),
        PostfixNode::Call(arguments) => {
            let signature = called(scope, operand.ctype);
            typed_call(scope, operand.place, signature, arguments)
        }
    }
}

/// Reads and calls behind an operand, from an index on.
#[cycle(expr)]
#[tactic(auto, using(crate::proofs::Lists::postfix_smaller, crate::proofs::Loops::parts_none, crate::proofs::Loops::parts_end, crate::proofs::Loops::parts_more, crate::proofs::Loops::parts_stop))]
fn typed_parts(
    scope: &Scope,
    start: Operand,
    parts: &PostfixList,
    from: usize,
) -> Result<Operand, Refusal>
    ensures { result ≡ typing.typed_parts scope.now (Ok start) (postfix_list (drop from parts.now)) }
{
    let mut operand = start;
    for at in from..parts.len() {
        let Some(part) = parts.get(at) else {
            return Ok(operand);
        };
        operand = typed_part(scope, operand, part)?;
    }
    Ok(operand)
}

/// A call at a place, of what has a signature.
#[cycle(expr)]
#[tactic(auto, using(crate::proofs::Calls::call_differs, crate::proofs::Calls::call_agrees))]
fn typed_call(
    scope: &Scope,
    place: Place,
    signature: Option<&Signature>,
    arguments: &ExprList,
) -> Result<Operand, Refusal>
    ensures { result ≡ call place (option_copied signature.entry) (count (expr_list arguments.now)) (typing.refused_argument scope.now (parameters_of (option_copied signature.entry)) (expr_list arguments.now)) }
{
    let Some(signature) = signature else {
        return Err(refused(Rule::Typing, place));
    };
    if signature.parameters.len() != arguments.len() {
        return Err(refused(Rule::Typing, place));
    }
    match refused_argument(scope, &signature.parameters, arguments) {
        Some(refusal) => Err(refusal),
        None => Ok(Operand::value(place, signature.result)),
    }
}

/// The refusal of an expression that has to pass for a type.
#[cycle(expr)]
pub fn assigned(scope: &Scope, ctype: CType, expr: &Expr) -> Option<Refusal>
    ensures { result ≡ assigned_refusal scope.now ctype (typing.typed scope.now expr.now) }
{
    match typed(scope, expr) {
        Ok(operand) => assigned_refusal(scope, ctype, operand),
        Err(refusal) => Some(refusal),
    }
}

/// The first refusal among arguments for parameters of these types.
#[cycle(expr)]
#[tactic(auto, using(crate::proofs::Lists::expr_smaller, crate::proofs::Loops::arguments_none, crate::proofs::Loops::parameters_none, crate::proofs::Loops::arguments_end, crate::proofs::Loops::arguments_stop, crate::proofs::Loops::arguments_more))]
fn refused_argument(
    scope: &Scope,
    parameters: &Sequence<CType>,
    arguments: &ExprList,
) -> Option<Refusal>
    ensures { result ≡ typing.refused_argument scope.now parameters.now (expr_list arguments.now) }
{
    for at in 0..arguments.len() {
        let (Some(parameter), Some(argument)) = (parameters.get(at), arguments.get(at)) else {
            return None;
        };
        if let Some(refusal) = assigned(scope, *parameter, argument) {
            return Some(refusal);
        }
    }
    None
}
