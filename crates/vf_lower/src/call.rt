//! Calls, and the types of what stands behind an operand.

ghost use Rattle.std.specs.Prelude.{◌≡◌};
ghost use Rattle.std.specs.Option.{option_copied};
ghost use Rattle.vf_syntax.specs.ExprTree.{postfix_list};
ghost use Rattle.vf_typing.specs.Parts.{called, free_place, means_free};
ghost use Rattle.vf_steps.specs.Shown.{action_of, value_of, values_of};
ghost use Rattle.vf_lower.specs.Expressions.{argument_of, call_of, called_with, free_step, function_type_in, link_type, only_argument, part_type, result_of, void_call};
ghost use Rattle.vf_lower.specs.Shown.{access_of, outcome_of, setting_of};
ghost use Rattle.vf_lower.specs.Did.{Does};

use crate::draft::Draft;
use crate::operand::{Access, Outcome};
use crate::operator::{is_void, result_type};
use crate::setting::{Setting, find_kind, structure_in};
use vf_base::{IntType, Memory, Place, Sequence, Text};
use vf_declared::ctype::CType;
use vf_declared::declaration::Signature;
use vf_declared::scope::Scope;
use vf_steps::{Action, Value};
use vf_syntax::expr::{Expr, ExprNode, Link, Postfix, PostfixList, PostfixNode};

/// What is called: a function by its name, or what a pointer to functions points to.
pub fn called(scope: &Scope, ctype: CType) -> Option<&Signature>
    ensures { option_copied result ≡ called scope.now ctype }
{
    match ctype {
        CType::Function(number) => scope.signature(number),
        CType::FunctionPointer(number) => scope.function_type(number),
        _ => None,
    }
}

/// The type of what a call gives.
fn result_of(signature: Option<&Signature>) -> CType
    ensures { result ≡ result_of (option_copied signature.entry) }
{
    match signature {
        Some(signature) => signature.result,
        None => CType::Void,
    }
}

/// The type of a read or call behind an operand of a type.
pub fn part_type(setting: &Setting<'_>, ctype: CType, part: &Postfix) -> CType
    ensures { result ≡ part_type (setting_of setting.now) ctype part.now }
{
    match &part.node {
        PostfixNode::Field(name) => {
            match setting
                .scope
                .field(structure_in(ctype), &name.text, name.place.file)
            {
                Some(ctype) => ctype,
                None => CType::Void,
            }
        }
        PostfixNode::Index(_) => CType::Integer(IntType::Int),
        PostfixNode::Call(_) => result_of(called(setting.scope, ctype)),
    }
}

/// The type of an operator's result behind a left operand of a type.
pub fn link_type(setting: &Setting<'_>, ctype: CType, link: &Link) -> CType
    ensures { result ≡ link_type (setting_of setting.now) ctype link.now }
{
    result_type(
        link.operator,
        ctype,
        find_kind(setting, &link.operand).ctype,
    )
}

/// The step that frees what a value of a type points to, at the word `free`.
pub fn free_step<'a>(ctype: CType, pointer: Value, place: Place) -> Action<'a>
    ensures { action_of result ≡ free_step ctype (value_of pointer) place }
{
    match ctype {
        CType::IntPointer => Action::FreeInts { pointer, place },
        _ => Action::Free {
            pointer,
            structure: structure_in(ctype),
            place,
        },
    }
}

/// The number of the function type to which a type points.
fn function_type_in(ctype: CType) -> usize
    ensures { result ≡ function_type_in ctype }
{
    match ctype {
        CType::FunctionPointer(number) => number,
        _ => 0,
    }
}

/// A call at a place that gives something.
fn call_of(ctype: CType, callee: Value, arguments: Sequence<Value>, place: Place) -> Access
    ensures { access_of result ≡ call_of ctype (value_of callee) (values_of arguments) place }
{
    match ctype {
        CType::Function(function) => Access::Call(function, arguments, place),
        _ => Access::CallPointer(callee, function_type_in(ctype), arguments, place),
    }
}

/// A call at a place that gives nothing.
fn void_call<'a>(
    ctype: CType,
    callee: Value,
    arguments: Sequence<Value>,
    place: Place,
) -> Action<'a>
    ensures { action_of result ≡ void_call ctype (value_of callee) (values_of arguments) place }
{
    match ctype {
        CType::Function(function) => Action::Call {
            target: None,
            function,
            arguments,
            place,
        },
        _ => Action::CallPointer {
            target: None,
            pointer: callee,
            function_type: function_type_in(ctype),
            arguments,
            place,
        },
    }
}

/// A call at a place whose operands are evaluated.
pub fn called_with(
    setting: &Setting<'_>,
    draft: &mut Draft<'_>,
    place: Place,
    ctype: CType,
    callee: Value,
    arguments: Sequence<Value>,
) -> Result<Outcome, Memory>
    ensures { Does outcome_of (called_with (setting_of setting.now) place ctype (value_of callee) (values_of arguments)) draft.old draft.new result }
{
    if is_void(result_of(called(setting.scope, ctype))) {
        draft.add(
            setting.statement,
            void_call(ctype, callee, arguments, place),
        )?;
        return Ok(Outcome::Nothing);
    }
    Ok(Outcome::Awaits(call_of(ctype, callee, arguments, place)))
}

/// Whether a name means the `free` of `<stdlib.h>`.
fn means_free(scope: &Scope, name: &Text) -> bool
    ensures { result ≡ means_free scope.now name.now }
{
    name.as_bytes() == b"free".as_slice()
        && scope.local(name).is_none()
        && !scope.is_declared(name.as_bytes())
}

/// Where an expression, in parentheses or not, is the name `free` of `<stdlib.h>`.
pub fn free_name(scope: &Scope, expr: &Expr) -> Option<Place>
    ensures { result ≡ free_place scope.now expr.now }
{
    match &expr.node {
        ExprNode::Name(name) => {
            if means_free(scope, name) {
                Some(expr.place)
            } else {
                None
            }
        }
        ExprNode::Parenthesized(inner) => free_name(scope, inner),
        _ => None,
    }
}

/// The argument of a read or call, where it is a call of one argument.
#[tactic(auto, using(crate::proofs::Calls::one_there, crate::proofs::Calls::not_one))]
fn argument_of(part: &Postfix) -> Option<&Expr>
    ensures { option_copied result ≡ argument_of part.now }
{
    let PostfixNode::Call(items) = &part.node else {
        return None;
    };
    if items.len() != 1 {
        return None;
    }
    items.get(0)
}

/// The argument of the first of some reads and calls, where that is a call of one argument.
#[tactic(auto, using(crate::proofs::Calls::first_there, crate::proofs::Calls::first_none))]
pub fn only_argument(parts: &PostfixList) -> Option<&Expr>
    ensures { option_copied result ≡ only_argument (postfix_list parts.now) }
{
    match parts.get(0) {
        Some(part) => argument_of(part),
        None => None,
    }
}
