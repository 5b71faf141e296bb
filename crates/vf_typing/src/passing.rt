//! Values that pass for others.

ghost use Rattle.std.specs.Prelude.{◌≡◌, Ok};
ghost use Rattle.std.specs.Option.{option_copied};
ghost use Rattle.vf_typing.specs.Operands.{assigned_refusal, comparable, passes, same_signature, takes_function, takes_pointer};
ghost use Rattle.vf_declared.specs.Types.{same_types};

use crate::operand::Operand;
use crate::refusal::refused;
use crate::types::{is_integer, same_pointer};
use vf_base::{Refusal, Rule, Sequence};
use vf_declared::ctype::CType;
use vf_declared::declaration::Signature;
use vf_declared::scope::Scope;

/// Whether two lists have the same types in the same order.
#[tactic(auto, using(crate::proofs::Signatures::same_length, crate::proofs::Signatures::same_done, crate::proofs::Signatures::same_done_first, crate::proofs::Signatures::same_end, crate::proofs::Signatures::same_differs, crate::proofs::Signatures::same_more))]
pub fn same_types(first: &Sequence<CType>, second: &Sequence<CType>) -> bool
    ensures { result ≡ same_types first.now second.now }
{
    if first.len() != second.len() {
        return false;
    }
    for at in 0..first.len() {
        let (Some(one), Some(other)) = (first.get(at), second.get(at)) else {
            return true;
        };
        if !one.same(*other) {
            return false;
        }
    }
    true
}

/// Whether two signatures have the same result and the same parameters.
fn same_signature(first: Option<&Signature>, second: Option<&Signature>) -> bool
    ensures { result ≡ same_signature (option_copied first.entry) (option_copied second.entry) }
{
    let (Some(first), Some(second)) = (first, second) else {
        return false;
    };
    first.result.same(second.result) && same_types(&first.parameters, &second.parameters)
}

/// Whether a function's name passes for a pointer.
fn takes_function(scope: &Scope, ctype: CType, function: usize) -> bool
    ensures { result ≡ takes_function scope.now ctype function }
{
    match ctype {
        CType::VoidPointer => true,
        CType::FunctionPointer(number) => {
            same_signature(scope.signature(function), scope.function_type(number))
        }
        _ => false,
    }
}

/// Whether a value of the second type passes for a pointer of the first.
fn takes_pointer(scope: &Scope, ctype: CType, other: CType) -> bool
    ensures { result ≡ takes_pointer scope.now ctype other }
{
    match other {
        CType::Void | CType::Integer(_) => false,
        CType::Function(number) => takes_function(scope, ctype, number),
        _ => same_pointer(ctype, other),
    }
}

/// Whether an operand passes for a value of a type (C11 6.5.16.1).
pub fn passes(scope: &Scope, ctype: CType, operand: Operand) -> bool
    ensures { result ≡ passes scope.now ctype operand.is_null operand.ctype }
{
    match ctype {
        CType::Void | CType::Function(_) => false,
        CType::Integer(_) => is_integer(operand.ctype),
        _ => operand.is_null || takes_pointer(scope, ctype, operand.ctype),
    }
}

/// The refusal of an operand that has to pass for a type.
pub fn assigned_refusal(scope: &Scope, ctype: CType, operand: Operand) -> Option<Refusal>
    ensures { result ≡ assigned_refusal scope.now ctype (Ok operand) }
{
    if passes(scope, ctype, operand) {
        None
    } else {
        Some(refused(Rule::Typing, operand.place))
    }
}

/// Whether two operands can be compared, or chosen between.
pub fn comparable(scope: &Scope, left: Operand, right: Operand) -> bool
    ensures { result ≡ comparable scope.now left.is_null left.ctype right.is_null right.ctype }
{
    match (left.ctype, right.ctype) {
        (CType::Integer(_), CType::Integer(_)) => true,
        (CType::Integer(_), _) => left.is_null,
        (_, CType::Integer(_)) => right.is_null,
        (CType::Function(_), CType::Function(_)) => true,
        (CType::Function(function), other) => takes_function(scope, other, function),
        (other, CType::Function(function)) => takes_function(scope, other, function),
        (one, other) => same_pointer(one, other),
    }
}
