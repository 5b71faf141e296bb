//! What is left of an expression: a value, a test that tells a truth value, or what a step is still to put somewhere.

ghost use Rattle.std.specs.Prelude.{◌≡◌, IfOk};
ghost use Rattle.vf_declared.specs.declared.ctype.CType.TheVariants as types;
ghost use Rattle.vf_steps.specs.Shown.{action_of, value_of};
ghost use Rattle.vf_syntax.specs.ExprTree as syntax;
ghost use Rattle.vf_steps.specs.Tree as steps;
ghost use Rattle.vf_lower.specs.Lowering.{does, gives, taken, ◌⨾◌};
ghost use Rattle.vf_lower.specs.Settings.{integer_in};
ghost use Rattle.vf_lower.specs.Operands.{arithmetic_operator, as_test, as_value, awaits, into, is, left, left_passed, left_value};
ghost use Rattle.vf_lower.specs.Expressions.{part};
ghost use Rattle.vf_lower.specs.Shown.{access_of, left_of, outcome_of, setting_of, test_of};
ghost use Rattle.vf_lower.specs.Did.{Does};

use crate::convert::{adapted, is_set, selected};
use crate::draft::Draft;
use crate::operator::arithmetic_operator;
use crate::setting::{Kind, Setting, field_number, integer_in};
use crate::test::Test;
use vf_base::{IntType, Memory, Place, Sequence};
use vf_declared::ctype::CType;
use vf_steps::{Action, FieldNumber, Value};
use vf_syntax::operator::BinaryOperator;
use vf_syntax::written::Name;

/// An access to memory or a call whose result is still to be put into a local.
#[derive(Drop)]
pub enum Access {
    /// A field behind a pointer; the place is the `->`.
    Load(Value, FieldNumber, Place),
    /// An element of an array behind a pointer, by its index; the place is the `[`.
    LoadAt(Value, Value, Place),
    /// Memory for a struct, by its number.
    Allocate(usize),
    /// Memory for so many ints; the place is the `*`.
    AllocateInts(Value, Place),
    /// A call of a function, by its number, with these arguments.
    Call(usize, Sequence<Value>, Place),
    /// A call of what a value points to, by the number of the function type, with these arguments.
    CallPointer(Value, usize, Sequence<Value>, Place),
}

impl Access {
    /// The step that puts its result into a local.
    pub fn into_step<'a>(self, local: usize) -> Action<'a>
        ensures { action_of result ≡ into local (access_of self) }
    {
        match self {
            Access::Load(pointer, field, place) => Action::Load {
                local,
                pointer,
                field,
                place,
            },
            Access::LoadAt(pointer, index, place) => Action::LoadAt {
                local,
                pointer,
                index,
                place,
            },
            Access::Allocate(structure) => Action::Allocate { local, structure },
            Access::AllocateInts(length, place) => Action::AllocateInts {
                local,
                length,
                place,
            },
            Access::Call(function, arguments, place) => Action::Call {
                target: Some(local),
                function,
                arguments,
                place,
            },
            Access::CallPointer(pointer, function_type, arguments, place) => Action::CallPointer {
                target: Some(local),
                pointer,
                function_type,
                arguments,
                place,
            },
        }
    }
}

/// What is left of an expression.
#[derive(Drop)]
pub enum Outcome {
    /// A value.
    Is(Value),
    /// A test that tells a truth value.
    Holds(Test),
    /// What a step is still to put into a local.
    Awaits(Access),
    /// Nothing, behind a call that gives nothing.
    Nothing,
}

/// An operand on the left of something: what is left of it, and its kind.
#[derive(Drop)]
pub struct Left {
    pub outcome: Outcome,
    pub kind: Kind,
}

impl Left {
    /// A left operand of a type that is no `0`.
    pub fn plain(outcome: Outcome, ctype: CType) -> Left
        ensures { left_of result ≡ left (outcome_of outcome) ctype }
    {
        Left {
            outcome,
            kind: Kind {
                ctype,
                is_null: false,
            },
        }
    }
}

/// Puts a result into a new local of a type, and reads it there at a place.
fn read_result(
    setting: &Setting<'_>,
    draft: &mut Draft<'_>,
    ctype: CType,
    place: Place,
    access: Access,
) -> Result<Value, Memory>
    ensures { Does value_of (as_value (setting_of setting.now) ctype place (awaits (access_of access))) draft.old draft.new result }
{
    let local = draft.take(ctype)?;
    draft.add(setting.statement, access.into_step(local))?;
    Ok(Value::Read { local, place })
}

/// What is left as a value of a type at a place.
pub fn as_value(
    setting: &Setting<'_>,
    draft: &mut Draft<'_>,
    ctype: CType,
    place: Place,
    outcome: Outcome,
) -> Result<Value, Memory>
    ensures { Does value_of (as_value (setting_of setting.now) ctype place (outcome_of outcome)) draft.old draft.new result }
{
    match outcome {
        Outcome::Is(value) => Ok(value),
        Outcome::Holds(test) => {
            let ctype = CType::Integer(IntType::Bool);
            selected(
                setting,
                draft,
                test,
                ctype,
                Value::Truth(true),
                Value::Truth(false),
                place,
            )
        }
        Outcome::Awaits(access) => read_result(setting, draft, ctype, place, access),
        Outcome::Nothing => Ok(Value::Null),
    }
}

/// What is left as a test of a value of a type at a place.
pub fn as_test(
    setting: &Setting<'_>,
    draft: &mut Draft<'_>,
    ctype: CType,
    place: Place,
    outcome: Outcome,
) -> Result<Test, Memory>
    ensures { Does test_of (as_test (setting_of setting.now) ctype place (outcome_of outcome)) draft.old draft.new result }
{
    match outcome {
        Outcome::Holds(test) => Ok(test),
        other => {
            let value = as_value(setting, draft, ctype, place, other)?;
            Ok(is_set(ctype, value))
        }
    }
}

/// A left operand at a place as a value.
pub fn left_value(
    setting: &Setting<'_>,
    draft: &mut Draft<'_>,
    place: Place,
    left: Left,
) -> Result<Value, Memory>
    ensures { Does value_of (left_value (setting_of setting.now) place (left_of left)) draft.old draft.new result }
{
    let Left { outcome, kind } = left;
    as_value(setting, draft, kind.ctype, place, outcome)
}

/// A left operand at a place as a value that passes for one of a type.
pub fn left_passed(
    setting: &Setting<'_>,
    draft: &mut Draft<'_>,
    place: Place,
    ctype: CType,
    left: Left,
) -> Result<Value, Memory>
    ensures { Does value_of (left_passed (setting_of setting.now) place ctype (left_of left)) draft.old draft.new result }
{
    let kind = left.kind;
    let value = left_value(setting, draft, place, left)?;
    adapted(setting, draft, ctype, kind, value, place)
}

/// A left operand at a place as a test.
pub fn left_test(
    setting: &Setting<'_>,
    draft: &mut Draft<'_>,
    place: Place,
    left: Left,
) -> Result<Test, Memory>
    ensures { Does test_of (as_test (setting_of setting.now) left.kind.ctype place (outcome_of left.outcome)) draft.old draft.new result }
{
    let Left { outcome, kind } = left;
    as_test(setting, draft, kind.ctype, place, outcome)
}

/// A field behind a left operand at a place, at the `->`.
pub fn field(
    setting: &Setting<'_>,
    draft: &mut Draft<'_>,
    place: Place,
    left: Left,
    at: Place,
    name: &Name,
) -> Result<Outcome, Memory>
    ensures { Does outcome_of (part (setting_of setting.now) place (left_of left) (syntax.field_ at name.now)) draft.old draft.new result }
{
    let field = field_number(setting, left.kind.ctype, name);
    let pointer = left_value(setting, draft, place, left)?;
    Ok(Outcome::Awaits(Access::Load(pointer, field, at)))
}

/// An operator at a place between two values of a type.
pub fn computed(
    setting: &Setting<'_>,
    operator: BinaryOperator,
    ctype: CType,
    left: Value,
    right: Value,
    place: Place,
) -> Result<Outcome, Memory>
    ensures { IfOk result (λ outcome. outcome_of outcome ≡ is (steps.arithmetic (arithmetic_operator operator) (integer_in ctype) (value_of left) (value_of right) place)) }
{
    Ok(Outcome::Is(Value::Arithmetic {
        operator: arithmetic_operator(operator),
        of: integer_in(ctype),
        left: Box::new(setting.alloc, left)?,
        right: Box::new(setting.alloc, right)?,
        place,
    }))
}

/// Puts a pointer with a greater offset, at the `+`, into a new local, and reads it there at a place.
pub fn offset(
    setting: &Setting<'_>,
    draft: &mut Draft<'_>,
    pointer: Value,
    by: Value,
    at: Place,
    place: Place,
) -> Result<Outcome, Memory>
    ensures { Does outcome_of (taken types.IntPointer ⨾ λ k. does setting.now.statement (steps.offset k (value_of pointer) (value_of by) at) ⨾ λ u. gives (is (steps.read k place))) draft.old draft.new result }
{
    let local = draft.take(CType::IntPointer)?;
    draft.add(
        setting.statement,
        Action::Offset {
            local,
            pointer,
            by,
            place: at,
        },
    )?;
    Ok(Outcome::Is(Value::Read { local, place }))
}

/// Puts a value into a local, in the nodes of a draft.
pub fn set_local(
    setting: &Setting<'_>,
    draft: &mut Draft<'_>,
    local: usize,
    value: Value,
) -> Result<(), Memory>
    ensures { Does (λ u. tt) (does setting.now.statement (steps.set local (value_of value))) draft.old draft.new result }
{
    draft.add(setting.statement, Action::Set { local, value })
}
