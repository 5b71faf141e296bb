//! Assignments by an operator, as `+=` and `++`: what stands on the left is looked up once.

ghost use Rattle.std.specs.Prelude.{◌≡◌};
ghost use Rattle.vf_steps.specs.Shown.{value_of};
ghost use Rattle.vf_lower.specs.Did.{Does};
ghost use Rattle.vf_lower.specs.Shown.{access_of, outcome_of, setting_of};
ghost use Rattle.vf_lower.specs.Simple.{changed, changes, changes_at, changes_element, changes_field, changes_local, operator_in, step_operator};

use vf_base::{Memory, Place};
use vf_declared::ctype::CType;
use vf_lower::{
    Access, Draft, Left, Outcome, Setting, find_kind, joined, left_passed, result_type, set_local,
};
use vf_steps::{Action, FieldNumber, Value};
use vf_syntax::expr::Expr;
use vf_syntax::operator::{AssignmentOperator, BinaryOperator, StepOperator};

/// A change of what a left side is: the type and the place of the left side, the operator, its place, and the right side.
#[derive(Clone, Copy)]
pub struct Change<'e> {
    pub ctype: CType,
    pub place: Place,
    pub operator: BinaryOperator,
    pub at: Place,
    pub operand: &'e Expr,
}

/// The operator that stands in front of the `=` in another.
pub fn operator_in(operator: AssignmentOperator) -> BinaryOperator
    ensures { result ≡ operator_in operator }
{
    match operator {
        AssignmentOperator::MinusBecomes => BinaryOperator::Minus,
        AssignmentOperator::TimesBecomes => BinaryOperator::Times,
        AssignmentOperator::DivideBecomes => BinaryOperator::Divide,
        AssignmentOperator::RemainderBecomes => BinaryOperator::Remainder,
        _ => BinaryOperator::Plus,
    }
}

/// The operator that adds or takes away 1.
pub fn step_operator(operator: StepOperator) -> BinaryOperator
    ensures { result ≡ step_operator operator }
{
    match operator {
        StepOperator::Increment => BinaryOperator::Plus,
        StepOperator::Decrement => BinaryOperator::Minus,
    }
}

/// What a change makes of a value.
fn changed(
    setting: &Setting<'_>,
    draft: &mut Draft<'_>,
    change: &Change<'_>,
    value: Value,
) -> Result<Value, Memory>
    ensures { Does value_of (changed (setting_of setting.now) change.now.ctype change.now.place (value_of value) change.now.operator change.now.at change.now.operand.now) draft.old draft.new result }
{
    let left = Left::plain(Outcome::Is(value), change.ctype);
    let place = change.place;
    let outcome = joined(
        setting,
        draft,
        place,
        left,
        change.at,
        change.operator,
        change.operand,
    )?;
    let ctype = result_type(
        change.operator,
        change.ctype,
        find_kind(setting, change.operand).ctype,
    );
    left_passed(
        setting,
        draft,
        place,
        change.ctype,
        Left::plain(outcome, ctype),
    )
}

/// Changes the local that a value reads.
fn changes_local(
    setting: &Setting<'_>,
    draft: &mut Draft<'_>,
    change: &Change<'_>,
    value: &Value,
) -> Result<(), Memory>
    ensures { Does (λ u. tt) (changes_local (setting_of setting.now) change.now.ctype change.now.place (value_of value.now) change.now.operator change.now.at change.now.operand.now) draft.old draft.new result }
{
    match value {
        Value::Read { local, place } => {
            let read = Value::Read {
                local: *local,
                place: *place,
            };
            let value = changed(setting, draft, change, read)?;
            set_local(setting, draft, *local, value)
        }
        _ => Ok(()),
    }
}

/// Changes a field behind a pointer, at the `->`.
fn changes_field(
    setting: &Setting<'_>,
    draft: &mut Draft<'_>,
    change: &Change<'_>,
    pointer: Value,
    field: FieldNumber,
    place: Place,
) -> Result<(), Memory>
    ensures { Does (λ u. tt) (changes_field (setting_of setting.now) change.now.ctype change.now.place (value_of pointer) field place change.now.operator change.now.at change.now.operand.now) draft.old draft.new result }
{
    let local = draft.take(change.ctype)?;
    let again = pointer.copy(setting.alloc)?;
    draft.add(
        setting.statement,
        Action::Load {
            local,
            pointer: again,
            field,
            place,
        },
    )?;
    let read = Value::Read {
        local,
        place: change.place,
    };
    let value = changed(setting, draft, change, read)?;
    draft.add(
        setting.statement,
        Action::Store {
            pointer,
            field,
            value,
            place,
        },
    )
}

/// Changes an element behind a pointer, by its index, at the `[`.
fn changes_element(
    setting: &Setting<'_>,
    draft: &mut Draft<'_>,
    change: &Change<'_>,
    pointer: Value,
    index: Value,
    place: Place,
) -> Result<(), Memory>
    ensures { Does (λ u. tt) (changes_element (setting_of setting.now) change.now.ctype change.now.place (value_of pointer) (value_of index) place change.now.operator change.now.at change.now.operand.now) draft.old draft.new result }
{
    let local = draft.take(change.ctype)?;
    let again = pointer.copy(setting.alloc)?;
    let same = index.copy(setting.alloc)?;
    draft.add(
        setting.statement,
        Action::LoadAt {
            local,
            pointer: again,
            index: same,
            place,
        },
    )?;
    let read = Value::Read {
        local,
        place: change.place,
    };
    let value = changed(setting, draft, change, read)?;
    draft.add(
        setting.statement,
        Action::StoreAt {
            pointer,
            index,
            value,
            place,
        },
    )
}

/// Changes what an access reads.
fn changes_at(
    setting: &Setting<'_>,
    draft: &mut Draft<'_>,
    change: &Change<'_>,
    access: Access,
) -> Result<(), Memory>
    ensures { Does (λ u. tt) (changes_at (setting_of setting.now) change.now.ctype change.now.place (access_of access) change.now.operator change.now.at change.now.operand.now) draft.old draft.new result }
{
    match access {
        Access::Load(pointer, field, place) => {
            changes_field(setting, draft, change, pointer, field, place)
        }
        Access::LoadAt(pointer, index, place) => {
            changes_element(setting, draft, change, pointer, index, place)
        }
        _ => Ok(()),
    }
}

/// Changes what is left of a left side.
pub fn changes(
    setting: &Setting<'_>,
    draft: &mut Draft<'_>,
    change: &Change<'_>,
    outcome: Outcome,
) -> Result<(), Memory>
    ensures { Does (λ u. tt) (changes (setting_of setting.now) change.now.ctype change.now.place (outcome_of outcome) change.now.operator change.now.at change.now.operand.now) draft.old draft.new result }
{
    match outcome {
        Outcome::Is(value) => changes_local(setting, draft, change, &value),
        Outcome::Awaits(access) => changes_at(setting, draft, change, access),
        _ => Ok(()),
    }
}
