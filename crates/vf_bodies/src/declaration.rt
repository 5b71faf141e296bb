//! Parts of statements that hold no statements: declarations, tests, steps of loops and `return`.

ghost use Rattle.std.specs.Prelude.{◌≡◌, Some, None, IfOk};
ghost use Rattle.vf_lower.specs.Did.{Does};
ghost use Rattle.vf_lower.specs.Shown.{setting_of, test_of};
ghost use Rattle.vf_lower.specs.Lowering.{◌⨾◌, gives, taken};
ghost use Rattle.vf_lower.specs.Statements.{at, declaration, declared, ended, first_part, loop_test, optional_simple, returned, type_in, with_variable};
ghost use Rattle.vf_bodies.specs.Standing.{standing_of};

use crate::assignment::put_local;
use crate::simple::lower_simple;
use crate::surroundings::Surroundings;
use vf_base::{Memory, Place, Refusal};
use vf_core::Comparison;
use vf_declared::ctype::CType;
use vf_lower::{Draft, Setting, Test, is_void, passed, tested};
use vf_steps::{Action, Value};
use vf_syntax::expr::Expr;
use vf_syntax::simple::{First, Simple};
use vf_syntax::written::{CType as WrittenType, Name};
use vf_typing::written_type;

/// The type that a written type is, and `void` where it is none.
fn type_in(found: Result<CType, Refusal>) -> CType
    ensures { result ≡ type_in found }
{
    match found {
        Ok(ctype) => ctype,
        Err(_) => CType::Void,
    }
}

/// Declares a local of a type, with a number that no other has: that number.
fn declare(
    around: &mut Surroundings,
    draft: &mut Draft<'_>,
    name: &Name,
    ctype: CType,
) -> Result<usize, Memory>
    ensures taken { Does (λ n. n) (taken ctype) draft.old draft.new result }
    ensures declared { IfOk result (λ n. standing_of around.new ≡ with_variable (standing_of around.old) name.now.text ctype n) }
{
    let local = draft.take(ctype)?;
    around.declare(name, ctype, local)?;
    Ok(local)
}

/// A declaration of a local of a type, without a value.
fn declare_unset(
    around: &mut Surroundings,
    draft: &mut Draft<'_>,
    name: &Name,
    ctype: CType,
) -> Result<(), Memory>
    ensures { Does (λ u. standing_of around.new) (declared (standing_of around.old) name.now.text ctype None) draft.old draft.new result }
{
    let local = declare(around, draft, name, ctype)?;
    draft.add(around.statement, Action::Unset(local))?;
    Ok(())
}

/// A declaration of a local of a type, with its first value.
fn declare_set(
    around: &mut Surroundings,
    draft: &mut Draft<'_>,
    name: &Name,
    ctype: CType,
    value: &Expr,
) -> Result<(), Memory>
    ensures { Does (λ u. standing_of around.new) (declared (standing_of around.old) name.now.text ctype (Some value.now)) draft.old draft.new result }
{
    let local = declare(around, draft, name, ctype)?;
    put_local(&around.setting(), draft, local, ctype, value)?;
    Ok(())
}

/// A declaration of a local in the statement at a place.
pub fn lower_declaration(
    around: &mut Surroundings,
    draft: &mut Draft<'_>,
    place: Place,
    written: &WrittenType,
    name: &Name,
    value: &Option<Expr>,
) -> Result<(), Memory>
    ensures { Does (λ u. standing_of around.new) (declaration (at (standing_of around.old) place) written.now name.now value.now) draft.old draft.new result }
{
    around.statement = place;
    let ctype = type_in(written_type(&around.scope, written));
    match value {
        Some(value) => declare_set(around, draft, name, ctype, value),
        None => declare_unset(around, draft, name, ctype),
    }
}

/// What stands first in a `for` at a place, where something does.
fn lower_first(
    around: &mut Surroundings,
    draft: &mut Draft<'_>,
    place: Place,
    part: &First,
) -> Result<(), Memory>
    ensures { Does (λ u. standing_of around.new) (first_part (at (standing_of around.old) place) (Some part.now)) draft.old draft.new result }
{
    around.statement = place;
    match part {
        First::Declaration(written, name, value) => {
            let ctype = type_in(written_type(&around.scope, written));
            declare_set(around, draft, name, ctype, value)
        }
        First::Simple(part) => lower_simple(&around.setting(), draft, part),
    }
}

/// What stands first in a `for` at a place.
pub fn lower_first_part(
    around: &mut Surroundings,
    draft: &mut Draft<'_>,
    place: Place,
    part: &Option<First>,
) -> Result<(), Memory>
    ensures { Does (λ u. standing_of around.new) (first_part (at (standing_of around.old) place) part.now) draft.old draft.new result }
{
    match part {
        Some(part) => lower_first(around, draft, place, part),
        None => {
            around.statement = place;
            Ok(())
        }
    }
}

/// The test of a `for`: without one it always holds.
pub fn lower_loop_test(
    setting: &Setting<'_>,
    draft: &mut Draft<'_>,
    test: &Option<Expr>,
) -> Result<Test, Memory>
    ensures { Does test_of (loop_test (setting_of setting.now) test.now) draft.old draft.new result }
{
    match test {
        Some(test) => tested(setting, draft, test),
        None => Ok(Test::new(Comparison::NotEqual, Value::Number(1), Value::Number(0))),
    }
}

/// An assignment or a call that may be absent.
pub fn lower_optional(
    setting: &Setting<'_>,
    draft: &mut Draft<'_>,
    part: &Option<Simple>,
) -> Result<(), Memory>
    ensures { Does (λ u. tt) (optional_simple (setting_of setting.now) part.now) draft.old draft.new result }
{
    match part {
        Some(part) => lower_simple(setting, draft, part),
        None => Ok(()),
    }
}

/// `return` in a function that gives a type.
pub fn lower_return(
    setting: &Setting<'_>,
    draft: &mut Draft<'_>,
    given: CType,
    value: &Option<Expr>,
) -> Result<(), Memory>
    ensures { Does (λ u. tt) (returned (setting_of setting.now) given value.now) draft.old draft.new result }
{
    match value {
        Some(value) => {
            let value = passed(setting, draft, given, value)?;
            draft.add(setting.statement, Action::Return { value: Some(value) })
        }
        None => draft.add(setting.statement, Action::Return { value: None }),
    }
}

/// The end of a body at its closing brace, in a function that gives a type, which is or is not `main`.
pub fn lower_end(
    draft: &mut Draft<'_>,
    given: CType,
    is_main: bool,
    last: Place,
) -> Result<(), Memory>
    ensures { Does (λ u. tt) (ended given is_main last) draft.old draft.new result }
{
    if is_void(given) {
        draft.add(last, Action::Return { value: None })
    } else if is_main {
        let nought = Value::Number(0);
        draft.add(
            last,
            Action::Return {
                value: Some(nought),
            },
        )
    } else {
        draft.add(last, Action::NoReturn)
    }
}
