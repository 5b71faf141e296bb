//! What stands first in a `for`, its test and its step, as `vf_bodies` lowers them.

ghost use Rattle.std.specs.Prelude.{◌≡◌, Some, IfOk};
ghost use Rattle.vf_lower.specs.Did.{Does};
ghost use Rattle.vf_lower.specs.Shown.{setting_of, test_of};
ghost use Rattle.vf_lower.specs.Lowering.{taken};
ghost use Rattle.vf_lower.specs.Statements.{at, declared, first_part, loop_test, optional_simple, type_in, with_variable};
ghost use Rattle.vf_bodies.specs.Standing.{standing_of};

use crate::put::put_local;
use vf_base::{Memory, Place, Refusal};
use vf_bodies::{Surroundings, lower_simple};
use vf_core::Comparison;
use vf_declared::ctype::CType;
use vf_lower::{Draft, Setting, Test, tested};
use vf_steps::Value;
use vf_syntax::expr::Expr;
use vf_syntax::simple::{First, Simple};
use vf_syntax::written::Name;
use vf_typing::written_type;

/// The type that a written type is, and `void` where it is none.
fn type_in(found: Result<CType, Refusal>) -> CType
    ensures { result ≡ type_in found }
{
    match found {
        Ok(ctype) => ctype,
        Err(_) => CType::Void,
    }
}

/// Declares a local of a type, with a number that no other has: that number.
fn declare(
    around: &mut Surroundings,
    draft: &mut Draft<'_>,
    name: &Name,
    ctype: CType,
) -> Result<usize, Memory>
    ensures taken { Does (λ n. n) (taken ctype) draft.old draft.new result }
    ensures declared { IfOk result (λ n. standing_of around.new ≡ with_variable (standing_of around.old) name.now.text ctype n) }
{
    let local = draft.take(ctype)?;
    around.declare(name, ctype, local)?;
    Ok(local)
}

/// A declaration of a local of a type, with its first value.
fn declare_set(
    around: &mut Surroundings,
    draft: &mut Draft<'_>,
    name: &Name,
    ctype: CType,
    value: &Expr,
) -> Result<(), Memory>
    ensures { Does (λ u. standing_of around.new) (declared (standing_of around.old) name.now.text ctype (Some value.now)) draft.old draft.new result }
{
    let local = declare(around, draft, name, ctype)?;
    put_local(&around.setting(), draft, local, ctype, value)?;
    Ok(())
}

/// What stands first in a `for` at a place, where something does.
fn lower_first(
    around: &mut Surroundings,
    draft: &mut Draft<'_>,
    place: Place,
    part: &First,
) -> Result<(), Memory>
    ensures { Does (λ u. standing_of around.new) (first_part (at (standing_of around.old) place) (Some part.now)) draft.old draft.new result }
{
    around.statement = place;
    match part {
        First::Declaration(written, name, value) => {
            let ctype = type_in(written_type(&around.scope, written));
            declare_set(around, draft, name, ctype, value)
        }
        First::Simple(part) => lower_simple(&around.setting(), draft, part),
    }
}

/// What stands first in a `for` at a place.
pub fn lower_first_part(
    around: &mut Surroundings,
    draft: &mut Draft<'_>,
    place: Place,
    part: &Option<First>,
) -> Result<(), Memory>
    ensures { Does (λ u. standing_of around.new) (first_part (at (standing_of around.old) place) part.now) draft.old draft.new result }
{
    match part {
        Some(part) => lower_first(around, draft, place, part),
        None => {
            around.statement = place;
            Ok(())
        }
    }
}

/// The test of a `for`: without one it always holds.
pub fn lower_loop_test(
    setting: &Setting<'_>,
    draft: &mut Draft<'_>,
    test: &Option<Expr>,
) -> Result<Test, Memory>
    ensures { Does test_of (loop_test (setting_of setting.now) test.now) draft.old draft.new result }
{
    match test {
        Some(test) => tested(setting, draft, test),
        None => Ok(Test::new(Comparison::NotEqual, Value::Number(1), Value::Number(0))),
    }
}

/// An assignment or a call that may be absent.
pub fn lower_optional(
    setting: &Setting<'_>,
    draft: &mut Draft<'_>,
    part: &Option<Simple>,
) -> Result<(), Memory>
    ensures { Does (λ u. tt) (optional_simple (setting_of setting.now) part.now) draft.old draft.new result }
{
    match part {
        Some(part) => lower_simple(setting, draft, part),
        None => Ok(()),
    }
}
