//! Parameters: the first locals of a function.

ghost use Rattle.std.specs.Prelude.{◌≡◌};
ghost use Rattle.vf_walk.specs.Items.{listed};
ghost use Rattle.vf_lower.specs.Did.{Does};
ghost use Rattle.vf_lower.specs.Statements.{type_in};
ghost use Rattle.vf_bodies.specs.Standing.{standing_of};
ghost use Rattle.vf_functions.specs.Definitions.{given, parameter, parameters};

use vf_base::{Memory, Refusal, Sequence};
use vf_bodies::Surroundings;
use vf_declared::ctype::CType;
use vf_declared::scope::Scope;
use vf_lower::Draft;
use vf_syntax::item::{Parameters, Typed};
use vf_syntax::written::ResultType;
use vf_typing::written_type;

/// The type that a written type is, and `void` where it is none.
fn type_in(found: Result<CType, Refusal>) -> CType
    ensures { result ≡ type_in found }
{
    match found {
        Ok(ctype) => ctype,
        Err(_) => CType::Void,
    }
}

/// The type of what a function gives.
pub fn given(scope: &Scope, written: &ResultType) -> CType
    ensures { result ≡ given scope.now written.now }
{
    match written {
        ResultType::Void(_) => CType::Void,
        ResultType::Value(written) => type_in(written_type(scope, written)),
    }
}

/// A parameter is a local that has a value.
fn lower_parameter(
    around: &mut Surroundings,
    draft: &mut Draft<'_>,
    typed: &Typed,
) -> Result<(), Memory>
    ensures { Does (λ u. standing_of around.new) (parameter (standing_of around.old) typed.now) draft.old draft.new result }
{
    let ctype = type_in(written_type(&around.scope, &typed.written));
    let local = draft.take(ctype)?;
    around.declare(&typed.name, ctype, local)?;
    Ok(())
}

/// Parameters in order.
fn lower_list(
    around: &mut Surroundings,
    draft: &mut Draft<'_>,
    list: &Sequence<Typed>,
) -> Result<(), Memory>
    ensures { Does (λ u. standing_of around.new) (parameters (standing_of around.old) list.now) draft.old draft.new result }
{
    for at in 0..list.len() {
        let Some(typed) = list.get(at) else {
            return Ok(());
        };
        lower_parameter(around, draft, typed)?;
    }
    Ok(())
}

/// The parameters of a function: each takes a local, and is visible behind itself.
pub fn lower_parameters(
    around: &mut Surroundings,
    draft: &mut Draft<'_>,
    written: &Parameters,
) -> Result<(), Memory>
    ensures { Does (λ u. standing_of around.new) (parameters (standing_of around.old) (listed written.now)) draft.old draft.new result }
{
    match written {
        Parameters::Void => Ok(()),
        Parameters::Listed(list) => lower_list(around, draft, list),
    }
}
