//! Constructors.

ghost use Rattle.std.specs.Prelude.{◌≡◌, Ok, Err};
ghost use Rattle.std.specs.Option.{option_copied};
ghost use Rattle.vf_sorting.specs.Answers.{Answers};
ghost use Rattle.vf_datatypes.specs.Arguments.{sorts_within};
ghost use Rattle.vf_datatypes.specs.Datatypes.{constructor_behind, constructors_behind};
ghost use Rattle.vf_datatypes.specs.Walking.{Gives};

use crate::arguments::sorts_of;
use crate::declaring::declare_next;
use crate::names::name_refusal;
use crate::own::Own;
use crate::stated::Stated;
use std::alloc::Global;
use vf_base::{RuleFault, Sequence};
use vf_declared::declaration::{Constructor, GhostDeclaration};
use vf_declared::scope::Scope;
use vf_sorts::SortList;
use vf_syntax::item::{Constructor as Written, ConstructorArgument};

/// The sorts of arguments that may be absent.
fn sorts_within(
    alloc: Global,
    scope: &Scope,
    stated: &Stated,
    own: &Own,
    written: Option<&Sequence<ConstructorArgument>>,
) -> Result<SortList, RuleFault>
    ensures { Answers (λ ts. sorts_within scope.now stated.now own.now (option_copied written.entry) ≡ Ok ts) (λ r. sorts_within scope.now stated.now own.now (option_copied written.entry) ≡ Err r) result }
{
    match written {
        Some(list) => sorts_of(alloc, scope, stated, own, list),
        None => Ok(SortList::new(alloc)),
    }
}

/// Declares a constructor.
#[tactic(auto, using(crate::proofs::Steps::refused_first, crate::proofs::Steps::sorts_stop, crate::proofs::Steps::constructor_goes, crate::proofs::Steps::out_of_memory))]
fn declare_constructor(
    alloc: Global,
    scope: &mut Scope,
    stated: &Stated,
    own: &Own,
    written: &Written,
) -> Result<(), RuleFault>
    ensures { Gives result scope.new (constructor_behind stated.now own.now written.now scope.old) }
{
    if let Some(refusal) = name_refusal(scope, &written.name) {
        return Err(RuleFault::Refused(refusal));
    }
    declare_next(alloc, scope, &written.name)?;
    let arguments = sorts_within(alloc, scope, stated, own, written.arguments.as_ref())?;
    scope.declare_ghost(
        alloc,
        GhostDeclaration::Constructor(Constructor {
            datatype: own.number,
            arguments,
        }),
    )?;
    Ok(())
}

/// Declares constructors one after the other.
#[tactic(auto, using(crate::proofs::Loops::constructors_stop, crate::proofs::Loops::constructors_none, crate::proofs::Loops::constructors_end))]
pub fn declare_constructors(
    alloc: Global,
    scope: &mut Scope,
    stated: &Stated,
    own: &Own,
    written: &Sequence<Written>,
) -> Result<(), RuleFault>
    ensures { Gives result scope.new (constructors_behind stated.now own.now written.now scope.old) }
{
    for at in 0..written.len() {
        let Some(constructor) = written.get(at) else {
            return Ok(());
        };
        declare_constructor(alloc, scope, stated, own, constructor)?;
    }
    Ok(())
}
