//! Datatypes.

ghost use Rattle.std.specs.Prelude.{◌≡◌, ◌≤◌, drop, length, IfOk};
ghost use Rattle.vf_datatypes.specs.Datatypes as datatypes;
ghost use Rattle.vf_datatypes.specs.Walking.{Gives};

use crate::constructors::declare_constructors;
use crate::declaring::declare_next;
use crate::inhabited::is_inhabited;
use crate::names::{name_refusal, type_parameters};
use crate::own::Own;
use crate::refusal::refused;
use crate::stated::Stated;
use std::alloc::Global;
use vf_base::{Memory, NumberList, Rule, RuleFault, Sequence};
use vf_declared::declaration::{Datatype, GhostDeclaration};
use vf_declared::scope::Scope;
use vf_syntax::item::Constructor as Written;
use vf_syntax::written::Name;

/// The numbers from one on, up to that of the last ghost declaration.
#[tactic(auto, using(crate::proofs::Bases::numbers_end))]
fn numbers_from(alloc: Global, scope: &Scope, first: usize) -> Result<NumberList, Memory>
    ensures { IfOk result (λ ns. ns ≡ datatypes.numbers_from first (drop first scope.now.ghosts)) }
{
    let mut numbers = NumberList::new(alloc);
    for at in first..scope.ghosts.len() {
        numbers.push(at as u64)?;
    }
    Ok(numbers)
}

/// Completes a datatype whose constructors have the numbers from one on.
#[tactic(auto, using(crate::proofs::Steps::out_of_memory))]
fn complete(alloc: Global, scope: &mut Scope, own: &Own, first: usize) -> Result<(), RuleFault>
    ensures { Gives result scope.new (datatypes.complete own.now first scope.old) }
{
    let constructors = numbers_from(alloc, scope, first)?;
    scope.datatypes.push(Datatype {
        parameters: own.parameters.len(),
        constructors,
    })?;
    if !is_inhabited(alloc, scope, own.number)? {
        return Err(RuleFault::Refused(refused(Rule::Inductive, own.place)));
    }
    Ok(())
}

/// The constructors of a datatype, and that it has a value.
#[tactic(auto, using(crate::proofs::Steps::go, crate::proofs::Steps::stop))]
fn declare_body(
    alloc: Global,
    scope: &mut Scope,
    stated: &Stated,
    own: &Own,
    written: &Sequence<Written>,
) -> Result<(), RuleFault>
    ensures { Gives result scope.new (datatypes.body_behind stated.now written.now scope.old own.now) }
{
    let first = scope.ghosts.len();
    declare_constructors(alloc, scope, stated, own, written)?;
    complete(alloc, scope, own, first)
}

/// Declares a datatype with its constructors, where the datatypes that stand anywhere in the unit are known.
///
/// # Errors
///
/// Refused at the first of these in the order of the text: by rule 7 a name of the datatype, of a type parameter or
/// of a constructor that C text has; by rule 5 one that is declared already, and a sort that is not declared; by rule 6
/// a datatype over another number of sorts than it has type parameters, and the datatype itself at other sorts than
/// its own parameters in order; by rule 9, at its name, a datatype that uses one which stands later, or that has no
/// value. Want of memory is the answer too where the search for a value would look at too many sorts.
#[tactic(auto, using(crate::proofs::Steps::refused_first, crate::proofs::Steps::parameters_stop, crate::proofs::Steps::body_goes, crate::proofs::Steps::out_of_memory))]
pub fn declare_datatype(
    alloc: Global,
    scope: &mut Scope,
    stated: &Stated,
    name: &Name,
    parameters: &Sequence<Name>,
    constructors: &Sequence<Written>,
) -> Result<(), RuleFault>
    ensures { Gives result scope.new (datatypes.datatype_behind stated.now name.now parameters.now constructors.now scope.old) }
{
    if let Some(refusal) = name_refusal(scope, name) {
        return Err(RuleFault::Refused(refusal));
    }
    let number = scope.datatypes.len();
    declare_next(alloc, scope, name)?;
    scope.declare_ghost(alloc, GhostDeclaration::Datatype(number))?;
    let own = Own {
        place: name.place,
        number,
        parameters: type_parameters(alloc, scope, parameters)?,
    };
    declare_body(alloc, scope, stated, &own, constructors)
}
