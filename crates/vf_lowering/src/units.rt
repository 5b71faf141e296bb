//! The functions of whole units.

ghost use Rattle.vf_lowering.specs.Units.{IsErasure, IsPlain, IsUnit};

use std::alloc::Global;
use vf_annotations::Ghosts;
use vf_base::{RuleFault, Sequence};
use vf_cores::{Core, lower_items};
use vf_declared::scope::Scope;
use vf_erase::{PlainFunction, erase_all};
use vf_gathering::datatypes_of;
use vf_resolve::{Files, begin};
use vf_syntax::item::Item;
use vf_walk::NoAnnotations;

/// What a unit declares, and its functions with bodies in steps, in the order of the text.
#[derive(Drop)]
pub struct LoweredUnit<'a> {
    pub scope: Scope,
    pub cores: Vec<Core<'a>>,
}

/// What a unit declares, its annotations included, and its functions in steps.
///
/// # Errors
///
/// Refused at the first fault in the order of the text, by the rules of names, of types and sorts, of ghost names in C
/// text, of datatypes without a value, and of what is not supported.
#[tactic(auto, using(crate::proofs::Wholes::unit_memory, crate::proofs::Wholes::unit_stops))]
pub fn lower_unit<'a>(
    alloc: Global,
    files: Files,
    items: &'a Sequence<Item>,
) -> Result<LoweredUnit<'a>, RuleFault>
    ensures { IsUnit files items.now result }
{
    let mut scope = begin(alloc, files, items)?;
    let ghosts = Ghosts {
        alloc,
        stated: datatypes_of(alloc, items)?,
    };
    let cores = lower_items(alloc, &mut scope, &ghosts, items)?;
    Ok(LoweredUnit { scope, cores })
}

/// The functions of a unit in steps in its plain reading, whose items hold no annotations.
///
/// Where the items are those of a unit that is accepted, without its annotations, no refusal comes, and the functions are
/// those of that unit without their annotations.
///
/// # Errors
///
/// Refused at the first fault in the order of the text, as [`lower_unit`] refuses.
#[tactic(auto, using(crate::proofs::Wholes::plain_memory, crate::proofs::Wholes::plain_stops, crate::proofs::Wholes::plain_comes, crate::proofs::Wholes::erasure_memory, crate::proofs::Wholes::erasure_comes))]
pub fn plain_of<'a>(
    alloc: Global,
    files: Files,
    items: &'a Sequence<Item>,
) -> Result<Vec<PlainFunction<'a>>, RuleFault>
    ensures comes { IsPlain files items.now result }
    ensures erased { IsErasure files items.now result }
{
    let mut scope = begin(alloc, files, items)?;
    let cores = lower_items(alloc, &mut scope, &NoAnnotations, items)?;
    let plains = erase_all(alloc, cores)?;
    Ok(plains)
}
