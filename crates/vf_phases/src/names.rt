//! The phases of names, of fixpoints and of order, one after the other.

ghost use Rattle.vf_resolve.specs.UnitFiles.{files_of};
ghost use Rattle.vf_phases.specs.Phases.{IsPhased};

use crate::order::check_order;
use std::alloc::Global;
use vf_base::RuleFault;
use vf_declared::scope::Scope;
use vf_expand::UnitTokens;
use vf_recursion::check_fixpoints;
use vf_resolve::{files_of, resolve};
use vf_snapshot::Snapshot;
use vf_syntax::item::Unit;

/// What a unit declares, where its names, types and sorts are right, its fixpoints have values, and the order of no two
/// operands matters. What expanding gave and the snapshot that it was read into tell which files see one another.
///
/// # Errors
///
/// Refused in the first phase that refuses the unit: at the first fault of its names, types and sorts; else by rule 10 at
/// the first fixpoint that has no value; else by rule 8 at the first place where the order of two operands matters.
#[tactic(auto, using(crate::proofs::Phases::memory, crate::proofs::Phases::by_names, crate::proofs::Phases::passes))]
pub fn check_names(
    alloc: Global,
    unit_tokens: &UnitTokens,
    snapshot: &Snapshot,
    unit: &Unit,
) -> Result<Scope, RuleFault>
    ensures { IsPhased (files_of unit_tokens.now snapshot.now) unit.now.items result }
{
    let files = files_of(alloc, unit_tokens, snapshot)?;
    let scope = resolve(alloc, files, &unit.items)?;
    check_fixpoints(alloc, &unit.items)?;
    check_order(unit)?;
    Ok(scope)
}
