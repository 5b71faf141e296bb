//! The items of a unit: its phases behind the tree, its steps, and its manifest.

ghost use Rattle.std.specs.Prelude.{◌≡◌, IfOk, MatchResult, None, Some, map};
ghost use Rattle.vf_base.specs.declared.rule.Rule.TheVariants.{Order};
ghost use Rattle.vf_cores.specs.Shown.{cores_shown};
ghost use Rattle.vf_order.specs.Statements.{first_unordered};
ghost use Rattle.vf_expand.specs.Wholes.{text_of};
ghost use Rattle.vf_functions.specs.Erased.{erased_core};
ghost use Rattle.vf_phases.specs.Phases.{IsRefusedAt};
ghost use Rattle.vf_plain.specs.Identities.{paths_of};
ghost use Rattle.vf_plain.specs.Units.{unit_tree};
ghost use Rattle.vf_program.specs.Units.{unit_of};
ghost use Rattle.vf_promises.specs.Lines.{lines_of};
ghost use Rattle.vf_module.specs.Readings.{AreRead, PassesLater};

use crate::parsing::refusal_at;
use std::alloc::Global;
use vf_base::{Memory, Refusal, Rule, RuleFault};
use vf_cores::Core;
use vf_declared::scope::Scope;
use vf_erase::erase_all;
use vf_expand::UnitTokens;
use vf_lowering::{LoweredUnit, lower_unit};
use vf_manifest::Manifest;
use vf_order::first_unordered;
use vf_plain::plain_unit;
use vf_program::PlainUnit;
use vf_promises::promised;
use vf_recursion::check_fixpoints;
use vf_resolve::files_of;
use vf_snapshot::Snapshot;
use vf_syntax::item::Unit;

/// A unit that passed its phases: its plain reading in the core of whole programs, and the lines of its manifest.
#[derive(Drop)]
pub struct ReadUnit {
    pub plain: PlainUnit,
    pub manifest: Manifest,
}

/// Whether the order of no two operands of a unit matters.
fn check_order(unit: &Unit) -> Result<(), Refusal>
    ensures { MatchResult result
        (λ _. first_unordered unit.now.items ≡ None)
        (IsRefusedAt Order (first_unordered unit.now.items)) }
{
    match first_unordered(unit) {
        Some(place) => Err(refusal_at(Rule::Order, place)),
        None => Ok(()),
    }
}

/// Whether a unit passes the phases of fixpoints and of the order of operands.
fn check_later(alloc: Global, unit: &Unit) -> Result<(), RuleFault>
    ensures { PassesLater unit.now.items result }
{
    check_fixpoints(alloc, &unit.items)?;
    check_order(unit)?;
    Ok(())
}

/// A unit in the core of whole programs, by what is declared in it and its functions in steps.
fn plain_of(
    alloc: Global,
    snapshot: &Snapshot,
    scope: &Scope,
    cores: Vec<Core<'_>>,
) -> Result<PlainUnit, Memory>
    ensures { IfOk result (λ p. unit_of p ≡ unit_tree (paths_of snapshot.now) scope.now (map erased_core (cores_shown cores.entry.items))) }
{
    let plains = erase_all(alloc, cores)?;
    plain_unit(alloc, snapshot, scope, &plains)
}

/// What a unit that passes its phases reads as, by what is declared in it and its functions in steps.
fn read_scope(
    alloc: Global,
    snapshot: &Snapshot,
    tokens: &UnitTokens,
    unit: &Unit,
    scope: &Scope,
    cores: Vec<Core<'_>>,
) -> Result<ReadUnit, Memory>
    ensures plain { IfOk result (λ r. unit_of r.plain ≡ unit_tree (paths_of snapshot.now) scope.now (map erased_core (cores_shown cores.entry.items))) }
    ensures manifest { IfOk result (λ r. r.manifest ≡ lines_of snapshot.now scope.now tokens.now.headers unit.now.items) }
{
    let plain = plain_of(alloc, snapshot, scope, cores)?;
    let manifest = promised(alloc, snapshot, scope, &tokens.headers, &unit.items)?;
    Ok(ReadUnit { plain, manifest })
}

/// The same by its functions in steps beside what is declared in it, which is let go here alone.
fn read_lowered(
    alloc: Global,
    snapshot: &Snapshot,
    tokens: &UnitTokens,
    unit: &Unit,
    lowered: LoweredUnit<'_>,
) -> Result<ReadUnit, Memory>
    ensures plain { IfOk result (λ r. unit_of r.plain ≡ unit_tree (paths_of snapshot.now) lowered.entry.scope (map erased_core (cores_shown lowered.entry.cores.items))) }
    ensures manifest { IfOk result (λ r. r.manifest ≡ lines_of snapshot.now lowered.entry.scope tokens.now.headers unit.now.items) }
{
    let LoweredUnit { scope, cores } = lowered;
    read_scope(alloc, snapshot, tokens, unit, &scope, cores)
}

/// The plain unit and the manifest of items that pass the phases.
///
/// # Errors
///
/// Refused in the first phase that refuses the unit: at the first fault of its names, types and sorts; else by rule 10 at
/// the first fixpoint that has no value; else by rule 8 at the first place where the order of two operands matters.
#[tactic(auto, using(crate::proofs::Passing::memory, crate::proofs::Passing::by_names, crate::proofs::Passing::passes))]
pub fn read_items(
    alloc: Global,
    snapshot: &Snapshot,
    tokens: &UnitTokens,
    unit: &Unit,
) -> Result<ReadUnit, RuleFault>
    ensures { AreRead snapshot.now (text_of tokens.now) unit.now.items result }
{
    let files = files_of(alloc, tokens, snapshot)?;
    let lowered = lower_unit(alloc, files, &unit.items)?;
    check_later(alloc, unit)?;
    let read = read_lowered(alloc, snapshot, tokens, unit, lowered)?;
    Ok(read)
}
