//! Reading a file: expanding it, parsing its unit, and taking its core.

ghost use Rattle.std.specs.Prelude.{◌≡◌, ℕ, IfOk, IsErrOf};
ghost use Rattle.vf_base.specs.Outside.{Rose};
ghost use Rattle.vf_snapshot.specs.declared.held.Held.TheVariants as known;
ghost use Rattle.vf_snapshot.specs.Holdings.{IsHeldAt};
ghost use Rattle.vf_preproc.specs.UnitText.{Library};
ghost use Rattle.vf_preproc.specs.Units.{Tells};
ghost use Rattle.vf_expand.specs.Worlds.{world, Reads};
ghost use Rattle.vf_expand.specs.Wholes.{text_of};
ghost use Rattle.vf_module.specs.Parsing.{items_of};
ghost use Rattle.vf_tool.specs.Readings.{ItemsRead, ReadsAs, UnitReads, core_or, not_formed, result_of, unsupported};
ghost use Rattle.vf_first.specs.FirstForm.{first_form};

use std::alloc::Global;
use vf_base::{Files, Memory, Place, Refusal, Rule, RuleFault};
use vf_contractless::missing_contract;
use vf_expand::{UnitTokens, expand};
use vf_first::first_form;
use vf_module::{Parsed, parse_unit, refusal_at};
use vf_phases::check_names;
use vf_preproc::ExpandFault;
use vf_report::Stop;
use vf_snapshot::Snapshot;
use vf_syntax::item::Unit;
use vf_tree::Core;

/// What came of reading a file.
#[derive(Debug, Drop)]
pub enum Reading {
    /// The core of its unit.
    Core(Core),
    /// Its first refusal.
    Refused(Refusal),
}

/// The refusal by rule 11 at the first byte of a file.
fn unsupported(file: u32) -> Refusal
    ensures { result ≡ unsupported file }
{
    refusal_at(
        Rule::Unsupported,
        Place {
            file,
            line: 1,
            column: 1,
        },
    )
}

/// The refusal of a file that is not of the form whose rules there are, given the name of the first item that is checked
/// against a contract, where it has none.
fn not_formed(file: u32, missing: Option<Place>) -> Refusal
    ensures { result ≡ not_formed file missing }
{
    match missing {
        Some(place) => refusal_at(Rule::Contract, place),
        None => unsupported(file),
    }
}

/// The core of a unit that is of the first form.
fn read_items(alloc: Global, path: &str, file: u32, unit: &Unit) -> Result<Reading, Memory>
    ensures { IfOk result (λ r. result_of r ≡ core_or file unit.now.items (first_form path.now file unit.now.items)) }
{
    match first_form(alloc, path, file, unit)? {
        Some(core) => Ok(Reading::Core(core)),
        None => Ok(Reading::Refused(not_formed(file, missing_contract(&unit.items)))),
    }
}

/// The core of a unit that passes the phases of names, of fixpoints and of order, or its refusal in the first of them that
/// refuses it.
#[tactic(auto, using(crate::proofs::Phased::passed, crate::proofs::Phased::stopped))]
fn read_phased(
    alloc: Global,
    snapshot: &Snapshot,
    path: &str,
    tokens: &UnitTokens,
    unit: &Unit,
) -> Result<Reading, Memory>
    ensures { IfOk result (λ r. ItemsRead snapshot.now path.now (text_of tokens.now) unit.now.items (result_of r)) }
{
    match check_names(alloc, tokens, snapshot, unit) {
        Ok(_) => read_items(alloc, path, tokens.end.file, unit),
        Err(RuleFault::Refused(refusal)) => Ok(Reading::Refused(refusal)),
        Err(RuleFault::Memory) => Err(Memory),
    }
}

/// The core of a unit, or its first refusal.
fn read_unit(
    alloc: Global,
    snapshot: &Snapshot,
    path: &str,
    unit: &UnitTokens,
) -> Result<Reading, Memory>
    ensures { IfOk result (λ r. UnitReads snapshot.now path.now (text_of unit.now) (items_of (text_of unit.now)) (result_of r)) }
{
    match parse_unit(alloc, unit)? {
        Parsed::Unit(read) => read_phased(alloc, snapshot, path, unit, &read),
        Parsed::Refused(refusal) => Ok(Reading::Refused(refusal)),
    }
}

/// What the file at a path reads as. The snapshot holds what was asked for of the files.
pub fn read_file<F: Files>(
    alloc: Global,
    snapshot: &mut Snapshot,
    files: &mut F,
    path: &str,
) -> Result<Reading, Stop>
    ensures read { IfOk result (λ r. (library : Library) → Tells library snapshot.new → ReadsAs snapshot.new library path.now (result_of r)) }
    ensures missing { IsErrOf result Stop.Missing → (number : ℕ) × IsHeldAt snapshot.new path.now number known.Missing }
    ensures read_fault { IsErrOf result Stop.ReadFault → Rose (F.failures files.old) (F.failures files.new) }
    ensures readable { IsErrOf result Stop.Unreadable → ⊥ }
    ensures reads { Reads
        (world snapshot.old (F.contents files.old) (F.failures files.old) (F.absences files.old) (F.put_failures files.old))
        (world snapshot.new (F.contents files.new) (F.failures files.new) (F.absences files.new) (F.put_failures files.new)) }
{
    match expand(alloc, snapshot, files, path) {
        Ok(unit) => match read_unit(alloc, snapshot, path, &unit) {
            Ok(reading) => Ok(reading),
            Err(_) => Err(Stop::Memory),
        },
        Err(ExpandFault::Refused(refusal)) => Ok(Reading::Refused(refusal)),
        Err(ExpandFault::Missing) => Err(Stop::Missing),
        Err(ExpandFault::ReadFault) => Err(Stop::ReadFault),
        Err(ExpandFault::Memory) => Err(Stop::Memory),
    }
}
