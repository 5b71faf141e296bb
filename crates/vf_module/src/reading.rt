//! Reading a file to its plain unit and its manifest.

ghost use Rattle.std.specs.Prelude.{◌≡◌, ℕ, IfOk, IsErrOf};
ghost use Rattle.vf_base.specs.Outside.{Rose};
ghost use Rattle.vf_snapshot.specs.declared.held.Held.TheVariants as known;
ghost use Rattle.vf_snapshot.specs.Holdings.{IsHeldAt};
ghost use Rattle.vf_preproc.specs.UnitText.{Library};
ghost use Rattle.vf_preproc.specs.Units.{Tells};
ghost use Rattle.vf_expand.specs.Worlds.{world, Reads};
ghost use Rattle.vf_expand.specs.Wholes.{text_of};
ghost use Rattle.vf_module.specs.Parsing.{items_of};
ghost use Rattle.vf_module.specs.Readings.{ReadsAs, UnitReads, result_of};

use crate::items::{ReadUnit, read_items};
use crate::parsing::{Parsed, parse_unit};
use std::alloc::Global;
use vf_base::{Files, Memory, Refusal, RuleFault};
use vf_expand::{UnitTokens, expand};
use vf_preproc::ExpandFault;
use vf_snapshot::Snapshot;

/// What came of reading a file.
#[derive(Drop)]
pub enum Reading {
    /// Its plain unit and the lines of its manifest.
    Read(ReadUnit),
    /// Its first refusal.
    Refused(Refusal),
}

/// Why nothing came of reading a file.
#[derive(Clone, Copy, Debug, PartialEq, Eq)]
pub enum UnitFault {
    /// It is not there.
    Missing,
    /// It, or a file that it includes, could not be read.
    ReadFault,
    /// There is no memory left.
    Memory,
}

/// What the tokens of a unit read as.
fn read_tokens(alloc: Global, snapshot: &Snapshot, tokens: &UnitTokens) -> Result<Reading, Memory>
    ensures { IfOk result (λ r. UnitReads snapshot.now (text_of tokens.now) (items_of (text_of tokens.now)) (result_of r)) }
{
    match parse_unit(alloc, tokens)? {
        Parsed::Unit(unit) => match read_items(alloc, snapshot, tokens, &unit) {
            Ok(read) => Ok(Reading::Read(read)),
            Err(RuleFault::Refused(refusal)) => Ok(Reading::Refused(refusal)),
            Err(RuleFault::Memory) => Err(Memory),
        },
        Parsed::Refused(refusal) => Ok(Reading::Refused(refusal)),
    }
}

/// What the file at a path reads as. The snapshot holds what was asked for of the files.
///
/// # Errors
///
/// Where the file is not there, where a file could not be read, or where memory ran out.
pub fn read_unit<F: Files>(
    alloc: Global,
    snapshot: &mut Snapshot,
    files: &mut F,
    path: &str,
) -> Result<Reading, UnitFault>
    ensures read { IfOk result (λ r. (library : Library) → Tells library snapshot.new → ReadsAs snapshot.new library path.now (result_of r)) }
    ensures missing { IsErrOf result UnitFault.Missing → (number : ℕ) × IsHeldAt snapshot.new path.now number known.Missing }
    ensures read_fault { IsErrOf result UnitFault.ReadFault → Rose (F.failures files.old) (F.failures files.new) }
    ensures reads { Reads
        (world snapshot.old (F.contents files.old) (F.failures files.old) (F.absences files.old) (F.put_failures files.old))
        (world snapshot.new (F.contents files.new) (F.failures files.new) (F.absences files.new) (F.put_failures files.new)) }
{
    match expand(alloc, snapshot, files, path) {
        Ok(tokens) => match read_tokens(alloc, snapshot, &tokens) {
            Ok(reading) => Ok(reading),
            Err(_) => Err(UnitFault::Memory),
        },
        Err(ExpandFault::Refused(refusal)) => Ok(Reading::Refused(refusal)),
        Err(ExpandFault::Missing) => Err(UnitFault::Missing),
        Err(ExpandFault::ReadFault) => Err(UnitFault::ReadFault),
        Err(ExpandFault::Memory) => Err(UnitFault::Memory),
    }
}
