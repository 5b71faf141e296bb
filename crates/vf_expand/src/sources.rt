//! The files of a unit.

ghost use Rattle.std.specs.Prelude.{◌≡◌, ℕ, ◌≤◌, length, IfOk, IsErrOf};
ghost use Rattle.std.specs.Option.{option_map};
ghost use Rattle.vf_base.specs.declared.refusal.Shown.TheVariants as shown;
ghost use Rattle.vf_base.specs.declared.rule.Rule.TheVariants as rules_of;
ghost use Rattle.vf_base.specs.Outside.{Rose};
ghost use Rattle.vf_snapshot.specs.declared.held.Held.TheVariants as known;
ghost use Rattle.vf_snapshot.specs.Holdings.{IsHeldAt, Stands};
ghost use Rattle.vf_preproc.specs.declared.fault.ExpandFault.TheVariants as faults;
ghost use Rattle.vf_preproc.specs.UnitText.{Library, loaded, beginning};
ghost use Rattle.vf_preproc.specs.Units.{Tells};
ghost use Rattle.vf_expand.specs.Worlds.{world, Reads, prelude_text};
ghost use Rattle.vf_expand.specs.Wholes.{named, fault_of, fault_at, Cut, NamedGives};
ghost use Rattle.vf_expand.specs.Steps.{Loads};

use std::alloc::Global;
use vf_base::{Files, Place, Rule, Text};
use vf_lexer::{LexFault, lex};
use vf_preproc::{ExpandFault, Loaded, is_ghost_path};
use vf_snapshot::{SnapFault, Snapshot};
use vf_threads::prelude;

/// The most bytes of a file.
const MOST_BYTES: usize = 1_048_576;

/// The text of the header of the prelude that has a path, where there is one.
fn prelude_text(path: &str) -> Option<&'static [u8]>
    ensures { option_map (λ text. text.now) result ≡ prelude_text path.now }
{
    let inner = path.strip_prefix("<")?.strip_suffix(">")?;
    prelude(inner)
}

/// The number of the file at the path of a header of the prelude, which needs no file.
fn get_prelude<F: Files>(
    snapshot: &mut Snapshot,
    files: &mut F,
    path: &str,
    text: &[u8],
) -> Result<u32, SnapFault>
    requires { prelude_text path.now ≡ Some text.now }
    ensures there { Stands snapshot.new path.now result }
    ensures reads { Reads
        (world snapshot.old (F.contents files.old) (F.failures files.old) (F.absences files.old) (F.put_failures files.old))
        (world snapshot.new (F.contents files.new) (F.failures files.new) (F.absences files.new) (F.put_failures files.new)) }
    ensures read_fault { IsErrOf result SnapFault.ReadFault → Rose (F.failures files.old) (F.failures files.new) }
{
    let _number = snapshot.keep(path, text)?;
    snapshot.get(files, path)
}

/// The number of the file at a path, where a header of the prelude needs no file.
fn get_source<F: Files>(
    snapshot: &mut Snapshot,
    files: &mut F,
    path: &str,
) -> Result<u32, SnapFault>
    ensures there { Stands snapshot.new path.now result }
    ensures reads { Reads
        (world snapshot.old (F.contents files.old) (F.failures files.old) (F.absences files.old) (F.put_failures files.old))
        (world snapshot.new (F.contents files.new) (F.failures files.new) (F.absences files.new) (F.put_failures files.new)) }
    ensures read_fault { IsErrOf result SnapFault.ReadFault → Rose (F.failures files.old) (F.failures files.new) }
{
    match prelude_text(path) {
        Some(text) => get_prelude(snapshot, files, path, text),
        None => snapshot.get(files, path),
    }
}

/// The refusal of a file that is too long.
fn too_long(number: u32) -> ExpandFault
    ensures { result ≡ faults.Refused (record { rule = rules_of.Size; place = beginning number; shown = shown.Nothing }) }
{
    let place = Place {
        file: number,
        line: 1,
        column: 1,
    };
    ExpandFault::refusal(Rule::Size, place)
}

/// What a fault of the snapshot is for the file that a unit is of.
fn fault_of(fault: SnapFault) -> ExpandFault
    ensures { result ≡ fault_of fault }
{
    match fault {
        SnapFault::Missing => ExpandFault::Missing,
        SnapFault::TooLong(number) => too_long(number),
        SnapFault::ReadFault => ExpandFault::ReadFault,
        SnapFault::Memory => ExpandFault::Memory,
    }
}

/// The tokens of a file's bytes.
fn cut(alloc: Global, number: u32, bytes: Text, is_ghost: bool) -> Result<Loaded, ExpandFault>
    ensures { Cut is_ghost number bytes result }
{
    if bytes.len() > MOST_BYTES {
        return Err(too_long(number));
    }
    match lex(alloc, bytes.as_bytes(), number, is_ghost) {
        Ok(tokens) => Ok(Loaded {
            number,
            bytes,
            tokens,
        }),
        Err(LexFault::Lex(place)) => Err(ExpandFault::refusal(Rule::Lex, place)),
        Err(LexFault::Memory) => Err(ExpandFault::Memory),
    }
}

/// The tokens of the file at a path.
pub fn load<F: Files>(
    alloc: Global,
    snapshot: &mut Snapshot,
    files: &mut F,
    path: &str,
) -> Result<Loaded, ExpandFault>
    ensures exact { (library : Library) → Tells library snapshot.new → NamedGives (named (library path.now)) result }
    ensures short { IfOk result (λ file. length file.bytes ≤ 1048576) }
    ensures missing { IsErrOf result ExpandFault.Missing → (number : ℕ) × IsHeldAt snapshot.new path.now number known.Missing }
    ensures read_fault { IsErrOf result ExpandFault.ReadFault → Rose (F.failures files.old) (F.failures files.new) }
    ensures reads { Reads
        (world snapshot.old (F.contents files.old) (F.failures files.old) (F.absences files.old) (F.put_failures files.old))
        (world snapshot.new (F.contents files.new) (F.failures files.new) (F.absences files.new) (F.put_failures files.new)) }
{
    match get_source(snapshot, files, path) {
        Ok(number) => {
            let bytes = Text::from_bytes(alloc, snapshot.bytes(number))?;
            cut(alloc, number, bytes, is_ghost_path(path.as_bytes()))
        }
        Err(fault) => Err(fault_of(fault)),
    }
}

/// The tokens of the file at a path, which an include at a place means.
pub fn load_header<F: Files>(
    alloc: Global,
    snapshot: &mut Snapshot,
    files: &mut F,
    path: &str,
    hash: Place,
) -> Result<Loaded, ExpandFault>
    ensures exact { (library : Library) → Tells library snapshot.new → Loads result (loaded hash (library path.now)) }
    ensures there { IsErrOf result ExpandFault.Missing → ⊥ }
    ensures read_fault { IsErrOf result ExpandFault.ReadFault → Rose (F.failures files.old) (F.failures files.new) }
    ensures reads { Reads
        (world snapshot.old (F.contents files.old) (F.failures files.old) (F.absences files.old) (F.put_failures files.old))
        (world snapshot.new (F.contents files.new) (F.failures files.new) (F.absences files.new) (F.put_failures files.new)) }
{
    match load(alloc, snapshot, files, path) {
        Ok(file) => Ok(file),
        Err(fault) => Err(fault_at(fault, hash)),
    }
}

/// What a fault of a file is where the file is included.
fn fault_at(fault: ExpandFault, hash: Place) -> ExpandFault
    ensures { result ≡ fault_at hash fault }
{
    match fault {
        ExpandFault::Missing => ExpandFault::refusal(Rule::Include, hash),
        ExpandFault::ReadFault => ExpandFault::ReadFault,
        ExpandFault::Refused(refusal) => ExpandFault::Refused(refusal),
        ExpandFault::Memory => ExpandFault::Memory,
    }
}
