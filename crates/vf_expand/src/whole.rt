//! The text of a whole unit.

ghost use Rattle.std.specs.Prelude.{◌≡◌, ℕ, ◌≤◌, ◌<◌, ◌+◌, ◌^◌, [], length, IfOk, IsErrOf};
ghost use Rattle.vf_base.specs.Outside.{Rose};
ghost use Rattle.vf_snapshot.specs.declared.held.Held.TheVariants as known;
ghost use Rattle.vf_snapshot.specs.Holdings.{IsHeldAt};
ghost use Rattle.vf_preproc.specs.UnitText.{Library, begun};
ghost use Rattle.vf_preproc.specs.Units.{Tells, unit_of};
ghost use Rattle.vf_expand.specs.Worlds.{world, Reads};
ghost use Rattle.vf_expand.specs.Remembered.{WalkRemembers};
ghost use Rattle.vf_lexer.specs.Tokens.{place_behind};
ghost use Rattle.vf_preproc.specs.Answers.{Gives};
ghost use Rattle.vf_expand.specs.Wholes.{no_unit, end_of, text_of, text_of_unit, text_of_file, counted, UnitGives, FileGives, Starts};

use crate::frames::open_file;
use crate::includes::includes_of;
use crate::sources::load;
use crate::state::Walk;
use crate::steps::walk_on;
use std::alloc::Global;
use vf_base::{Files, Memory, NumberList, Place, Rule, Sequence, Text};
use vf_lexer::{Token, TokenList};
use vf_names::Names;
use vf_preproc::{ExpandFault, Loaded, MOST_TOKENS, NameTable, Unit, names_in};
use vf_snapshot::Snapshot;

/// How many tokens of macros may be looked at in a unit.
///
/// Macros that stand for nothing may be replaced without end on a short text. Where more than so many
/// replacements are due there is no memory for the unit.
const MOST_REPLACEMENTS: u64 = 16_777_216;

/// The tokens of a unit.
#[derive(Debug, Drop)]
pub struct UnitTokens {
    pub tokens: TokenList,
    /// The numbers of the headers in the order of their first includes.
    pub headers: NumberList,
    /// For the file that the unit is of, and then for each header, the numbers of the files of which it consists:
    /// itself, and those that it includes, directly or through others.
    pub includes: Sequence<NumberList>,
    /// The place behind the last byte of the file that the unit is of.
    pub end: Place,
}

/// The place behind a byte.
fn place_behind(place: Place, byte: u8) -> Place
    requires line { place.line + 1 < 2 ^ 32 }
    requires column { place.column + 1 < 2 ^ 32 }
    ensures same { result ≡ place_behind place byte }
    ensures line { result.line ≤ place.line + 1 }
    ensures column { result.column ≤ place.column + 1 }
{
    if byte == b'\n' {
        Place {
            file: place.file,
            line: place.line + 1,
            column: 1,
        }
    } else {
        Place {
            file: place.file,
            line: place.line,
            column: place.column + 1,
        }
    }
}

/// The place behind the last byte of a file.
fn end_of(number: u32, bytes: &[u8]) -> Place
    requires { length bytes.now ≤ 1048576 }
    ensures { result ≡ end_of number bytes.now }
{
    let mut place = Place {
        file: number,
        line: 1,
        column: 1,
    };
    for byte in bytes {
        place = place_behind(place, *byte);
    }
    place
}

/// A unit of whose file with some tokens nothing was followed yet.
fn begin(alloc: Global, path: &[u8], tokens: &[Token]) -> Result<Unit, Memory>
    ensures begun { IfOk result (λ unit. unit_of unit ≡ begun no_unit path.now tokens.now) }
    ensures empty { IfOk result (λ unit. unit.tokens ≡ []) }
{
    let mut paths = Names::new(alloc);
    let _number = paths.put(path)?;
    let mut names = NameTable::new(alloc);
    names.push(names_in(alloc, tokens)?)?;
    let mut complete = Vec::new(alloc);
    complete.push(None)?;
    Ok(Unit {
        alloc,
        tokens: Sequence::new(alloc),
        paths,
        names,
        complete,
        headers: NumberList::new(alloc),
        budget: MOST_REPLACEMENTS,
    })
}

/// The walk over the files of a unit, at its beginning.
fn start(alloc: Global, path: &[u8], file: Loaded) -> Result<Walk, Memory>
    ensures starts { IfOk result (λ walk. Starts path.now file walk) }
    ensures few { IfOk result (λ walk. length walk.unit.tokens ≤ 200001) }
    ensures remembers { IfOk result WalkRemembers }
{
    Ok(Walk {
        unit: begin(alloc, path, file.tokens.as_slice())?,
        stack: Vec::new(alloc),
        current: open_file(alloc, Text::from_bytes(alloc, path)?, file, 0)?,
    })
}

/// A unit that has no token too many.
fn counted(unit: Unit, end: Place) -> Result<UnitTokens, ExpandFault>
    ensures { Gives text_of result (counted end (unit_of unit)) }
{
    if let Some(token) = unit.tokens.get(MOST_TOKENS) {
        return Err(ExpandFault::refusal(Rule::Size, token.place));
    }
    let includes = includes_of(end.file, &unit)?;
    Ok(UnitTokens {
        tokens: unit.tokens,
        headers: unit.headers,
        includes,
        end,
    })
}

/// The text of the unit of a file that was read.
fn expand_file<F: Files>(
    alloc: Global,
    snapshot: &mut Snapshot,
    files: &mut F,
    path: &[u8],
    file: Loaded,
) -> Result<UnitTokens, ExpandFault>
    requires { length file.bytes ≤ 1048576 }
    ensures exact { (library : Library) → Tells library snapshot.new → FileGives (text_of_file library path.now file) result }
    ensures there { IsErrOf result ExpandFault.Missing → ⊥ }
    ensures read_fault { IsErrOf result ExpandFault.ReadFault → Rose (F.failures files.old) (F.failures files.new) }
    ensures reads { Reads
        (world snapshot.old (F.contents files.old) (F.failures files.old) (F.absences files.old) (F.put_failures files.old))
        (world snapshot.new (F.contents files.new) (F.failures files.new) (F.absences files.new) (F.put_failures files.new)) }
{
    let end = end_of(file.number, file.bytes.as_bytes());
    let walk = start(alloc, path, file)?;
    let unit = walk_on(walk, snapshot, files)?;
    counted(unit, end)
}

/// The text of a unit: the tokens of the file at a path, with those of each header at its first include,
/// in which macros are replaced.
///
/// Each file is read once into the snapshot, and a header of the prelude is kept there with its text.
///
/// # Errors
///
/// Missing where there is no file at the path, ReadFault where a file could not be read, and Refused by
/// rule 1, 2, 3 or 43: where a file cannot be cut into tokens; where an included file is missing, is being
/// expanded already or stands deeper than 32, or is no header of the prelude; where a directive is none that
/// there is; and where a file has more than 1,048,576 bytes, or the unit more than 200,000 tokens.
pub fn expand<F: Files>(
    alloc: Global,
    snapshot: &mut Snapshot,
    files: &mut F,
    path: &str,
) -> Result<UnitTokens, ExpandFault>
    ensures exact { (library : Library) → Tells library snapshot.new → UnitGives (text_of_unit library path.now) result }
    ensures missing { IsErrOf result ExpandFault.Missing → (number : ℕ) × IsHeldAt snapshot.new path.now number known.Missing }
    ensures read_fault { IsErrOf result ExpandFault.ReadFault → Rose (F.failures files.old) (F.failures files.new) }
    ensures reads { Reads
        (world snapshot.old (F.contents files.old) (F.failures files.old) (F.absences files.old) (F.put_failures files.old))
        (world snapshot.new (F.contents files.new) (F.failures files.new) (F.absences files.new) (F.put_failures files.new)) }
{
    let file = load(alloc, snapshot, files, path)?;
    expand_file(alloc, snapshot, files, path.as_bytes(), file)
}
