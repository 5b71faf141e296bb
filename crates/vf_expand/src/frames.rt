//! Files whose lines are being followed.

ghost use Rattle.std.specs.Prelude.{◌≡◌, [], ◌≤◌, ◌<◌, ◌^◌, length, IfOk, OnOk};
ghost use Rattle.vf_preproc.specs.Directives.{lines_of};
ghost use Rattle.vf_preproc.specs.UnitText.{unread};
ghost use Rattle.vf_preproc.specs.LineSteps.{file_of};
ghost use Rattle.vf_preproc.specs.Scopes.{scope_of};
ghost use Rattle.vf_preproc.specs.Units.{unit_of};
ghost use Rattle.vf_expand.specs.Walks.{going_of};
ghost use Rattle.vf_expand.specs.Weights.{left_of, LineFalls};
ghost use Rattle.vf_expand.specs.Steps.{LineGives, FirstGives, WantedGives};
ghost use Rattle.vf_expand.specs.Remembered.{Keeps};

use std::alloc::Global;
use std::collections::BTreeMap;
use vf_base::{Memory, Place, Text};
use vf_lexer::{Token, TokenList};
use vf_preproc::{
    ExpandFault, File, Join, Loaded, Scope, Step, Unit, first_line, follow_line, opened, target,
};

/// A file whose lines are being followed.
#[derive(Drop)]
pub struct Open {
    pub path: Text,
    pub bytes: Text,
    pub tokens: TokenList,
    /// How many of the tokens stand on lines that were followed.
    pub at: usize,
    pub scope: Scope,
    /// What is remembered of the headers that it has joined, by their numbers among the files that were begun.
    pub joins: BTreeMap<usize, Join>,
}

/// A file that waits for the end of a header which it includes.
#[derive(Drop)]
pub struct Waiting {
    pub file: Open,
    /// Where the include stands.
    pub hash: Place,
    /// Whether the include is ghost text.
    pub is_ghost: bool,
    /// The header's number among the files that were begun.
    pub number: usize,
}

/// An include that is to be done.
#[derive(Drop)]
pub struct Include {
    pub path: Text,
    /// Where it stands.
    pub hash: Place,
    /// Whether it is ghost text.
    pub is_ghost: bool,
}

/// What was done of a file.
#[derive(Drop)]
pub enum Line {
    /// Nothing, since it is at its end.
    End,
    /// Its next line.
    Done,
    /// Its next line, of which this is left to do.
    Include(Include),
}

/// The beginning of the file with a number among those that were begun.
pub fn open_file(alloc: Global, path: Text, file: Loaded, number: usize) -> Result<Open, Memory>
    ensures left { IfOk result (λ o. left_of o < 2 ^ 64) }
    ensures joins { IfOk result (λ o. o.joins.entries ≡ []) }
    ensures going { IfOk result (λ o. going_of o ≡ record {
      file = record { path = path; bytes = file.bytes };
      lines = lines_of file.tokens;
      scope = unread number;
    }) }
{
    let _size = file.tokens.len();
    let scope = opened(alloc, number)?;
    Ok(Open {
        path,
        bytes: file.bytes,
        tokens: file.tokens,
        at: 0,
        scope,
        joins: BTreeMap::new(alloc),
    })
}

/// The include that a line is, in ghost text or not.
fn wanted(
    alloc: Global,
    file: File<'_>,
    tokens: &[Token],
    is_ghost: bool,
) -> Result<Include, ExpandFault>
    requires { 0 < length tokens.now }
    ensures { WantedGives (file_of file.entry) tokens.now is_ghost result }
{
    let first = &tokens[0];
    let path = target(
        alloc,
        is_ghost,
        file.path,
        file.bytes,
        first.place,
        &tokens[1..],
    )?;
    Ok(Include {
        path,
        hash: first.place,
        is_ghost,
    })
}

/// Follows a line, of which an include is left to do.
fn follow_first(
    unit: &mut Unit,
    scope: &mut Scope,
    file: File<'_>,
    tokens: &[Token],
) -> Result<Option<Include>, ExpandFault>
    requires few { length unit.old.tokens ≤ 200001 }
    requires some { 0 < length tokens.now }
    ensures exact { FirstGives (file_of file.entry) tokens.now (unit_of unit.old) (scope_of scope.old) (unit_of unit.new) (scope_of scope.new) result }
    ensures few { OnOk result (length unit.new.tokens ≤ 200001) }
    ensures keeps { OnOk result (Keeps (unit_of unit.old) (scope_of scope.old) (unit_of unit.new) (scope_of scope.new)) }
{
    match follow_line(unit, scope, file, tokens)? {
        Step::Done => Ok(None),
        Step::Include { is_ghost } => {
            let include = wanted(unit.alloc, file, tokens, is_ghost)?;
            Ok(Some(include))
        }
    }
}

/// Follows the next line of a file, of which an include is left to do.
pub fn follow_next(unit: &mut Unit, current: &mut Open) -> Result<Line, ExpandFault>
    requires { length unit.old.tokens ≤ 200001 }
    ensures exact { LineGives (going_of current.old) (unit_of unit.old) (going_of current.new) (unit_of unit.new) result }
    ensures falls { IfOk result (LineFalls (left_of current.old) (left_of current.new)) }
    ensures few { OnOk result (length unit.new.tokens ≤ 200001) }
    ensures keeps { OnOk result (Keeps (unit_of unit.old) (scope_of current.old.scope) (unit_of unit.new) (scope_of current.new.scope)) }
    ensures joins { current.new.joins ≡ current.old.joins }
{
    if current.at >= current.tokens.len() {
        return Ok(Line::End);
    }
    let rest = &current.tokens.as_slice()[current.at..];
    let size = first_line(rest);
    let file = File {
        path: current.path.as_bytes(),
        bytes: current.bytes.as_bytes(),
    };
    let found = follow_first(unit, &mut current.scope, file, &rest[..size])?;
    current.at += size;
    match found {
        None => Ok(Line::Done),
        Some(include) => Ok(Line::Include(include)),
    }
}
