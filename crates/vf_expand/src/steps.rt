//! The walk over files.

ghost use Rattle.std.specs.Prelude.{◌≡◌, ℕ, ◌≤◌, ◌<◌, ◌∷◌, [], None, Some, Ok, length, reverse, IfOk, IfErr, OnOk, IsErrOf, IsTrue, MatchOption};
ghost use Rattle.std.specs.List.{list_all};
ghost use Rattle.std.specs.Option.{option_map};
ghost use Rattle.vf_base.specs.Outside.{Rose};
ghost use Rattle.vf_names.specs.Names.{number_of};
ghost use Rattle.vf_preproc.specs.Answers.{Gives};
ghost use Rattle.vf_preproc.specs.Joins.{AreBelow};
ghost use Rattle.vf_preproc.specs.Scopes.{header_of, scope_of};
ghost use Rattle.vf_preproc.specs.Targets.{is_ascii};
ghost use Rattle.vf_preproc.specs.UnitText.{Library, completed};
ghost use Rattle.vf_preproc.specs.Units.{unit_of, Tells};
ghost use Rattle.vf_expand.specs.Worlds.{world, Reads};
ghost use Rattle.vf_expand.specs.Walks.{pause_of, pauses_of, going_of, walk_text, resumed};
ghost use Rattle.vf_expand.specs.Remembered.{IsNamed, Remembers, AllRemember, complete_at, WalkRemembers, NextRemembers};
ghost use Rattle.vf_expand.specs.Weights.{left_of, lefts_of, weight, weight_of, weight_before, NextFalls};
ghost use Rattle.vf_expand.specs.Steps.{old_text, walk_include_text, WalkGives, NextGives, EndGives, FewNext, Begins, IsOwn};

use crate::frames::{Include, Line, Waiting, follow_next, open_file};
use crate::sources::load_header;
use crate::state::{Next, Walk};
use std::collections::BTreeMap;
use vf_base::{Files, Memory, Place, Rule};
use vf_preproc::{
    ExpandFault, Header, Join, Loaded, Scope, Unit, closed, join_header, path_text, with_header,
};
use vf_snapshot::Snapshot;

/// How many includes may stand within one another.
const MOST_DEPTH: usize = 32;

/// Puts a file to those that wait.
fn wait(stack: &mut Vec<Waiting>, file: Waiting) -> Result<(), Memory>
    ensures pauses { OnOk result (pauses_of stack.new.items ≡ pause_of file ∷ pauses_of stack.old.items) }
    ensures lefts { OnOk result (lefts_of stack.new.items ≡ left_of file.file ∷ lefts_of stack.old.items) }
    ensures waiting { OnOk result (reverse stack.new.items ≡ file ∷ reverse stack.old.items) }
{
    stack.push(file)?;
    Ok(())
}

/// Takes the innermost of the files that wait.
fn wake(stack: &mut Vec<Waiting>) -> Option<Waiting>
    ensures pauses { MatchOption result (pauses_of stack.old.items ≡ []) (λ file. pauses_of stack.old.items ≡ pause_of file ∷ pauses_of stack.new.items) }
    ensures lefts { MatchOption result (stack.new.items ≡ stack.old.items) (λ file. lefts_of stack.old.items ≡ left_of file.file ∷ lefts_of stack.new.items) }
    ensures waiting { MatchOption result (stack.new.items ≡ stack.old.items) (λ file. reverse stack.old.items ≡ file ∷ reverse stack.new.items) }
{
    stack.pop()
}

/// The header with a number among the files that were begun, where it is complete.
fn complete_header(unit: &Unit, number: usize) -> Option<&Header>
    ensures { option_map (λ h. header_of h.now) result ≡ complete_at (unit_of unit.now) number }
{
    match unit.complete.get(number) {
        Some(header) => header.as_ref(),
        None => None,
    }
}

/// Joins a header that was begun before to the file that includes it, which remembers that.
fn join_old(
    unit: &Unit,
    scope: &mut Scope,
    joins: &mut BTreeMap<usize, Join>,
    include: &Include,
    number: usize,
) -> Result<(), ExpandFault>
    requires below { number < length unit.now.paths }
    requires named { IsNamed (unit_of unit.now) }
    requires remembers { Remembers (length unit.now.paths) unit.now.names (unit_of unit.now).complete joins.old (scope_of scope.old) }
    ensures exact { Gives (λ _. (unit_of unit.now, scope_of scope.new)) result (old_text include.now.hash include.now.is_ghost (unit_of unit.now) number (scope_of scope.old)) }
    ensures remembers { OnOk result (Remembers (length unit.now.paths) unit.now.names (unit_of unit.now).complete joins.new (scope_of scope.new)) }
{
    match complete_header(unit, number) {
        Some(header) => {
            let known = joins.get(&number).copied();
            let join = join_header(
                include.is_ghost,
                include.hash,
                &unit.names,
                header,
                scope,
                known,
            )?;
            joins.insert(number, join)?;
            Ok(())
        }
        None => Err(ExpandFault::refusal(Rule::Include, include.hash)),
    }
}

/// Begins the header at the path of an include, which was not begun before.
fn include_new<F: Files>(
    walk: Walk,
    snapshot: &mut Snapshot,
    files: &mut F,
    include: Include,
) -> Result<Walk, ExpandFault>
    requires remembers { WalkRemembers walk }
    requires few { length walk.unit.tokens ≤ 200001 }
    requires shallow { length walk.stack.items < 32 }
    requires path { IsTrue (list_all is_ascii include.path) }
    requires new { number_of walk.unit.paths include.path ≡ None }
    ensures exact { (library : Library) → Tells library snapshot.new → WalkGives (walk_include_text library include walk) library result }
    ensures remembers { IfOk result WalkRemembers }
    ensures few { IfOk result (λ w. length w.unit.tokens ≤ 200001) }
    ensures falls { IfOk result (λ w. weight w < weight_before walk) }
    ensures there { IsErrOf result ExpandFault.Missing → ⊥ }
    ensures read_fault { IsErrOf result ExpandFault.ReadFault → Rose (F.failures files.old) (F.failures files.new) }
    ensures reads { Reads
        (world snapshot.old (F.contents files.old) (F.failures files.old) (F.absences files.old) (F.put_failures files.old))
        (world snapshot.new (F.contents files.new) (F.failures files.new) (F.absences files.new) (F.put_failures files.new)) }
{
    let path = path_text(include.path.as_bytes());
    let loaded = load_header(walk.unit.alloc, snapshot, files, path, include.hash)?;
    begin(walk, include, loaded)
}

/// Begins a header that was read.
fn begin(walk: Walk, include: Include, loaded: Loaded) -> Result<Walk, ExpandFault>
    requires remembers { WalkRemembers walk }
    requires few { length walk.unit.tokens ≤ 200001 }
    requires new { number_of walk.unit.paths include.path ≡ None }
    ensures begun { IfOk result (λ w. Begins walk include loaded w) }
    ensures falls { length walk.stack.items < 32 → IfOk result (λ w. weight w < weight_before walk) }
    ensures remembers { IfOk result WalkRemembers }
    ensures few { IfOk result (λ w. length w.unit.tokens ≤ 200001) }
    ensures memory { IfErr result (λ e. e ≡ ExpandFault.Memory) }
{
    let Walk {
        mut unit,
        mut stack,
        current,
    } = walk;
    let number = unit.begin(
        include.path.as_bytes(),
        loaded.number,
        loaded.tokens.as_slice(),
    )?;
    let header = open_file(unit.alloc, include.path, loaded, number)?;
    let waiting = Waiting {
        file: current,
        hash: include.hash,
        is_ghost: include.is_ghost,
        number,
    };
    wait(&mut stack, waiting)?;
    Ok(Walk {
        unit,
        stack,
        current: header,
    })
}

/// Does an include in the file whose lines are being followed.
fn include<F: Files>(
    walk: Walk,
    snapshot: &mut Snapshot,
    files: &mut F,
    include: Include,
) -> Result<Walk, ExpandFault>
    requires remembers { WalkRemembers walk }
    requires few { length walk.unit.tokens ≤ 200001 }
    requires path { IsTrue (list_all is_ascii include.path) }
    ensures exact { (library : Library) → Tells library snapshot.new → WalkGives (walk_include_text library include walk) library result }
    ensures remembers { IfOk result WalkRemembers }
    ensures few { IfOk result (λ w. length w.unit.tokens ≤ 200001) }
    ensures falls { IfOk result (λ w. weight w < weight_before walk) }
    ensures there { IsErrOf result ExpandFault.Missing → ⊥ }
    ensures read_fault { IsErrOf result ExpandFault.ReadFault → Rose (F.failures files.old) (F.failures files.new) }
    ensures reads { Reads
        (world snapshot.old (F.contents files.old) (F.failures files.old) (F.absences files.old) (F.put_failures files.old))
        (world snapshot.new (F.contents files.new) (F.failures files.new) (F.absences files.new) (F.put_failures files.new)) }
{
    if walk.stack.len() >= MOST_DEPTH {
        return Err(ExpandFault::refusal(Rule::Include, include.hash));
    }
    match walk.unit.paths.number(include.path.as_bytes()) {
        Some(number) => include_old(walk, include, number),
        None => include_new(walk, snapshot, files, include),
    }
}

/// Goes on behind the include of a header that was begun before.
fn include_old(walk: Walk, include: Include, number: usize) -> Result<Walk, ExpandFault>
    requires remembers { WalkRemembers walk }
    requires few { length walk.unit.tokens ≤ 200001 }
    requires shallow { length walk.stack.items < 32 }
    requires old { number_of walk.unit.paths include.path ≡ Some number }
    ensures exact { (library : Library) → WalkGives (walk_include_text library include walk) library result }
    ensures own { IfErr result IsOwn }
    ensures remembers { IfOk result WalkRemembers }
    ensures few { IfOk result (λ w. length w.unit.tokens ≤ 200001) }
    ensures falls { IfOk result (λ w. weight w < weight_before walk) }
{
    let Walk {
        unit,
        stack,
        mut current,
    } = walk;
    join_old(
        &unit,
        &mut current.scope,
        &mut current.joins,
        &include,
        number,
    )?;
    Ok(Walk {
        unit,
        stack,
        current,
    })
}

/// A header is complete.
fn finish(unit: &mut Unit, number: usize, header: Header)
    ensures finished { unit_of unit.new ≡ completed number (unit_of unit.old) (header_of header) }
    ensures tokens { unit.new.tokens ≡ unit.old.tokens }
{
    if number < unit.complete.len() {
        unit.complete(number, header);
    }
}

/// Goes on with the file that waited for a header.
fn resume(
    unit: Unit,
    stack: Vec<Waiting>,
    waiting: Waiting,
    header: Header,
) -> Result<Walk, ExpandFault>
    requires named { IsNamed (unit_of unit) }
    requires below { AreBelow (length unit.paths) (header_of header).files }
    requires remembers { AllRemember (length unit.paths) unit.names (unit_of unit).complete (waiting ∷ reverse stack.items) }
    requires few { length unit.tokens ≤ 200001 }
    ensures exact { (library : Library) → WalkGives (resumed library (pause_of waiting ∷ pauses_of stack.items) (Ok (unit_of unit, header_of header))) library result }
    ensures own { IfErr result IsOwn }
    ensures remembers { IfOk result WalkRemembers }
    ensures few { IfOk result (λ w. length w.unit.tokens ≤ 200001) }
    ensures weighs { IfOk result (λ w. weight w ≡ weight_of (left_of waiting.file ∷ lefts_of stack.items)) }
{
    let mut unit = unit;
    let Waiting {
        mut file,
        hash,
        is_ghost,
        number,
    } = waiting;
    with_header(is_ghost, hash, &unit.names, &header, &mut file.scope)?;
    finish(&mut unit, number, header);
    Ok(Walk {
        unit,
        stack,
        current: file,
    })
}

/// Ends the file whose lines were followed.
fn end(walk: Walk) -> Result<Next, ExpandFault>
    requires remembers { WalkRemembers walk }
    requires few { length walk.unit.tokens ≤ 200001 }
    requires done { (going_of walk.current).lines ≡ [] }
    ensures exact { (library : Library) → NextGives (walk_text library walk) library result }
    ensures own { IfErr result IsOwn }
    ensures remembers { IfOk result NextRemembers }
    ensures few { IfOk result FewNext }
    ensures falls { IfOk result (NextFalls (weight walk)) }
{
    let Walk {
        mut unit,
        mut stack,
        current,
    } = walk;
    let header = closed(current.scope)?;
    match wake(&mut stack) {
        None => {
            finish(&mut unit, 0, header);
            Ok(Next::Ends(unit))
        }
        Some(waiting) => {
            let walk = resume(unit, stack, waiting, header)?;
            Ok(Next::Goes(walk))
        }
    }
}

/// Goes on by a line, or by the end of a file.
fn go_on<F: Files>(walk: Walk, snapshot: &mut Snapshot, files: &mut F) -> Result<Next, ExpandFault>
    requires remembers { WalkRemembers walk }
    requires few { length walk.unit.tokens ≤ 200001 }
    ensures exact { (library : Library) → Tells library snapshot.new → NextGives (walk_text library walk) library result }
    ensures remembers { IfOk result NextRemembers }
    ensures few { IfOk result FewNext }
    ensures falls { IfOk result (NextFalls (weight walk)) }
    ensures there { IsErrOf result ExpandFault.Missing → ⊥ }
    ensures read_fault { IsErrOf result ExpandFault.ReadFault → Rose (F.failures files.old) (F.failures files.new) }
    ensures reads { Reads
        (world snapshot.old (F.contents files.old) (F.failures files.old) (F.absences files.old) (F.put_failures files.old))
        (world snapshot.new (F.contents files.new) (F.failures files.new) (F.absences files.new) (F.put_failures files.new)) }
{
    let mut walk = walk;
    match follow_next(&mut walk.unit, &mut walk.current)? {
        Line::End => end(walk),
        Line::Done => Ok(Next::Goes(walk)),
        Line::Include(wanted) => {
            let walk = include(walk, snapshot, files, wanted)?;
            Ok(Next::Goes(walk))
        }
    }
}

/// Follows all files of a unit to their ends.
pub fn walk_on<F: Files>(
    walk: Walk,
    snapshot: &mut Snapshot,
    files: &mut F,
) -> Result<Unit, ExpandFault>
    requires remembers { WalkRemembers walk }
    requires few { length walk.unit.tokens ≤ 200001 }
    ensures exact { (library : Library) → Tells library snapshot.new → EndGives (walk_text library walk) result }
    ensures few { IfOk result (λ unit. length unit.tokens ≤ 200001) }
    ensures there { IsErrOf result ExpandFault.Missing → ⊥ }
    ensures read_fault { IsErrOf result ExpandFault.ReadFault → Rose (F.failures files.old) (F.failures files.new) }
    ensures reads { Reads
        (world snapshot.old (F.contents files.old) (F.failures files.old) (F.absences files.old) (F.put_failures files.old))
        (world snapshot.new (F.contents files.new) (F.failures files.new) (F.absences files.new) (F.put_failures files.new)) }
{
    let mut state = walk;
    'steps: loop {
        match go_on(state, snapshot, files)? {
            Next::Goes(next) => state = next,
            Next::Ends(unit) => return Ok(unit),
        }
    }
}
