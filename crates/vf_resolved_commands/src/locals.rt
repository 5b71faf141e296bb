//! Ghost locals: their declaration, and their assignment.

ghost use Rattle.std.specs.Prelude.{◌≡◌, IfOk, OnOk};
ghost use Rattle.std.specs.Option.{option_copied};
ghost use Rattle.vf_sorting.specs.Spelling.{written_sort};
ghost use Rattle.vf_resolving.specs.Standings.{around_of, known_sort, standing_of};
ghost use Rattle.vf_resolved_commands.specs.Commands.{assignment_resolved, declaration_resolved, local_sort, sort_or_refused, with_ghost_name};

use crate::reading::{name_at, passed_at};
use std::alloc::Global;
use vf_base::{Memory, Place, RuleFault, Text};
use vf_declared::locals::{GhostLocal, Local};
use vf_declared::scope::Scope;
use vf_names::Names;
use vf_resolved::command::{Command, CommandNode};
use vf_resolved_parts::names::{slot_for, symbol_for};
use vf_resolving::standing::{known_sort, put_name};
use vf_resolving::{Around, Standing};
use vf_sorting::kinds::int_sort;
use vf_sorting::names::sort_of_local;
use vf_sorting::written_sort;
use vf_sorts::Sort;
use vf_syntax::ghost_expr::GhostExpr;
use vf_syntax::sort::Sort as WrittenSort;
use vf_syntax::written::Name;

/// A sort that is written; where it is refused, that of whole numbers.
fn sort_or_refused(
    alloc: Global,
    scope: &Scope,
    parameters: &Names,
    written: &WrittenSort,
) -> Result<Sort, Memory>
    ensures { IfOk result (λ t. t ≡ sort_or_refused (written_sort scope.now parameters.now written.now)) }
{
    match written_sort(alloc, scope, parameters, written) {
        Ok(sort) => Ok(sort),
        Err(RuleFault::Refused(_)) => Ok(int_sort(alloc)),
        Err(RuleFault::Memory) => Err(Memory),
    }
}

/// One ghost local more, of a sort, which has a number.
fn put_ghost(
    around: &Around<'_>,
    standing: &mut Standing,
    name: &Text,
    sort: Sort,
) -> Result<(), Memory>
    ensures { OnOk result (standing_of standing.new ≡ with_ghost_name (around_of around.now) name.now sort (standing_of standing.old)) }
{
    let known = known_sort(around, &sort)?;
    standing.scope.locals.names.push(name.as_bytes())?;
    standing.scope.locals.meanings.push(Local::Ghost(GhostLocal {
        is_variable: true,
        sort,
    }))?;
    put_name(around.alloc, standing, known)
}

/// A declaration at a place.
fn declared(
    around: &Around<'_>,
    standing: &mut Standing,
    place: Place,
    name: &Name,
    value: &GhostExpr,
    sort: Sort,
) -> Result<Command, Memory>
    ensures { IfOk result (λ x. declaration_resolved (around_of around.now) (standing_of standing.old) place name.now value.now sort ≡ record { command = x; standing = standing_of standing.new }) }
{
    let value = passed_at(around, standing, &sort, value)?;
    let known = known_sort(around, &sort)?;
    let symbol = symbol_for(around.alloc, slot_for(standing.sorts.len(), &known));
    standing.next = value.next;
    put_ghost(around, standing, &name.text, sort)?;
    Ok(Command {
        place,
        node: CommandNode::Set(symbol, value.term),
    })
}

/// A declaration at a place, with the sort that is written, in the text of a lemma with these type parameters.
pub fn declaration_resolved(
    around: &Around<'_>,
    parameters: &Names,
    standing: &mut Standing,
    place: Place,
    written: &WrittenSort,
    name: &Name,
    value: &GhostExpr,
) -> Result<Command, Memory>
    ensures { IfOk result (λ x. declaration_resolved (around_of around.now) (standing_of standing.old) place name.now value.now (sort_or_refused (written_sort standing.old.scope parameters.now written.now)) ≡ record { command = x; standing = standing_of standing.new }) }
{
    let sort = sort_or_refused(around.alloc, &standing.scope, parameters, written)?;
    declared(around, standing, place, name, value, sort)
}

/// The sort of a local; where there is none, that of whole numbers.
fn local_sort(alloc: Global, local: Option<&Local>) -> Result<Sort, Memory>
    ensures { IfOk result (λ t. t ≡ local_sort (option_copied local.entry)) }
{
    match local {
        Some(local) => sort_of_local(alloc, local),
        None => Ok(int_sort(alloc)),
    }
}

/// An assignment at a place.
pub fn assignment_resolved(
    around: &Around<'_>,
    standing: &mut Standing,
    place: Place,
    name: &Text,
    value: &GhostExpr,
) -> Result<Command, Memory>
    ensures { IfOk result (λ x. assignment_resolved (around_of around.now) (standing_of standing.old) place name.now value.now ≡ record { command = x; standing = standing_of standing.new }) }
{
    let sort = local_sort(around.alloc, standing.scope.local(name))?;
    let value = passed_at(around, standing, &sort, value)?;
    let symbol = name_at(around, standing, name, place.file)?;
    standing.next = value.next;
    Ok(Command {
        place,
        node: CommandNode::Set(symbol, value.term),
    })
}
