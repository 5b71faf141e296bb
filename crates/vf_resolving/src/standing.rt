//! What stands around annotations, and what is declared and numbered at a place of one.

ghost use Rattle.std.specs.Prelude.{◌≡◌, IfOk, OnOk};
ghost use Rattle.vf_resolving.specs.Standings.{around_of, behind, declaring, known_sort, leaving, slots_for, standing_of, with_name, with_sorts};

use std::alloc::Global;
use vf_base::{Memory, Sequence, Text};
use vf_binding::bound::declare_names;
use vf_declared::scope::Scope;
use vf_formula::Term;
use vf_resolved::pattern::Slot;
use vf_resolved_parts::Progress;
use vf_resolved_parts::names::{slot_for, symbol_for};
use vf_sorting::Context;
use vf_sorts::{Sort, SortList, Unknowns};
use vf_terms::arguments::behind as number_behind;

/// What stands around annotations.
#[derive(Clone, Copy)]
pub struct Around<'a> {
    pub alloc: Global,
    /// The words that may stand there, and in whose text.
    pub context: &'a Context,
    /// What is known of unknown sorts when all expressions are sorted.
    pub unknowns: &'a Unknowns,
    /// The paths of files, by their numbers.
    pub paths: &'a [Text],
    pub result: &'a Term,
    pub this_value: &'a Term,
    pub thread: &'a Term,
}

/// What is declared and numbered at a place of an annotation.
#[derive(Drop)]
pub struct Standing {
    pub scope: Scope,
    /// The terms of the locals, in the order of the locals.
    pub terms: Vec<Term>,
    /// The sorts of all names so far, in the order of their numbers.
    pub sorts: SortList,
    /// The first number of unknown sorts that is not used yet.
    pub next: usize,
}

/// A sort as it is known in the end.
pub fn known_sort(around: &Around<'_>, sort: &Sort) -> Result<Sort, Memory>
    ensures { IfOk result (λ t. t ≡ known_sort (around_of around.now) sort.now) }
{
    around.unknowns.settle(sort)
}

/// One local more has a name of a sort.
pub fn put_name(alloc: Global, standing: &mut Standing, sort: Sort) -> Result<(), Memory>
    ensures { OnOk result (standing_of standing.new ≡ with_name sort (standing_of standing.old)) }
{
    let slot = slot_for(standing.sorts.len(), &sort);
    standing.terms.push(symbol_for(alloc, slot))?;
    standing.sorts.push(sort)?;
    Ok(())
}

/// Locals more have names of these sorts, as they are known in the end.
pub fn put_sorts(
    around: &Around<'_>,
    standing: &mut Standing,
    sorts: &SortList,
) -> Result<(), Memory>
    ensures { OnOk result (standing_of standing.new ≡ with_sorts (around_of around.now) sorts.now (standing_of standing.old)) }
{
    for at in 0..sorts.len() {
        let Some(sort) = sorts.get(at) else {
            return Ok(());
        };
        let sort = known_sort(around, sort)?;
        put_name(around.alloc, standing, sort)?;
    }
    Ok(())
}

/// Declares names that a part binds as locals, and gives them numbers.
pub fn put_behind(
    around: &Around<'_>,
    standing: &mut Standing,
    progress: &Progress,
) -> Result<(), Memory>
    ensures { OnOk result (standing_of standing.new ≡ behind (around_of around.now) progress.now (standing_of standing.old)) }
{
    declare_names(around.alloc, &mut standing.scope, &progress.bound)?;
    put_sorts(around, standing, &progress.bound.sorts)?;
    standing.next = progress.next;
    Ok(())
}

/// Keeps the first locals, as many as a count says.
pub fn leave(standing: &mut Standing, count: usize)
    ensures { standing_of standing.new ≡ leaving count (standing_of standing.old) }
{
    standing.scope.locals.leave(count);
    standing.terms.truncate(count);
}

/// The names with numbers from one on, of these sorts as they are known in the end.
pub fn slots_for(
    around: &Around<'_>,
    first: usize,
    sorts: &SortList,
) -> Result<Sequence<Slot>, Memory>
    ensures { IfOk result (λ xs. xs ≡ slots_for (around_of around.now) first sorts.now) }
{
    let mut all = Sequence::new(around.alloc);
    for at in 0..sorts.len() {
        let Some(sort) = sorts.get(at) else {
            return Ok(all);
        };
        let sort = known_sort(around, sort)?;
        let number = number_behind(first, at)?;
        all.push(slot_for(number, &sort))?;
    }
    Ok(all)
}
