//! Ghost locals: their declaration, and their assignment.

ghost use Rattle.std.specs.Prelude.{◌≡◌, ◌&&◌, None, OnOk, Ok, Err};
ghost use Rattle.vf_names.specs.Names.{number_of};
ghost use Rattle.vf_sorting.specs.Answers.{Answers};
ghost use Rattle.vf_commands.specs.Answers.{IsAssigned, IsDeclared};
ghost use Rattle.vf_commands.specs.Locals.{assigned_sort, with_ghost};

use crate::around::Around;
use std::alloc::Global;
use vf_base::{Memory, Place, Rule, RuleFault, Text};
use vf_binding::bound::{name_bound, no_names};
use vf_declared::locals::{GhostLocal, Local};
use vf_declared::scope::Scope;
use vf_sorting::refusal::refused;
use vf_sorting::{checked, written_sort};
use vf_sorts::{Sort, Unknowns};
use vf_syntax::ghost_expr::GhostExpr;
use vf_syntax::sort::Sort as WrittenSort;
use vf_syntax::written::Name;

/// The sort of a ghost local that a declaration declares, or the refusal of the declaration.
#[tactic(auto, using(crate::proofs::Locals::declaration_memory, crate::proofs::Locals::sort_fails, crate::proofs::Locals::name_fails, crate::proofs::Locals::value_fails, crate::proofs::Locals::declares, crate::proofs::Locals::written_below))]
pub fn declaration_checked(
    alloc: Global,
    scope: &Scope,
    around: &Around,
    unknowns: &mut Unknowns,
    written: &WrittenSort,
    name: &Name,
    value: &GhostExpr,
) -> Result<Sort, RuleFault>
    ensures { IsDeclared scope.now around.now unknowns.old written.now name.now value.now result unknowns.new }
{
    let sort = written_sort(alloc, scope, &around.parameters, written)?;
    let mut bound = no_names(alloc);
    name_bound(alloc, scope, &mut bound, name, &sort)?;
    checked(alloc, scope, &around.context, unknowns, &sort, value)?;
    Ok(sort)
}

/// Declares a ghost local of a sort.
pub fn declare_ghost(scope: &mut Scope, name: &Name, sort: Sort) -> Result<(), Memory>
    requires { number_of scope.old.locals.names name.now.text ≡ None }
    ensures { OnOk result (scope.new ≡ with_ghost scope.old name.now.text sort) }
{
    scope.locals.declare(
        name.text.as_bytes(),
        Local::Ghost(GhostLocal {
            is_variable: true,
            sort,
        }),
    )?;
    Ok(())
}

/// The sort of what a name at a place means, where it is a ghost local that may be assigned.
fn assigned_sort(alloc: Global, scope: &Scope, place: Place, name: &Text) -> Result<Sort, RuleFault>
    ensures { Answers (λ t. assigned_sort scope.now place name.now ≡ Ok t) (λ r. assigned_sort scope.now place name.now ≡ Err r) result }
{
    match scope.local(name) {
        None => Err(refused(Rule::Name, place)),
        Some(Local::Real(_)) => Err(refused(Rule::GhostInReal, place)),
        Some(Local::Ghost(named)) => {
            if !named.is_variable {
                return Err(refused(Rule::Typing, place));
            }
            let sort = named.sort.copy(alloc)?;
            Ok(sort)
        }
    }
}

/// Whether an assignment to a name at a place may stand.
#[tactic(auto, using(crate::proofs::Locals::target_fails, crate::proofs::Locals::target_stray, crate::proofs::Locals::assigned_fails, crate::proofs::Locals::assigns, crate::proofs::Locals::target_below))]
pub fn assignment_checked(
    alloc: Global,
    scope: &Scope,
    around: &Around,
    unknowns: &mut Unknowns,
    place: Place,
    name: &Text,
    value: &GhostExpr,
) -> Result<(), RuleFault>
    ensures { IsAssigned scope.now around.now unknowns.old place name.now value.now result unknowns.new }
{
    let sort = assigned_sort(alloc, scope, place, name)?;
    if !unknowns.has(&sort) {
        return Err(refused(Rule::Typing, place));
    }
    checked(alloc, scope, &around.context, unknowns, &sort, value)?;
    Ok(())
}
