//! What is kept of a lemma that is declared without a body, and taken where it gets one.

ghost use Rattle.std.specs.Prelude.{◌≡◌, ◌++◌, drop, IfOk, OnOk};
ghost use Rattle.std.specs.Option.{option_copied};
ghost use Rattle.vf_declared.specs.Scopes.{sides_of_ghost};
ghost use Rattle.vf_walk.specs.Walking.{Gives};
ghost use Rattle.vf_lemma_items.specs.Kept as kept;

use std::alloc::Global;
use vf_base::{Memory, Place, Rule, RuleFault, Sequence};
use vf_datatypes::refusal::refused;
use vf_declared::declaration::GhostSides;
use vf_declared::locals::{GhostLocal, Local, Locals};
use vf_declared::scope::Scope;
use vf_declared::stack::Stack;
use vf_names::Names;
use vf_syntax::item::GhostParameter;

/// Puts names from an index on behind others.
#[tactic(auto, using(crate::proofs::Loops::added_more, crate::proofs::Loops::added_none, crate::proofs::Loops::added_end))]
fn add_names(names: &mut Names, more: &Names, first: usize) -> Result<(), Memory>
    ensures { OnOk result (names.new ≡ names.old ++ drop first more.now) }
{
    for at in first..more.len() {
        let Some(name) = more.name(at) else {
            return Ok(());
        };
        names.push(name)?;
    }
    Ok(())
}

/// The same meaning again.
fn copy(alloc: Global, local: &Local) -> Result<Local, Memory>
    ensures { IfOk result (λ same. same ≡ local.now) }
{
    match local {
        Local::Real(ctype) => Ok(Local::Real(*ctype)),
        Local::Ghost(local) => {
            let sort = local.sort.copy(alloc)?;
            Ok(Local::Ghost(GhostLocal {
                is_variable: local.is_variable,
                sort,
            }))
        }
    }
}

/// Puts meanings from an index on behind others.
#[tactic(auto, using(crate::proofs::Loops::added_more, crate::proofs::Loops::added_none, crate::proofs::Loops::added_end))]
fn add_meanings(
    alloc: Global,
    meanings: &mut Stack<Local>,
    more: &Stack<Local>,
    first: usize,
) -> Result<(), Memory>
    ensures { OnOk result (meanings.new ≡ meanings.old ++ drop first more.now) }
{
    for at in first..more.len() {
        let Some(local) = more.get(at) else {
            return Ok(());
        };
        meanings.push(copy(alloc, local)?)?;
    }
    Ok(())
}

/// Puts locals from an index on behind others.
fn add_locals(alloc: Global, locals: &mut Locals, more: &Locals, first: usize) -> Result<(), Memory>
    ensures { OnOk result (locals.new ≡ kept.with_rest locals.old more.now first) }
{
    add_names(&mut locals.names, &more.names, first)?;
    add_meanings(alloc, &mut locals.meanings, &more.meanings, first)?;
    Ok(())
}

/// Keeps the locals from an index on with the lemma with a number, which is declared without a body; they are gone then.
pub fn keep(alloc: Global, scope: &mut Scope, count: usize, number: usize) -> Result<(), Memory>
    ensures { OnOk result (scope.new ≡ kept.kept count number scope.old) }
{
    let mut locals = Locals::new(alloc);
    add_locals(alloc, &mut locals, &scope.locals, count)?;
    scope.locals.leave(count);
    scope.declare_ghost_prototype(alloc, number, locals);
    Ok(())
}

/// The locals that were kept, if any.
fn kept_in(sides: Option<&GhostSides>) -> Option<&Locals>
    ensures { option_copied result ≡ kept.kept_in (option_copied sides.entry) }
{
    let sides = sides?;
    sides.prototype.as_ref()
}

/// The first of some parameters whose name is not the one among names that stands there.
#[tactic(auto, using(crate::proofs::Loops::renamed_here, crate::proofs::Loops::renamed_more, crate::proofs::Loops::renamed_none, crate::proofs::Loops::renamed_nameless, crate::proofs::Loops::renamed_end))]
fn first_renamed(names: &Names, parameters: &Sequence<GhostParameter>) -> Option<Place>
    ensures { result ≡ kept.first_renamed names.now parameters.now }
{
    for at in 0..parameters.len() {
        let (Some(name), Some(parameter)) = (names.name(at), parameters.get(at)) else {
            return None;
        };
        if name != parameter.name.text.as_bytes() {
            return Some(parameter.name.place);
        }
    }
    None
}

/// Makes the names that were kept of the lemma with a number visible behind its parameters, if there are any.
#[tactic(auto, using(vf_walk::proofs::Steps::out_of_memory))]
pub fn take_kept(
    alloc: Global,
    scope: &mut Scope,
    parameters: &Sequence<GhostParameter>,
    number: usize,
) -> Result<(), RuleFault>
    ensures { Gives result scope.new (kept.taken_from parameters.now (kept.kept_in (sides_of_ghost scope.old number)) scope.old) }
{
    let Some(locals) = kept_in(scope.sides_of_ghost(number)) else {
        return Ok(());
    };
    if let Some(place) = first_renamed(&locals.names, parameters) {
        return Err(RuleFault::Refused(refused(Rule::Name, place)));
    }
    let mut all = scope.locals.copy(alloc)?;
    add_locals(alloc, &mut all, locals, parameters.len())?;
    scope.locals = all;
    Ok(())
}
