//! Names that patterns bind.

ghost use Rattle.std.specs.Prelude.{◌≡◌, ◌++◌, OnOk, map};
ghost use Rattle.vf_declared.specs.Scopes.{declaration_of, local_of};
ghost use Rattle.vf_binding.specs.Bound.{bound_local, is_bound, is_of_c, is_real, names_real, no_names, with_names};
ghost use Rattle.vf_binding.specs.Answers.{IsNamed};
ghost use Rattle.std.specs.Option.{option_copied};

use std::alloc::Global;
use vf_base::{Memory, Rule, RuleFault, Text};
use vf_declared::declaration::Meaning;
use vf_declared::locals::{GhostLocal, Local};
use vf_declared::scope::Scope;
use vf_declared::stack::Stack;
use vf_names::Names;
use vf_sorting::refusal::refused;
use vf_sorts::{Sort, SortList};
use vf_syntax::written::Name;

/// Names that the patterns of a part bind, and in the same order their sorts. They are visible behind the part.
#[derive(Drop)]
pub struct Bound {
    pub names: Names,
    pub sorts: SortList,
}

/// No names, which takes no memory.
pub fn no_names(alloc: Global) -> Bound
    ensures { result ≡ no_names }
{
    Bound {
        names: Names::new(alloc),
        sorts: SortList::new(alloc),
    }
}

/// Whether a local is one of C.
fn is_real(local: Option<&Local>) -> bool
    ensures { result ≡ is_real (option_copied local.entry) }
{
    match local {
        Some(Local::Real(_)) => true,
        _ => false,
    }
}

/// Whether a name of file level is one of C.
fn is_of_c(meaning: Option<Meaning>) -> bool
    ensures { result ≡ is_of_c meaning }
{
    match meaning {
        Some(Meaning::Function(_)) => true,
        Some(Meaning::FunctionType(_)) => true,
        _ => false,
    }
}

/// Whether a name is one of C in a file, or `free` in a unit that has `<stdlib.h>`.
fn names_real(scope: &Scope, name: &Text, file: u32) -> bool
    ensures { result ≡ names_real scope.now name.now file }
{
    is_real(scope.local(name))
        || is_of_c(scope.declaration(name, file))
        || scope.has_stdlib && name.as_bytes() == b"free".as_slice()
}

/// Whether a name is that of a local, or is bound already.
fn is_bound(scope: &Scope, bound: &Bound, name: &Text) -> bool
    ensures { result ≡ is_bound scope.now bound.now name.now }
{
    scope.locals.names.number(name.as_bytes()).is_some()
        || bound.names.number(name.as_bytes()).is_some()
}

/// Binds a name at a sort, or refuses it where it is one of C, a local's or bound already.
#[tactic(auto, using(crate::proofs::Steps::named_memory, crate::proofs::Steps::named_real, crate::proofs::Steps::named_twice, crate::proofs::Steps::named_well))]
pub fn name_bound(
    alloc: Global,
    scope: &Scope,
    bound: &mut Bound,
    name: &Name,
    sort: &Sort,
) -> Result<(), RuleFault>
    ensures { IsNamed scope.now bound.old name.now sort.now result bound.new }
{
    if names_real(scope, &name.text, name.place.file) {
        return Err(refused(Rule::GhostInReal, name.place));
    }
    if is_bound(scope, bound, &name.text) {
        return Err(refused(Rule::Name, name.place));
    }
    let sort = sort.copy(alloc)?;
    bound.names.push(name.text.as_bytes())?;
    bound.sorts.push(sort)?;
    Ok(())
}

/// Puts names to the end of others.
#[tactic(auto, using(crate::proofs::Lists::joined_more, crate::proofs::Lists::joined_all))]
fn put_names(names: &mut Names, more: &Names) -> Result<(), Memory>
    ensures { OnOk result (names.new ≡ names.old ++ more.now) }
{
    for at in 0..more.len() {
        let Some(name) = more.name(at) else {
            return Ok(());
        };
        names.push(name)?;
    }
    Ok(())
}

/// Puts locals of these sorts to the end of others.
#[tactic(auto, using(crate::proofs::Lists::put_more, crate::proofs::Lists::put_all))]
fn put_locals(alloc: Global, locals: &mut Stack<Local>, sorts: &SortList) -> Result<(), Memory>
    ensures { OnOk result (locals.new ≡ locals.old ++ map bound_local sorts.now) }
{
    for at in 0..sorts.len() {
        let Some(sort) = sorts.get(at) else {
            return Ok(());
        };
        let sort = sort.copy(alloc)?;
        locals.push(Local::Ghost(GhostLocal {
            is_variable: false,
            sort,
        }))?;
    }
    Ok(())
}

/// Declares names that are bound as locals.
pub fn declare_names(alloc: Global, scope: &mut Scope, bound: &Bound) -> Result<(), Memory>
    ensures { OnOk result (scope.new ≡ with_names scope.old bound.now) }
{
    put_names(&mut scope.locals.names, &bound.names)?;
    put_locals(alloc, &mut scope.locals.meanings, &bound.sorts)?;
    Ok(())
}
